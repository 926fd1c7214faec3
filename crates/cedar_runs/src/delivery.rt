ghost use Rattle.std.specs.Prelude.{◌≡◌, ◌≤◌, length};
ghost use Rattle.cedar_runs.specs.Reports.{report_of};
ghost use Rattle.cedar_runs.specs.Runs.{device, IsDelivered};

use crate::reply::Reply;
use crate::status::Status;
use cedar_io::{Sink, write_text};

/// Writes what the reply says. The first sink that fails ends the run.
pub fn deliver<O: Sink, E: Sink>(reply: &Reply, out: &mut O, err: &mut E) -> Status
    ensures delivered { let out_device = device O.taken O.faults out.old out.new in
        let err_device = device E.taken E.faults err.old err.new in
        IsDelivered out_device err_device (report_of reply.now) result }
    ensures out_later { O.faults out.old ≤ O.faults out.new }
    ensures err_later { E.faults err.old ≤ E.faults err.new }

    // A sink that surely takes what the reply has for it counts no fault.
    ensures out_sure { length (report_of reply.now).out ≤ O.sure out.old → O.faults out.new ≡ O.faults out.old }
    ensures err_sure { length (report_of reply.now).err ≤ E.sure err.old → E.faults err.new ≡ E.faults err.old }
{
    let Ok(()) = write_text(out, reply.out.as_str()) else {
        return Status::WriteFault;
    };
    let Ok(()) = write_text(err, reply.err.as_str()) else {
        return Status::WriteFault;
    };
    reply.status
}
