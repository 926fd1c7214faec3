ghost use Rattle.std.specs.Prelude.{◌≡◌, ◌≤◌, [], length, OnOk, OnErr, IsOk};
ghost use Rattle.cedar_io.specs.Outside.{Rose, Appends, AppendsPart};

use crate::failed::Failed;
use crate::sink::Sink;

/// Writes the text whole. Where the sink fails, it took a front of the text, and not all of it, and counted a fault.
pub fn write_text<O: Sink>(sink: &mut O, text: &str) -> Result<(), Failed>
    ensures whole { OnOk result (Appends (O.taken sink.old) text.now (O.taken sink.new)) }
    ensures nothing { text.now ≡ [] → sink.new ≡ sink.old }
    ensures part { OnErr result (AppendsPart (O.taken sink.old) text.now (O.taken sink.new)) }
    ensures failed { OnErr result (Rose (O.faults sink.old) (O.faults sink.new)) }
    ensures later { O.faults sink.old ≤ O.faults sink.new }

    // What the sink surely takes is written, and no fault is counted.
    ensures sure { length text.now ≤ O.sure sink.old → IsOk result }
    ensures steady { length text.now ≤ O.sure sink.old → O.faults sink.new ≡ O.faults sink.old }
{
    let bytes = text.as_bytes();
    let mut at = 0;
    while at < bytes.len() {
        at += sink.write(&bytes[at..])?;
    }
    Ok(())
}
