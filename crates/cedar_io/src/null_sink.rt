ghost use Rattle.std.specs.Prelude.{◌≡◌, ◌≤◌, ◌<◌, ◌+◌, None, Ok, length, take, IfOk, OnErr, IsOk};
ghost use Rattle.cedar_io.specs.Outside.{Rose, Appends};

use crate::failed::Failed;
use crate::sink::Sink;

/// Takes everything, and tells nothing of it.
#[derive(Clone, Copy)]
pub struct NullSink;

impl Sink for NullSink {
    ghost taken = { λ _. None };

    ghost faults = { λ _. 0 };

    ghost sure = { λ _. 0 };

    fn write(&mut self, bytes: &[u8]) -> Result<usize, Failed>
        ensures count { IfOk result (λ n. n ≤ length bytes.now) }
        ensures some { IfOk result (λ n. 0 < length bytes.now → 0 < n) }
        ensures took { IfOk result (λ n. Appends (⟦<NullSink as Sink>⟧.taken self.old) (take n bytes.now)
            (⟦<NullSink as Sink>⟧.taken self.new)) }
        ensures err { OnErr result (⟦<NullSink as Sink>⟧.taken self.new ≡ ⟦<NullSink as Sink>⟧.taken self.old) }
        ensures failed { OnErr result (Rose (⟦<NullSink as Sink>⟧.faults self.old)
            (⟦<NullSink as Sink>⟧.faults self.new)) }
        ensures later { ⟦<NullSink as Sink>⟧.faults self.old ≤ ⟦<NullSink as Sink>⟧.faults self.new }
        ensures sure { 0 < length bytes.now → length bytes.now ≤ ⟦<NullSink as Sink>⟧.sure self.old → IsOk result }
        ensures steady { 0 < length bytes.now → length bytes.now ≤ ⟦<NullSink as Sink>⟧.sure self.old
            → ⟦<NullSink as Sink>⟧.faults self.new ≡ ⟦<NullSink as Sink>⟧.faults self.old }
        ensures left { 0 < length bytes.now → length bytes.now ≤ ⟦<NullSink as Sink>⟧.sure self.old
            → IfOk result (λ n. ⟦<NullSink as Sink>⟧.sure self.old ≤ ⟦<NullSink as Sink>⟧.sure self.new + n) }

        // Each call takes all.
        ensures exact { result ≡ Ok (length bytes.now) }
    {
        Ok(bytes.len())
    }
}
