ghost use Rattle.std.specs.Prelude.{◌≡◌, ◌≤◌, ◌<◌, ◌+◌, ℕ, List, Option, length, take, IfOk, OnErr, IsOk};
ghost use Rattle.cedar_io.specs.Outside.{Rose, Appends};

use crate::failed::Failed;

/// Where bytes go.
pub trait Sink {
    /// The bytes taken so far, where they are told.
    ghost taken: { Self → Option (List ℕ) };

    /// How often it has failed: a count that never falls.
    ghost faults: { Self → ℕ };

    /// How many bytes it takes without a fault.
    ghost sure: { Self → ℕ };

    /// Takes bytes from the front of `bytes`, and says how many: at least one, where there are any.
    fn write(&mut self, bytes: &[u8]) -> Result<usize, Failed>
        ensures count { IfOk result (λ n. n ≤ length bytes.now) }
        ensures some { IfOk result (λ n. 0 < length bytes.now → 0 < n) }
        ensures took { IfOk result (λ n. Appends (taken self.old) (take n bytes.now) (taken self.new)) }

        // A fault takes nothing, and is counted.
        ensures err { OnErr result (taken self.new ≡ taken self.old) }
        ensures failed { OnErr result (Rose (faults self.old) (faults self.new)) }
        ensures later { faults self.old ≤ faults self.new }

        // What is sure is taken, and no more than what was taken of it is sure no longer.
        ensures sure { 0 < length bytes.now → length bytes.now ≤ sure self.old → IsOk result }
        ensures steady { 0 < length bytes.now → length bytes.now ≤ sure self.old → faults self.new ≡ faults self.old }
        ensures left { 0 < length bytes.now → length bytes.now ≤ sure self.old
            → IfOk result (λ n. sure self.old ≤ sure self.new + n) };
}
