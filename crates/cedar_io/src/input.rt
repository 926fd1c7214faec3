ghost use Rattle.std.specs.Prelude.{◌≡◌, ◌≤◌, ◌<◌, ◌+◌, ℕ, List, length, IfOk, OnOk, IsErrOf};
ghost use Rattle.cedar_io.specs.Outside.{Rose, IsEnd};
ghost use Rattle.cedar_io.specs.Input.{HadLeft, TookAtMost, max_input};

use crate::source::Source;
use std::alloc::Global;

/// How many bytes an input may have.
pub const MAX_INPUT: usize = 16_777_216;

// How many bytes one read asks for at most.
const PIECE: usize = 4096;

/// Why an input was not read to its end.
#[derive(Clone, Copy, PartialEq, Eq)]
pub enum ReadEnd {
    /// A read failed.
    Failed,
    /// The input is longer than an input may be.
    TooLong,
    /// Out of memory.
    Memory,
}

/// The whole input, or why it was not read to its end. Each piece that is asked for has 4,096 bytes at most, and at
/// most one byte more than an input may have is taken.
pub fn read_input<S: Source>(alloc: Global, source: &mut S) -> Result<Vec<u8>, ReadEnd>
    ensures whole { IfOk result (λ bytes. HadLeft (S.left source.old) bytes.items) }
    ensures end { OnOk result (IsEnd (S.left source.new)) }
    ensures short { IfOk result (λ bytes. length bytes.items ≤ max_input) }
    ensures too_long { IsErrOf result ReadEnd.TooLong → (bytes : List ℕ) × HadLeft (S.left source.old) bytes
        × (max_input < length bytes) }
    ensures failed { IsErrOf result ReadEnd.Failed → Rose (S.faults source.old) (S.faults source.new) }
    ensures taken { TookAtMost (max_input + 1) (S.left source.old) (S.left source.new) }
    ensures later { S.faults source.old ≤ S.faults source.new }

    // A fault is counted exactly where a read failed, which ends the reading.
    ensures steady { (IsErrOf result ReadEnd.Failed → ⊥) → S.faults source.new ≡ S.faults source.old }
{
    let mut bytes = Vec::new(alloc);
    let mut piece = [0u8; PIECE];
    while bytes.len() <= MAX_INPUT {
        let room = PIECE.min(MAX_INPUT + 1 - bytes.len());
        let part = &mut piece[..room];
        let Ok(n) = source.read(part) else {
            return Err(ReadEnd::Failed);
        };
        if n == 0 {
            return Ok(bytes);
        }
        if bytes.extend_from_slice(&part[..n]).is_err() {
            return Err(ReadEnd::Memory);
        }
    }
    Err(ReadEnd::TooLong)
}
