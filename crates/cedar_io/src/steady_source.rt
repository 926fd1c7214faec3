ghost use Rattle.std.specs.Prelude.{◌≡◌, ◌≤◌, ◌<◌, ◌++◌, Some, length, take, drop, min, IfOk, OnOk, IsOkAnd, OnErr};
ghost use Rattle.cedar_io.specs.Outside.{Rose, Took, IsEnd};

use crate::failed::Failed;
use crate::source::Source;
use cedar_data::CloneIn;
use std::alloc::{AllocError, Global};
use std::marker::Model;

/// Bytes in memory, which never fail.
#[derive(Drop)]
pub struct SteadySource {
    bytes: Vec<u8>,
    at: usize,
}

impl Model for SteadySource {
    ghost use Rattle.std.specs.Prelude.{◌≤◌, drop, vec_len};
    ghost use Rattle.cedar_io.specs.Outside.{SteadyState};

    ghost Value = { SteadyState };

    ghost view = { λ s. record { left = drop s.at s.bytes.items } };

    ghost invariant = { λ s. s.at ≤ vec_len s.bytes };
}

impl SteadySource {
    /// A source of these bytes.
    pub fn new(bytes: Vec<u8>) -> SteadySource
        ensures { result ≡ record { left = bytes.items } }
    {
        SteadySource { bytes, at: 0 }
    }
}

impl Source for SteadySource {
    ghost left = { λ s. Some s.left };

    ghost faults = { λ _. 0 };

    fn read(&mut self, buf: &mut [u8]) -> Result<usize, Failed>
        ensures count { IfOk result (λ n. n ≤ length buf.old) }
        ensures took { IfOk result (λ n. Took (Some self.old.left) (take n buf.new) (Some self.new.left)) }
        ensures end { IfOk result (λ n. n ≡ 0 → 0 < length buf.old → IsEnd (Some self.old.left)) }
        ensures err { OnErr result (self.new.left ≡ self.old.left) }
        ensures failed { OnErr result (Rose (⟦<SteadySource as Source>⟧.faults self.old)
            (⟦<SteadySource as Source>⟧.faults self.new)) }
        ensures later { ⟦<SteadySource as Source>⟧.faults self.old ≤ ⟦<SteadySource as Source>⟧.faults self.new }
        ensures steady { OnOk result (⟦<SteadySource as Source>⟧.faults self.new
            ≡ ⟦<SteadySource as Source>⟧.faults self.old) }

        // Each call answers, with as much as there is and as fits.
        ensures exact { IsOkAnd result (λ n. n ≡ min (length buf.old) (length self.old.left)) }
        ensures bytes { IfOk result (λ n. buf.new ≡ take n self.old.left ++ drop n buf.old) }
        ensures next { IfOk result (λ n. self.new ≡ record self.old { left = drop n self.old.left }) }
    {
        let n = buf.len().min(self.bytes.len() - self.at);
        let end = self.at + n;
        buf[..n].copy_from_slice(&self.bytes[self.at..end]);
        self.at = end;
        Ok(n)
    }
}

impl CloneIn for SteadySource {
    fn clone_in(&self, alloc: Global) -> Result<Self, AllocError> {
        Ok(SteadySource {
            bytes: Vec::from_slice(alloc, &self.bytes)?,
            at: self.at,
        })
    }
}
