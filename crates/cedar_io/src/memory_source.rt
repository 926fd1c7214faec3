ghost use Rattle.std.specs.Prelude.{◌≡◌, ◌≤◌, ◌<◌, ◌↔◌, ◌++◌, Some, length, take, drop, min, IfOk, OnOk, OnErr, IsErr};
ghost use Rattle.cedar_io.specs.Outside.{Rose, Took, IsEnd, IsListed, counted};

use crate::calls::Calls;
use crate::failed::Failed;
use crate::source::Source;
use cedar_data::CloneIn;
use std::alloc::{AllocError, Global};
use std::marker::Model;

/// Bytes in memory, which fail at the calls so numbered, counted from 1.
#[derive(Drop)]
pub struct MemorySource {
    bytes: Vec<u8>,
    at: usize,
    calls: Calls,
}

impl Model for MemorySource {
    ghost use Rattle.std.specs.Prelude.{◌≤◌, drop, vec_len};
    ghost use Rattle.cedar_io.specs.Outside.{SourceState};

    ghost Value = { SourceState };

    ghost view = { λ s. record {
      left = drop s.at s.bytes.items;
      calls = s.calls.made;
      failing = s.calls.failing.items;
      faults = s.calls.faults;
    } };

    ghost invariant = { λ s. s.at ≤ vec_len s.bytes };
}

impl MemorySource {
    /// A source of these bytes, with the numbers of the calls that fail.
    pub fn new(bytes: Vec<u8>, failing: Vec<u64>) -> MemorySource
        ensures { result ≡ record { left = bytes.items; calls = 0; failing = failing.items; faults = 0 } }
    {
        MemorySource {
            bytes,
            at: 0,
            calls: Calls::new(failing),
        }
    }
}

impl Source for MemorySource {
    ghost left = { λ s. Some s.left };

    ghost faults = { λ s. s.faults };

    fn read(&mut self, buf: &mut [u8]) -> Result<usize, Failed>
        ensures count { IfOk result (λ n. n ≤ length buf.old) }
        ensures took { IfOk result (λ n. Took (Some self.old.left) (take n buf.new) (Some self.new.left)) }
        ensures end { IfOk result (λ n. n ≡ 0 → 0 < length buf.old → IsEnd (Some self.old.left)) }
        ensures err { OnErr result (self.new.left ≡ self.old.left) }
        ensures failed { OnErr result (Rose self.old.faults self.new.faults) }
        ensures later { self.old.faults ≤ self.new.faults }
        ensures steady { OnOk result (self.new.faults ≡ self.old.faults) }

        // Which calls fail, what the others take, and what stands after each.
        ensures exact { IsErr result ↔ IsListed self.old.calls self.old.failing }
        ensures amount { IfOk result (λ n. n ≡ min (length buf.old) (length self.old.left)) }
        ensures bytes { IfOk result (λ n. buf.new ≡ take n self.old.left ++ drop n buf.old) }
        ensures next { IfOk result (λ n. self.new ≡ record self.old {
          left = drop n self.old.left;
          calls = counted self.old.calls;
        }) }
        ensures untouched { OnErr result (buf.new ≡ buf.old) }
        ensures fault { OnErr result (self.new ≡ record self.old {
          calls = counted self.old.calls;
          faults = counted self.old.faults;
        }) }
    {
        if self.calls.next_is_listed() {
            return Err(self.calls.fault());
        }
        let n = buf.len().min(self.bytes.len() - self.at);
        let end = self.at + n;
        buf[..n].copy_from_slice(&self.bytes[self.at..end]);
        self.at = end;
        Ok(n)
    }
}

impl CloneIn for MemorySource {
    fn clone_in(&self, alloc: Global) -> Result<Self, AllocError> {
        Ok(MemorySource {
            bytes: Vec::from_slice(alloc, &self.bytes)?,
            at: self.at,
            calls: self.calls.copied(alloc)?,
        })
    }
}
