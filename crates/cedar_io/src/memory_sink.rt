ghost use Rattle.std.specs.Prelude.{◌≡◌, ◌≤◌, ◌<◌, ◌+◌, ◌-◌, ◌↔◌, ◌⊎◌, ◌++◌, [], Some, length, take, min, IfOk, OnErr};
ghost use Rattle.std.specs.Prelude.{IsOk, IsErr};
ghost use Rattle.cedar_io.specs.Outside.{Rose, Appends, IsListed, IsFull, counted, sure_room};

use crate::calls::Calls;
use crate::failed::Failed;
use crate::sink::Sink;
use cedar_data::CloneIn;
use std::alloc::{AllocError, Global};
use std::marker::Model;

/// Room in memory, which fails at the calls so numbered, counted from 1, and where no room is left.
#[derive(Drop)]
pub struct MemorySink {
    bytes: Vec<u8>,
    used: usize,
    calls: Calls,
}

impl Model for MemorySink {
    ghost use Rattle.std.specs.Prelude.{◌≤◌, ◌-◌, take, vec_len};
    ghost use Rattle.cedar_io.specs.Outside.{SinkState};

    ghost Value = { SinkState };

    ghost view = { λ s. record {
      taken = take s.used s.bytes.items;
      room = vec_len s.bytes - s.used;
      calls = s.calls.made;
      failing = s.calls.failing.items;
      faults = s.calls.faults;
    } };

    ghost invariant = { λ s. s.used ≤ vec_len s.bytes };
}

impl MemorySink {
    /// A sink with room for so many bytes. All its memory is taken here: a write takes none.
    pub fn with_room(
        alloc: Global,
        room: usize,
        failing: Vec<u64>,
    ) -> Result<MemorySink, AllocError>
        ensures { IfOk result (λ s. s ≡ record {
          taken = [];
          room = room;
          calls = 0;
          failing = failing.items;
          faults = 0;
        }) }
    {
        Ok(MemorySink {
            bytes: vec![in alloc; 0; room]?,
            used: 0,
            calls: Calls::new(failing),
        })
    }

    /// What it has taken.
    pub fn as_slice(&self) -> &[u8]
        ensures { result.now ≡ self.now.taken }
    {
        &self.bytes[..self.used]
    }
}

impl Sink for MemorySink {
    ghost taken = { λ s. Some s.taken };

    ghost faults = { λ s. s.faults };

    ghost sure = { λ s. sure_room s };

    fn write(&mut self, bytes: &[u8]) -> Result<usize, Failed>
        ensures count { IfOk result (λ n. n ≤ length bytes.now) }
        ensures some { IfOk result (λ n. 0 < length bytes.now → 0 < n) }
        ensures took { IfOk result (λ n. Appends (Some self.old.taken) (take n bytes.now) (Some self.new.taken)) }
        ensures err { OnErr result (self.new.taken ≡ self.old.taken) }
        ensures failed { OnErr result (Rose self.old.faults self.new.faults) }
        ensures later { self.old.faults ≤ self.new.faults }
        ensures sure { 0 < length bytes.now → length bytes.now ≤ sure_room self.old → IsOk result }
        ensures steady { 0 < length bytes.now → length bytes.now ≤ sure_room self.old
            → self.new.faults ≡ self.old.faults }
        ensures left { 0 < length bytes.now → length bytes.now ≤ sure_room self.old
            → IfOk result (λ n. sure_room self.old ≤ sure_room self.new + n) }

        // Which calls fail, what the others take, and what stands after each.
        ensures exact { IsErr result ↔ (IsListed self.old.calls self.old.failing ⊎ IsFull self.old.room bytes.now) }
        ensures amount { IfOk result (λ n. n ≡ min (length bytes.now) self.old.room) }
        ensures next { IfOk result (λ n. self.new ≡ record self.old {
          taken = self.old.taken ++ take n bytes.now;
          room = self.old.room - n;
          calls = counted self.old.calls;
        }) }
        ensures fault { OnErr result (self.new ≡ record self.old {
          calls = counted self.old.calls;
          faults = counted self.old.faults;
        }) }
    {
        let listed = self.calls.next_is_listed();
        let n = bytes.len().min(self.bytes.len() - self.used);
        if listed || (n == 0 && !bytes.is_empty()) {
            return Err(self.calls.fault());
        }
        let end = self.used + n;
        self.bytes[self.used..end].copy_from_slice(&bytes[..n]);
        self.used = end;
        Ok(n)
    }
}

impl CloneIn for MemorySink {
    fn clone_in(&self, alloc: Global) -> Result<Self, AllocError> {
        Ok(MemorySink {
            bytes: Vec::from_slice(alloc, &self.bytes)?,
            used: self.used,
            calls: self.calls.copied(alloc)?,
        })
    }
}
