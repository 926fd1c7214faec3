ghost use Rattle.std.specs.Prelude.{◌≡◌, ◌↔◌, IsTrue, IfOk};
ghost use Rattle.cedar_io.specs.Outside.{counted, IsListed};

use crate::failed::Failed;
use std::alloc::{AllocError, Global};

/// The calls of a device in memory, with the numbers of those that fail.
#[derive(Drop)]
pub struct Calls {
    /// How many calls were made.
    pub made: u64,
    /// The numbers of the calls that fail; the first call is number 1.
    pub failing: Vec<u64>,
    /// How many faults were counted.
    pub faults: u64,
}

impl Calls {
    /// No call was made yet.
    pub fn new(failing: Vec<u64>) -> Calls
        ensures { result ≡ record { made = 0; failing = failing; faults = 0 } }
    {
        Calls {
            made: 0,
            failing,
            faults: 0,
        }
    }

    /// Counts a call, and says whether its number is listed.
    pub fn next_is_listed(&mut self) -> bool
        ensures listed { IsTrue result ↔ IsListed self.old.made self.old.failing.items }
        ensures counts { self.new ≡ record self.old { made = counted self.old.made } }
    {
        let Some(call) = self.made.checked_add(1) else {
            return false;
        };
        self.made = call;
        self.failing.contains(&call)
    }

    /// Counts a fault.
    pub fn fault(&mut self) -> Failed
        ensures { self.new ≡ record self.old { faults = counted self.old.faults } }
    {
        self.faults = self.faults.saturating_add(1);
        Failed
    }

    /// A copy of the counts and of the list.
    pub fn copied(&self, alloc: Global) -> Result<Calls, AllocError>
        ensures made { IfOk result (λ copy. copy.made ≡ self.now.made) }
        ensures failing { IfOk result (λ copy. copy.failing.items ≡ self.now.failing.items) }
        ensures faults { IfOk result (λ copy. copy.faults ≡ self.now.faults) }
    {
        Ok(Calls {
            made: self.made,
            failing: Vec::from_slice(alloc, &self.failing)?,
            faults: self.faults,
        })
    }
}
