ghost use Rattle.std.specs.Prelude.{◌≡◌, ◌↔◌, IsTrue, false};
ghost use Rattle.std.specs.List.Sorted.{IsNonDecreasing, IsPermutation};

use crate::Numbers;

/// The calls that are to fail, by their numbers from 0 on, ascending; how many calls were made, and how many failed.
/// Both counts stay at their last value.
#[derive(Drop)]
pub struct FaultPlan {
    fails: Vec<u64>,
    calls: u64,
    faults: u64,
    ghost ascending: { IsNonDecreasing fails.items },
}

impl FaultPlan {
    ghost use Rattle.io_ports.specs.FaultPlan.{IsNextToFail, Counts, IsOneMore};

    /// The plan with these numbers of calls, in any order. No call was made. It takes no memory.
    pub(crate) fn new(fails: Numbers) -> FaultPlan
        ensures fails { IsPermutation fails result.fails.items }
        ensures calls { result.calls ≡ 0 }
        ensures faults { result.faults ≡ 0 }
    {
        let mut fails = fails.into_vec();
        fails.sort_unstable();
        FaultPlan {
            fails,
            calls: 0,
            faults: 0,
        }
    }

    /// How many calls failed.
    pub(crate) fn faults(&self) -> u64
        ensures { result ≡ self.now.faults }
    {
        self.faults
    }

    /// Whether the next call is to fail.
    fn is_to_fail(&self) -> bool
        ensures { IsTrue result ↔ IsNextToFail self.now }
    {
        self.fails.binary_search(&self.calls).is_ok()
    }

    /// Counts one call. The answer says whether it is to fail; no fault is counted.
    pub(crate) fn call_is_to_fail(&mut self) -> bool
        ensures fails { IsTrue result ↔ IsNextToFail self.old }
        ensures counted { Counts self.old self.new }
        ensures faults { self.new.faults ≡ self.old.faults }
    {
        let fails = self.is_to_fail();
        self.calls = self.calls.saturating_add(1);
        fails
    }

    /// Counts one call, and a fault where it is to fail, as the answer says.
    pub(crate) fn call_fails(&mut self) -> bool
        ensures fails { IsTrue result ↔ IsNextToFail self.old }
        ensures counted { Counts self.old self.new }
        ensures fault { IsTrue result → IsOneMore self.old.faults self.new.faults }
        ensures none { result ≡ false → self.new.faults ≡ self.old.faults }
    {
        let fails = self.call_is_to_fail();
        if fails {
            self.fault();
        }
        fails
    }

    /// Counts a fault of the last call.
    pub(crate) fn fault(&mut self)
        ensures fails { self.new.fails ≡ self.old.fails }
        ensures calls { self.new.calls ≡ self.old.calls }
        ensures fault { IsOneMore self.old.faults self.new.faults }
    {
        self.faults = self.faults.saturating_add(1);
    }
}
