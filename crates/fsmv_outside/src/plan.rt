//! A plan of faults, for files and sinks in memory.

ghost use Rattle.std.specs.Prelude.{◌≡◌, ◌↔◌, ◌≤◌, false, IsTrue};
ghost use Rattle.fsmv_outside.specs.Count.{counted};
ghost use Rattle.fsmv_outside.specs.Plan.{fresh_plan, after_call, IsToFail};

use crate::count::count_one;
use std::marker::Model;

/// The numbers of the calls that are to fail, counted from 1, and the counts of calls and faults.
#[derive(Debug, Drop)]
pub(crate) struct FaultPlan {
    failing: Vec<u32>,
    calls: u64,
    faults: u64,
}

impl Model for FaultPlan {
    ghost use Rattle.fsmv_outside.specs.Plan.{Plan};

    ghost Value = { Plan };

    ghost view = { λ plan. record
        { failing = plan.failing.items; calls = plan.calls; faults = plan.faults } };
}

impl FaultPlan {
    /// A plan before the first call.
    pub(crate) fn new(failing: Vec<u32>) -> FaultPlan
        ensures { result ≡ fresh_plan failing.items }
    {
        FaultPlan {
            failing,
            calls: 0,
            faults: 0,
        }
    }

    /// Counts a call, and returns whether it is to fail.
    pub(crate) fn count_call(&mut self) -> bool
        ensures fails { IsTrue result ↔ IsToFail self.old }
        ensures counts { self.new ≡ after_call self.old false }
    {
        self.calls = count_one(self.calls);
        let call = self.calls;
        self.failing.iter().any(|number| u64::from(*number) == call)
    }

    /// Counts a fault.
    pub(crate) fn count_fault(&mut self)
        ensures counts { self.new ≡ record self.old { faults = counted self.old.faults } }
        ensures never_falls { self.old.faults ≤ self.new.faults }
    {
        self.faults = count_one(self.faults);
    }
}
