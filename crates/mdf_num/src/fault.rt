ghost use Rattle.std.specs.Prelude.{◌≡◌, ◌+◌, ◌-◌, ◌^◌, ◌≤◌, ◌↔◌, min, IsTrue, Contains};
ghost use Rattle.mdf_format.specs.Cause.{Rose};

use crate::{Failed, Numbers};
use std::marker::Model;

/// How often an outside object has failed. Contracts see it as the number; it stays at the last u64.
#[derive(Drop)]
pub struct FaultCount {
    count: u64,
}

impl Model for FaultCount {
    ghost use Rattle.std.specs.Prelude.{ℕ};

    ghost Value = { ℕ };

    ghost view = { λ f. f.count };
}

impl FaultCount {
    /// No fault yet.
    pub fn zero() -> FaultCount
        ensures { result ≡ 0 }
    {
        FaultCount { count: 0 }
    }

    /// Counts a fault, and answers it.
    pub fn fail(&mut self) -> Failed
        ensures count { self.new ≡ min (self.old + 1) (2 ^ 64 - 1) }
        ensures rose { Rose self.old self.new }
        ensures later { self.old ≤ self.new }
    {
        self.count = self.count.saturating_add(1);
        Failed
    }

    pub fn get(&self) -> u64
        ensures { result ≡ self.now }
    {
        self.count
    }
}

/// Which calls of an object in memory are to fail, by their numbers from 0, and how many calls failed.
#[derive(Drop)]
pub struct FaultPlan {
    failing: Numbers,
    calls: u64,
    faults: FaultCount,
}

impl Model for FaultPlan {
    ghost use Rattle.mdf_num.specs.Plan.{Plan};

    ghost Value = { Plan };

    ghost view = { λ p. record { failing = p.failing; calls = p.calls; faults = p.faults } };
}

impl FaultPlan {
    /// Before the first call. These calls are to fail.
    pub fn new(failing: Numbers) -> FaultPlan
        ensures failing { result.failing ≡ failing }
        ensures calls { result.calls ≡ 0 }
        ensures faults { result.faults ≡ 0 }
    {
        FaultPlan {
            failing,
            calls: 0,
            faults: FaultCount::zero(),
        }
    }

    /// Begins the next call, and says whether it may succeed.
    pub fn call(&mut self) -> bool
        ensures planned { IsTrue result ↔ ¬ Contains self.old.failing self.old.calls }
        ensures failing { self.new.failing ≡ self.old.failing }
        ensures calls { self.new.calls ≡ min (self.old.calls + 1) (2 ^ 64 - 1) }
        ensures faults { self.new.faults ≡ self.old.faults }
    {
        let call = self.calls;
        self.calls = call.saturating_add(1);
        !self.failing.as_slice().contains(&call)
    }

    /// From now on these calls are to fail, and no others.
    pub fn fail_at(&mut self, failing: Numbers)
        ensures failing { self.new.failing ≡ failing }
        ensures calls { self.new.calls ≡ self.old.calls }
        ensures faults { self.new.faults ≡ self.old.faults }
    {
        self.failing = failing;
    }

    /// Counts a fault of the call that has begun, and answers it.
    pub fn fail(&mut self) -> Failed
        ensures count { self.new.faults ≡ min (self.old.faults + 1) (2 ^ 64 - 1) }
        ensures rose { Rose self.old.faults self.new.faults }
        ensures later { self.old.faults ≤ self.new.faults }
        ensures failing { self.new.failing ≡ self.old.failing }
        ensures calls { self.new.calls ≡ self.old.calls }
    {
        self.faults.fail()
    }

    /// How many calls failed.
    pub fn faults(&self) -> u64
        ensures { result ≡ self.now.faults }
    {
        self.faults.get()
    }
}
