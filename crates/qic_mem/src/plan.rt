//! Calls that are chosen to fail, and the count of faults.

ghost use Rattle.std.specs.Prelude.{◌≡◌, ◌↔◌, ◌≤◌, IsTrue};
ghost use Rattle.qic_mem.specs.Plan.{new_plan, IsChosen, counted, plan_after};

use std::marker::Model;

/// Which calls of an object are to fail, and how many calls and faults there were.
#[derive(Drop)]
pub(crate) struct CallPlan {
    fails: Vec<u64>,
    calls: u64,
    faults: u64,
}

impl Model for CallPlan {
    ghost use Rattle.qic_mem.specs.Plan.{Plan};

    ghost Value = { Plan };

    ghost view = { λ p. record { fails = p.fails.items; calls = p.calls; faults = p.faults } };
}

impl CallPlan {
    /// No call was made so far.
    pub(crate) fn new(fails: Vec<u64>) -> Self
        ensures { result ≡ new_plan fails.items }
    {
        CallPlan {
            fails,
            calls: 0,
            faults: 0,
        }
    }

    /// How many calls failed.
    pub(crate) fn faults(&self) -> u64
        ensures { result ≡ self.now.faults }
    {
        self.faults
    }

    /// Counts a call. Answers whether it is to fail.
    pub(crate) fn begin(&mut self) -> bool
        ensures chosen { IsTrue result ↔ IsChosen self.old }
        ensures counted { self.new ≡ plan_after self.old result }
        ensures never_falls { self.old.faults ≤ self.new.faults }
    {
        let failed = self.is_next_chosen();
        self.count(failed);
        failed
    }

    /// Whether the next call is to fail.
    pub(crate) fn is_next_chosen(&self) -> bool
        ensures { IsTrue result ↔ IsChosen self.now }
    {
        self.fails.contains(&self.calls)
    }

    /// Counts a call, and its fault where it failed.
    pub(crate) fn count(&mut self, failed: bool)
        ensures counted { self.new ≡ plan_after self.old failed }
        ensures never_falls { self.old.faults ≤ self.new.faults }
    {
        self.calls = self.calls.saturating_add(1);
        count_failure(&mut self.faults, failed);
    }
}

/// Raises a count of failures where a call failed.
pub(crate) fn count_failure(count: &mut u64, failed: bool)
    ensures counted { count.new ≡ counted count.old failed }
    ensures never_falls { count.old ≤ count.new }
{
    if failed {
        *count = count.saturating_add(1);
    }
}
