//! The calls of a source or a sink in memory that are to fail.
ghost use Rattle.std.specs.Prelude.{◌≡◌};
ghost use Rattle.kp_io.specs.Faults.{HasCause};
ghost use Rattle.kp_io.specs.Memory.{fresh_plan, Meets};

use crate::source::Failed;
use kp_base::Items;
use std::marker::Model;

/// The numbers of the calls that are to fail, from 1, and how many calls there were.
#[derive(Drop)]
pub(crate) struct Plan {
    fails: Items<u64>,
    calls: u64,
    faults: u64,
}

impl Model for Plan {
    ghost use Rattle.kp_io.specs.Memory.{FaultPlan};

    ghost Value = { FaultPlan };

    ghost view = { λ p. record { fails = p.fails; calls = p.calls; faults = p.faults } };
}

impl Plan {
    /// A plan that no call has met yet.
    pub(crate) fn new(fails: Items<u64>) -> Plan
        ensures { result ≡ fresh_plan fails }
    {
        Plan {
            fails,
            calls: 0,
            faults: 0,
        }
    }

    /// Counts a call, and fails where it is to fail.
    pub(crate) fn meet(&mut self) -> Result<(), Failed>
        ensures meets { Meets result self.old self.new }
        ensures cause { HasCause self.old.faults self.new.faults result }
    {
        self.calls = self.calls.saturating_add(1);
        if self.fails.as_slice().contains(&self.calls) {
            self.faults = self.faults.saturating_add(1);
            return Err(Failed);
        }
        Ok(())
    }
}
