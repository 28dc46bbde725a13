//! A source in memory that fails by plan.
ghost use Rattle.std.specs.Prelude.{◌≡◌, ◌≤◌, min, length, IfOk};
ghost use Rattle.kp_io.specs.Ends.{AfterRead};
ghost use Rattle.kp_io.specs.Memory.{shown_left, fresh_plan, Meets};

use crate::plan::Plan;
use crate::source::{Failed, Source};
use crate::sure_source::SureSource;
use kp_base::Items;
use std::marker::Model;

/// Bytes in memory, of which a read gives at most so many, and reads that fail by plan.
#[derive(Drop)]
pub struct MemorySource {
    source: SureSource,
    plan: Plan,
}

impl Model for MemorySource {
    ghost use Rattle.kp_io.specs.Memory.{PlannedSource};

    ghost Value = { PlannedSource };

    ghost view = { λ s. record { source = s.source; plan = s.plan } };
}

impl MemorySource {
    /// A source of these bytes, whose calls of these numbers, from 1, fail.
    pub fn new(bytes: Items<u8>, piece: u64, fails: Items<u64>) -> MemorySource
        requires { 1 ≤ piece }
        ensures left { result.source.left ≡ bytes }
        ensures piece { result.source.piece ≡ piece }
        ensures plan { result.plan ≡ fresh_plan fails }
    {
        MemorySource {
            source: SureSource::new(bytes, piece),
            plan: Plan::new(fails),
        }
    }
}

impl Source for MemorySource {
    ghost input = { λ s. shown_left s.source.left s.plan.faults s.plan.calls };

    fn read(&mut self, buf: &mut [u8]) -> Result<usize, Failed>
        ensures reads { AfterRead result buf.new
            (shown_left self.old.source.left self.old.plan.faults self.old.plan.calls)
            (shown_left self.new.source.left self.new.plan.faults self.new.plan.calls) }
        ensures planned { Meets result self.old.plan self.new.plan }
        ensures count { IfOk result (λ n. n
            ≡ min self.old.source.piece (min (length buf.old) (length self.old.source.left))) }
        ensures piece { self.new.source.piece ≡ self.old.source.piece }
    {
        self.plan.meet()?;
        self.source.read(buf)
    }
}
