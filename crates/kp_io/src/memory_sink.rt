//! A sink in memory that fails by plan.
ghost use Rattle.std.specs.Prelude.{◌≡◌, ◌≤◌, min, length, IfOk, OnErr};
ghost use Rattle.kp_io.specs.Ends.{AfterWrite, AfterHandOn, AfterFlush};
ghost use Rattle.kp_io.specs.Memory.{shown_sink, fresh_sink, fresh_plan, KeepsTelling, Meets};

use crate::plan::Plan;
use crate::sink::Sink;
use crate::source::Failed;
use crate::sure_sink::SureSink;
use kp_base::{Items, NoMemory};
use std::alloc::Global;
use std::marker::Model;

/// A sink that keeps what is written in memory, takes at most so many bytes in a write, and whose
/// writes and flushes fail by plan. They are counted together. It has room for so many bytes from
/// the start. Where it is refused memory for more, it takes the bytes all the same, and from then
/// on tells no content.
#[derive(Drop)]
pub struct MemorySink {
    sink: SureSink,
    plan: Plan,
}

impl Model for MemorySink {
    ghost use Rattle.kp_io.specs.Memory.{PlannedSink, told_bytes, told_flushed};
    ghost use Rattle.kp_io.specs.Told.{IsWithin};

    ghost Value = { PlannedSink };

    ghost view = { λ s. record { sink = s.sink; plan = s.plan } };

    ghost invariant = { λ s. IsWithin (told_flushed s.sink) (told_bytes s.sink) };
}

impl MemorySink {
    /// A sink that nothing was written to, with room for so many bytes, whose calls of these
    /// numbers, from 1, fail.
    pub fn new(
        alloc: Global,
        piece: u64,
        room: usize,
        fails: Items<u64>,
    ) -> Result<MemorySink, NoMemory>
        requires { 1 ≤ piece }
        ensures sink { IfOk result (λ s. s.sink ≡ fresh_sink piece room) }
        ensures plan { IfOk result (λ s. s.plan ≡ fresh_plan fails) }
    {
        Ok(MemorySink {
            sink: SureSink::new(alloc, piece, room)?,
            plan: Plan::new(fails),
        })
    }

    /// The bytes that were written, where the sink tells its content.
    pub fn written(&self) -> &[u8]
        ensures { result.now ≡ self.now.sink.kept }
    {
        self.sink.written()
    }
}

impl Sink for MemorySink {
    ghost output = { λ s. shown_sink s.sink s.plan.faults };

    fn write(&mut self, bytes: &[u8]) -> Result<usize, Failed>
        ensures writes { AfterWrite result bytes.now
            (shown_sink self.old.sink self.old.plan.faults)
            (shown_sink self.new.sink self.new.plan.faults) }
        ensures planned { Meets result self.old.plan self.new.plan }
        ensures count { IfOk result (λ n. n ≡ min self.old.sink.piece (length bytes.now)) }
        ensures tells { IfOk result (λ n. KeepsTelling self.old.sink self.new.sink n) }
        ensures same { OnErr result (self.new.sink ≡ self.old.sink) }
    {
        self.plan.meet()?;
        self.sink.write(bytes)
    }

    fn hand_on(&mut self) -> Result<(), Failed>
        ensures hands_on { AfterHandOn result (shown_sink self.old.sink self.old.plan.faults)
            (shown_sink self.new.sink self.new.plan.faults) }
        ensures sure { result ≡ Ok tt }
        ensures same { self.new ≡ self.old }
    {
        Ok(())
    }

    fn flush(&mut self) -> Result<(), Failed>
        ensures flushes { AfterFlush result (shown_sink self.old.sink self.old.plan.faults)
            (shown_sink self.new.sink self.new.plan.faults) }
        ensures planned { Meets result self.old.plan self.new.plan }
        ensures same { OnErr result (self.new.sink ≡ self.old.sink) }
    {
        self.plan.meet()?;
        self.sink.flush()
    }
}
