//! A live run of lines.
ghost use Rattle.kp_run.specs.Outcome as outcome;

use crate::ending::{flushed, handed_on, if_refused};
use crate::status::Status;
use kp_gate::Gate;
use kp_io::{Sink, Source};
use kp_live::{LiveFault, live};
use std::alloc::Global;
use std::sync::Wait;
use std::thread::Threads;

/// Reads the lines of a source to its end, runs their streams beside each other, and writes the
/// text of the run. A fault of reading, or too long an input, is told before any stream runs.
pub(crate) fn run_live<S: Source, K: Sink, R: Threads + Wait + Sync, G: Gate<R> + Sync>(
    rt: &R,
    alloc: Global,
    source: &mut S,
    sink: &mut K,
    gate: &G,
) -> Status
    ensures { outcome.EndsLive result (S.input source.old) (K.output sink.old)
        (S.input source.new) (K.output sink.new) }
{
    match live(rt, alloc, source, sink, gate) {
        Ok(refused) => flushed(sink, if_refused(refused)),
        Err(LiveFault::NoMemory(refused)) => handed_on(sink, refused),
        Err(LiveFault::WriteFault) => Status::WriteFault,
        Err(LiveFault::ReadFault) => flushed(sink, Status::ReadFault),
        Err(LiveFault::InputTooLong) => flushed(sink, Status::InputTooLong),
    }
}
