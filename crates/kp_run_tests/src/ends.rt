//! Runs over ends in memory, with their statuses and what was written.
use crate::inputs::{CLASHES, ENDPOINTS, LIVE, case_of};
use crate::lines::words_of;
use kp_base::Items;
use kp_gate::{Gate, OpenGate};
use kp_io::{BufferedSink, MemorySink, MemorySource, SureSink, SureSource};
use kp_run::{Status, run, run_alone};
use std::alloc::Global;
use std::process::Abort;
use std::sync::Wait;
use std::test::Fail;
use std::thread::Threads;

/// The words of a replay with one worker, and with four.
pub(crate) const REPLAYS: [&str; 2] = ["kproxy replay", "kproxy replay --workers=4"];

/// How a run ended, and the bytes that it wrote.
#[derive(Drop)]
pub(crate) struct Ended {
    pub(crate) status: Status,
    pub(crate) written: Vec<u8>,
}

/// The number of one call that fails, or none for 0.
fn failing(alloc: Global, call: u64) -> Result<Items<u64>, Fail> {
    let mut calls = Vec::new(alloc);
    if call != 0 {
        calls.push(call)?;
    }
    Ok(Items::from_vec(calls))
}

/// A run whose reads and writes take at most so many bytes, of which the read and the write or flush
/// of these numbers fail, from 1, or none for 0, and whose calls pass a gate.
pub(crate) fn gated_run<R: Threads + Wait + Sync + AllocGlobal, G: Gate<R> + Sync>(
    rt: &R,
    line: &str,
    input: &str,
    pieces: (u64, u64),
    calls: (u64, u64),
    gate: &G,
) -> Result<Ended, Fail> {
    let alloc = rt.alloc();
    let bytes = Items::from_vec(Vec::from_slice(alloc, input.as_bytes())?);
    let mut source = MemorySource::new(bytes, pieces.0.max(1), failing(alloc, calls.0)?);
    let mut sink = MemorySink::new(alloc, pieces.1.max(1), 4096, failing(alloc, calls.1)?)?;
    let words = words_of(alloc, line)?;
    let status = run(rt, alloc, words.as_slice(), &mut source, &mut sink, gate);
    let written = Vec::from_slice(alloc, sink.written())?;
    Ok(Ended { status, written })
}

/// The same over a buffer before the sink, and a source that never fails: what is told as written
/// is what came through.
pub(crate) fn buffered_run<R: Threads + Wait + Sync + AllocGlobal>(
    rt: &R,
    line: &str,
    input: &str,
    pieces: (u64, u64),
    call: u64,
) -> Result<Ended, Fail> {
    let alloc = rt.alloc();
    let bytes = Items::from_vec(Vec::from_slice(alloc, input.as_bytes())?);
    let mut source = SureSource::new(bytes, pieces.0.max(1));
    let sink = MemorySink::new(alloc, pieces.1.max(1), 4096, failing(alloc, call)?)?;
    let mut sink = BufferedSink::new(alloc, sink)?;
    let (words, gate) = (words_of(alloc, line)?, OpenGate);
    let status = run(rt, alloc, words.as_slice(), &mut source, &mut sink, &gate);
    let written = Vec::from_slice(alloc, sink.sink().written())?;
    Ok(Ended { status, written })
}

/// A run over ends that never fail, in pieces of so many bytes, whose calls pass a gate.
pub(crate) fn sure_run<R: Threads + Wait + Sync + AllocGlobal, G: Gate<R> + Sync>(
    rt: &R,
    line: &str,
    input: &str,
    piece: u64,
    gate: &G,
) -> Result<Ended, Fail> {
    let alloc = rt.alloc();
    let piece = piece.max(1);
    let bytes = Items::from_vec(Vec::from_slice(alloc, input.as_bytes())?);
    let mut source = SureSource::new(bytes, piece);
    let mut sink = SureSink::new(alloc, piece, 4096)?;
    let words = words_of(alloc, line)?;
    let status = run(rt, alloc, words.as_slice(), &mut source, &mut sink, gate);
    let written = Vec::from_slice(alloc, sink.written())?;
    Ok(Ended { status, written })
}

/// Whether a run ended so, with this text.
pub(crate) fn is_end(run: &Ended, status: Status, text: &str) -> bool {
    run.status == status && run.written.as_slice() == text.as_bytes()
}

/// A worked input prints its text, whatever the pieces.
fn check_whole<R: Abort + Threads + Wait + Sync + AllocGlobal>(
    rt: &R,
    words: &str,
    rows: &str,
    status: Status,
) -> Result<(), Fail> {
    let case = case_of(rt.alloc(), rows, 100)?;
    for piece in [1u64, 7, 4096] {
        let whole = sure_run(rt, words, &case.input, piece, &OpenGate)?;
        assert!(rt;
            is_end(&whole, status, &case.printed),
            "{words} {piece}: {rows}"
        );
    }
    Ok(())
}

#[test]
fn a_run_prints_its_text_in_any_pieces(rt: HostRuntime) -> Result<(), Fail> {
    for words in REPLAYS {
        check_whole(&rt, words, ENDPOINTS, Status::Done)?;
        check_whole(&rt, words, CLASHES, Status::LinesRefused)?;
    }
    check_whole(&rt, "kproxy live", LIVE, Status::LinesRefused)
}

/// A run that needs no threads returns with nothing to wait by. Of another one nothing is done.
#[test]
fn a_run_by_one_thread_needs_no_runtime(rt: HostRuntime) -> Result<(), Fail> {
    let alloc = rt.alloc();
    let case = case_of(alloc, ENDPOINTS, 100)?;
    let bytes = Items::from_vec(Vec::from_slice(alloc, case.input.as_bytes())?);
    let mut source = SureSource::new(bytes, 7);
    let mut sink = SureSink::new(alloc, 7, 4096)?;
    for line in ["kproxy live", "kproxy replay --workers=2"] {
        let words = words_of(alloc, line)?;
        let status = run_alone(alloc, words.as_slice(), &mut source, &mut sink);
        assert!(rt; status.is_none(), "{line}");
        assert!(rt; sink.written().is_empty(), "{line}");
    }
    let words = words_of(alloc, "kproxy replay")?;
    let status = run_alone(alloc, words.as_slice(), &mut source, &mut sink);
    assert!(rt; status == Some(Status::Done));
    assert!(rt; sink.written() == case.printed.as_bytes());
    Ok(())
}

/// The line that is written where the words don't fit.
const USAGE: &str =
    "usage: kproxy replay [--workers N] | kproxy live | kproxy gen SEED SERVICES PODS\n";

/// A flush that fails is told, after a failed read and after the usage line too.
#[test]
fn a_failed_flush_is_told_after_any_end(rt: HostRuntime) -> Result<(), Fail> {
    let whole = case_of(rt.alloc(), ENDPOINTS, 100)?;
    // the line of the sync is one write, so the flush is the second call
    let front = case_of(rt.alloc(), ENDPOINTS, 4)?;
    let read = front.input.len() as u64 + 1;
    let unread = gated_run(&rt, REPLAYS[0], &whole.input, (1, 64), (read, 2), &OpenGate)?;
    assert!(rt; is_end(&unread, Status::WriteFault, &front.printed));
    // the usage line is two writes, of 64 bytes and of 17
    let usage = gated_run(&rt, "kproxy help", "", (1, 64), (0, 3), &OpenGate)?;
    assert!(rt; is_end(&usage, Status::WriteFault, USAGE));
    let whole = gated_run(&rt, "kproxy help", "", (1, 64), (0, 4), &OpenGate)?;
    assert!(rt; is_end(&whole, Status::Usage, USAGE));
    Ok(())
}
