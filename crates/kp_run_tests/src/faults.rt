//! Reads and writes that fail at every call of a run, and what is written then: of a replay, with
//! one worker and with four, and of a live run.
use crate::ends::{REPLAYS, buffered_run, gated_run, is_end};
use crate::inputs::{CLASHES, Case, ENDPOINTS, LIVE, case_of};
use kp_gate::OpenGate;
use kp_run::Status;
use std::process::Abort;
use std::sync::Wait;
use std::test::Fail;
use std::thread::Threads;

/// How many bytes a read gives at most.
const READ: u64 = 64;

/// More calls than a run of these inputs makes.
const CALLS: u64 = 10_000;

/// How many lines have come to their ends in the first bytes of a text, so many.
pub(crate) fn lines_in(text: &str, bytes: u64) -> u64 {
    let text = text.as_bytes();
    let (front, _) = text.split_at((bytes as usize).min(text.len()));
    front.iter().filter(|byte: &&u8| **byte == b'\n').count() as u64
}

/// Whether a replay that a read of this number ended wrote exactly the text of the lines that were
/// read to their ends before.
fn is_cut<R: Threads + Wait + Sync + AllocGlobal>(
    rt: &R,
    rows: &str,
    case: &Case,
    call: u64,
    written: &[u8],
) -> Result<bool, Fail> {
    let taken = call.saturating_sub(1).saturating_mul(READ);
    let front = case_of(rt.alloc(), rows, lines_in(&case.input, taken))?;
    Ok(front.printed.as_bytes() == written)
}

/// Each read of a replay fails in turn, until none is left to fail.
fn check_reads<R: Abort + Threads + Wait + Sync + AllocGlobal>(
    rt: &R,
    words: &str,
    rows: &str,
    status: Status,
) -> Result<(), Fail> {
    let case = case_of(rt.alloc(), rows, 100)?;
    for call in 1..CALLS {
        let ended = gated_run(rt, words, &case.input, (READ, 64), (call, 0), &OpenGate)?;
        if ended.status != Status::ReadFault {
            assert!(rt; is_end(&ended, status, &case.printed), "{words} {call}");
            return Ok(());
        }
        assert!(rt;
            is_cut(rt, rows, &case, call, &ended.written)?,
            "{words} {call}"
        );
    }
    Err(Fail::from("a read that ends the input"))
}

/// Each write of a run fails in turn, and its flush: a front is written, which grows from one to
/// the next. So it is with a buffer before the sink.
fn check_writes<R: Abort + Threads + Wait + Sync + AllocGlobal>(
    rt: &R,
    words: &str,
    rows: &str,
    status: Status,
    buffered: bool,
) -> Result<(), Fail> {
    let case = case_of(rt.alloc(), rows, 100)?;
    let mut before = 0;
    for call in 1..CALLS {
        let ended = match buffered {
            true => buffered_run(rt, words, &case.input, (READ, 7), call)?,
            false => gated_run(rt, words, &case.input, (READ, 7), (0, call), &OpenGate)?,
        };
        if ended.status != Status::WriteFault {
            assert!(rt; is_end(&ended, status, &case.printed), "{words} {call}");
            return Ok(());
        }
        assert!(rt;
            case.printed.as_bytes().starts_with(&ended.written) && ended.written.len() >= before,
            "{words} {call}"
        );
        before = ended.written.len();
    }
    Err(Fail::from("a write that ends the output"))
}

#[test]
fn each_failed_read_of_a_replay_leaves_the_lines_before(rt: HostRuntime) -> Result<(), Fail> {
    for words in REPLAYS {
        check_reads(&rt, words, ENDPOINTS, Status::Done)?;
        check_reads(&rt, words, CLASHES, Status::LinesRefused)?;
    }
    Ok(())
}

#[test]
fn each_failed_write_of_a_replay_leaves_a_front(rt: HostRuntime) -> Result<(), Fail> {
    for words in REPLAYS {
        check_writes(&rt, words, ENDPOINTS, Status::Done, false)?;
        check_writes(&rt, words, CLASHES, Status::LinesRefused, false)?;
    }
    Ok(())
}

#[test]
fn each_failed_write_after_a_buffer_leaves_a_front(rt: HostRuntime) -> Result<(), Fail> {
    for words in REPLAYS {
        check_writes(&rt, words, ENDPOINTS, Status::Done, true)?;
    }
    check_writes(&rt, "kproxy live", LIVE, Status::LinesRefused, true)
}

/// Nothing is written before the input is read to its end, so that a live run whose read failed has
/// written nothing.
#[test]
fn each_failed_read_of_a_live_run_leaves_nothing(rt: HostRuntime) -> Result<(), Fail> {
    let (words, case) = ("kproxy live", case_of(rt.alloc(), LIVE, 100)?);
    for call in 1..CALLS {
        let ended = gated_run(&rt, words, &case.input, (READ, 64), (call, 0), &OpenGate)?;
        if ended.status != Status::ReadFault {
            assert!(rt;
                is_end(&ended, Status::LinesRefused, &case.printed),
                "{call}"
            );
            return Ok(());
        }
        assert!(rt; is_end(&ended, Status::ReadFault, ""), "{call}");
    }
    Err(Fail::from("a read that ends the input"))
}

#[test]
fn each_failed_write_of_a_live_run_leaves_a_front(rt: HostRuntime) -> Result<(), Fail> {
    check_writes(&rt, "kproxy live", LIVE, Status::LinesRefused, false)
}
