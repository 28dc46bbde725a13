//! Workers of a replay: they wait for each other at a gate, and reads and writes fail between groups.
use crate::ends::{Ended, gated_run, is_end, sure_run};
use crate::faults::lines_in;
use crate::inputs::{Case, ENDPOINTS, case_of};
use crate::lines::push_line;
use crate::live::counting_gate;
use kp_gate::{Gate, OpenGate};
use kp_print::push_number;
use kp_run::Status;
use std::alloc::Global;
use std::sync::Wait;
use std::sync::atomic::{AtomicU32, Ordering};
use std::test::Fail;
use std::thread::Threads;

/// How many bytes a read gives at most: more than two groups need, and no whole number of lines.
const READ: u64 = 48_001;

/// More calls than a run of these inputs makes.
const CALLS: u64 = 100;

/// A gate that counts what passes it.
#[derive(Drop)]
struct Passages {
    count: AtomicU32,
}

impl Passages {
    fn any(&self) -> bool {
        self.count.load(Ordering::SeqCst) > 0
    }
}

impl<R> Gate<R> for Passages {
    fn arrive(&self, _rt: &R, _worker: u32, _call: u64) {
        self.count.fetch_add(1, Ordering::SeqCst);
    }

    fn leave(&self, _rt: &R, _worker: u32, _call: u64) {
        self.count.fetch_add(1, Ordering::SeqCst);
    }
}

/// Adds a packet whose source is in one of five parts of the recent lists.
fn push_packet(script: &mut String, number: u64) -> Result<(), Fail> {
    script.push_str(r#"{"op":"packet","src":"10.244.9."#)?;
    push_number(script, number % 5)?;
    push_line(script, r#"","dst":"10.96.0.10","dport":80,"draws":[0]}"#)?;
    Ok(())
}

/// The lines of a Service's objects, a sync and 1,800 packets.
const LINES: u64 = 1804;

/// The first of these lines, so many, with what they print.
fn packets_up_to(alloc: Global, most: u64) -> Result<Case, Fail> {
    let mut case = case_of(alloc, ENDPOINTS, most.min(4))?;
    for number in 5..most.min(LINES).saturating_add(1) {
        push_packet(&mut case.input, number)?;
        case.printed.push_str("packet ")?;
        push_number(&mut case.printed, number)?;
        push_line(&mut case.printed, " at 1: to 10.244.1.2:8080")?;
    }
    Ok(case)
}

/// A replay by four workers of so many bytes a read, of which a read and a write fail, and whether
/// it passed the gate: its groups were answered beside each other.
fn grouped_run<R: Threads + Wait + Sync + AllocGlobal>(
    rt: &R,
    input: &str,
    calls: (u64, u64),
) -> Result<(Ended, bool), Fail> {
    let gate = Passages {
        count: AtomicU32::new(0),
    };
    let words = "kproxy replay --workers=4";
    let ended = gated_run(rt, words, input, (READ, 4096), calls, &gate)?;
    Ok((ended, gate.any()))
}

/// Each read fails in turn: exactly the text of the lines that were read to their ends is written.
#[test]
fn a_failed_read_leaves_the_groups_before(rt: HostRuntime) -> Result<(), Fail> {
    let case = packets_up_to(rt.alloc(), LINES)?;
    for call in 1..CALLS {
        let (ended, grouped) = grouped_run(&rt, &case.input, (call, 0))?;
        assert!(rt; grouped == (call > 1), "{call}");
        if ended.status != Status::ReadFault {
            assert!(rt; is_end(&ended, Status::Done, &case.printed), "{call}");
            return Ok(());
        }
        let read = call.saturating_sub(1).saturating_mul(READ);
        let front = packets_up_to(rt.alloc(), lines_in(&case.input, read))?;
        assert!(rt;
            ended.written.as_slice() == front.printed.as_bytes(),
            "{call}"
        );
    }
    Err(Fail::from("a read that ends the input"))
}

/// Each write fails in turn, and the flush: a front is written, which grows from one to the next.
#[test]
fn a_failed_write_leaves_a_front_of_the_groups(rt: HostRuntime) -> Result<(), Fail> {
    let case = packets_up_to(rt.alloc(), LINES)?;
    let mut before = 0;
    for call in 1..CALLS {
        let (ended, grouped) = grouped_run(&rt, &case.input, (0, call))?;
        assert!(rt; grouped == (call > 1), "{call}");
        if ended.status != Status::WriteFault {
            assert!(rt; is_end(&ended, Status::Done, &case.printed), "{call}");
            return Ok(());
        }
        assert!(rt;
            case.printed.as_bytes().starts_with(&ended.written) && ended.written.len() >= before,
            "{call}"
        );
        before = ended.written.len();
    }
    Err(Fail::from("a write that ends the output"))
}

/// A configuration, and packets of two sources in turn, so many of each. The sources are of two
/// workers.
fn packets_in_turn(alloc: Global, count: u64) -> Result<String, Fail> {
    let mut script = String::new(alloc);
    push_line(
        &mut script,
        r#"{"op":"config","node":"n1","nodeAddresses":["10.0.0.1"]}"#,
    )?;
    for _ in 0..count {
        for source in ["10.1.0.16", "10.1.0.17"] {
            script.push_str(r#"{"op":"packet","src":""#)?;
            script.push_str(source)?;
            push_line(&mut script, r#"","dst":"10.96.0.10","dport":80}"#)?;
        }
    }
    Ok(script)
}

/// The first packet of each worker is held until that of the other one has come: with one thread
/// for both, one of them would run out of turns. Each packet passes the gate.
#[test]
fn workers_answer_beside_each_other(rt: HostRuntime) -> Result<(), Fail> {
    let script = packets_in_turn(rt.alloc(), 500)?;
    let one = sure_run(&rt, "kproxy replay", &script, 1_048_576, &OpenGate)?;
    let gate = counting_gate(rt.alloc(), "a1+b1 b1+a1")?;
    let two = sure_run(&rt, "kproxy replay --workers=2", &script, 1_048_576, &gate)?;
    assert!(rt; one.status == Status::Done && two.status == Status::Done);
    assert!(rt; one.written.as_slice() == two.written.as_slice());
    assert!(rt; gate.has_passed((500, 500)));
    Ok(())
}
