//! What gates hold, in threads.
use kp_base::Items;
use kp_gate::{Gate, Hold, HoldGate, OpenGate, Until};
use std::alloc::Global;
use std::process::Abort;
use std::sync::atomic::{AtomicU32, Ordering};
use std::test::Fail;
use std::thread;
use std::thread::Threads;

/// For how many turns a hold looks for what it waits for.
pub(crate) const TURNS: u64 = 1_000_000;

/// The first call of a worker is held until that of another one has come so far.
fn hold(worker: u32, until: Until, other_worker: u32) -> Hold {
    Hold {
        worker,
        call: 1,
        until,
        other_worker,
        other_call: 1,
    }
}

/// A gate with these holds.
pub(crate) fn gate_of(alloc: Global, holds: &[Hold], turns: u64) -> Result<HoldGate, Fail> {
    let holds = Items::from_vec(Vec::from_slice(alloc, holds)?);
    Ok(HoldGate::new(alloc, holds, turns)?)
}

/// The first call of a worker: its place, from 0, among the calls that have passed.
fn first_call<R, G: Gate<R>>(rt: &R, gate: &G, worker: u32, passed: &AtomicU32) -> u32 {
    gate.arrive(rt, worker, 1);
    let place = passed.fetch_add(1, Ordering::SeqCst);
    gate.leave(rt, worker, 1);
    place
}

/// The places of the first calls of workers 0 and 1, side by side.
fn first_calls<R: Threads + Sync, G: Gate<R> + Sync>(rt: &R, gate: &G) -> (u32, u32) {
    let passed = AtomicU32::new(0);
    thread::join(
        rt,
        || first_call(rt, gate, 0, &passed),
        || first_call(rt, gate, 1, &passed),
    )
}

#[test]
fn calls_wait_for_each_other(rt: HostRuntime) -> Result<(), Fail> {
    let holds = [hold(0, Until::Arrived, 1), hold(1, Until::Arrived, 0)];
    let gate = gate_of(rt.alloc(), &holds, TURNS)?;
    let (first, second) = first_calls(&rt, &gate);
    assert!(rt; first != second && !gate.ran_out());
    Ok(())
}

#[test]
fn a_call_waits_until_another_has_left(rt: HostRuntime) -> Result<(), Fail> {
    let gate = gate_of(rt.alloc(), &[hold(0, Until::Left, 1)], TURNS)?;
    assert!(rt; first_calls(&rt, &gate) == (1, 0) && !gate.ran_out());
    Ok(())
}

/// Passes the calls of workers whose digits stand in a text: `+` before a digit is the arrival of
/// its next call, `-` its leaving. Whether a hold has run out of its turns.
fn runs_out<R>(rt: &R, gate: &HoldGate, calls: &str) -> bool {
    let mut arrives = true;
    let mut first = 0u64;
    for byte in calls.bytes() {
        match byte {
            b'+' => arrives = true,
            b'-' => arrives = false,
            b'0' if arrives => {
                first = first.saturating_add(1);
                gate.arrive(rt, 0, first);
            }
            b'0' => gate.leave(rt, 0, first),
            _ if arrives => gate.arrive(rt, 1, 1),
            _ => gate.leave(rt, 1, 1),
        }
    }
    gate.ran_out()
}

/// Passes calls through a gate with these holds, of few turns each.
fn check_holds<R: Abort + AllocGlobal>(
    rt: &R,
    holds: &[Hold],
    calls: &str,
    out: bool,
) -> Result<(), Fail> {
    let gate = gate_of(rt.alloc(), holds, 10)?;
    assert!(rt; runs_out(rt, &gate, calls) == out, "{calls}");
    Ok(())
}

#[test]
fn a_hold_ends_by_its_turns(rt: HostRuntime) -> Result<(), Fail> {
    let arrived = hold(0, Until::Arrived, 1);
    let left = hold(0, Until::Left, 1);
    // the other call has come, or comes too late
    check_holds(&rt, &[arrived], "+1+0", false)?;
    check_holds(&rt, &[arrived], "+0+1", true)?;
    check_holds(&rt, &[left], "+1-1+0", false)?;
    // it has arrived and not left
    check_holds(&rt, &[left], "+1+0-1", true)?;
    // of two holds of one call the second waits in vain
    check_holds(&rt, &[arrived, left], "+1+0", true)?;
    // a hold is of one call of its worker
    let second = Hold { call: 2, ..left };
    check_holds(&rt, &[second], "+0-0", false)?;
    check_holds(&rt, &[second], "+0-0+0", true)?;
    // and waits for one call of the other
    let other = Hold {
        other_call: 2,
        ..left
    };
    check_holds(&rt, &[other], "+1-1+0", true)?;
    Ok(())
}

#[test]
fn an_open_gate_holds_nobody(rt: HostRuntime) -> Result<(), Fail> {
    let passed = AtomicU32::new(0);
    assert!(rt; first_call(&rt, &OpenGate, 0, &passed) == 0);
    assert!(rt; first_call(&rt, &OpenGate, 1, &passed) == 1);
    Ok(())
}
