//! Packets beside a sync that waits, which no clause tells.
ghost use Rattle.std.specs.Prelude.{◌≡◌};
ghost use Rattle.kp_hub.specs.State.{first_table};

use crate::gates::TURNS;
use crate::lines::{config_of, op_of, whole_script};
use kp_base::Items;
use kp_hub::{Hub, Opening, Reader, Sharing, WorkerPass};
use kp_recent::RecentLists;
use kp_script::{Op, PacketLine};
use std::alloc::Global;
use std::marker::Brand;
use std::sync::Wait;
use std::sync::atomic::{AtomicBool, Ordering};
use std::sync::ledger::Ledger;
use std::test::Fail;
use std::thread;
use std::thread::Threads;

/// How far the threads have come: a reader is inside, the sync that waits for it begins, and the
/// packets are answered.
#[derive(Drop)]
struct Marks {
    entered: AtomicBool,
    begun: AtomicBool,
    answered: AtomicBool,
}

/// Looks and yields until a mark is set, for so many turns at most, and tells whether it was.
fn comes(mark: &AtomicBool) -> bool {
    for _ in 0..TURNS {
        if mark.load(Ordering::SeqCst) {
            return true;
        }
        thread::yield_now();
    }
    false
}

/// Stays inside until the packets are answered, and tells whether they were in time.
fn stay<J: Sharing, R: Wait>(rt: &R, reader: Reader<J>, marks: &Marks) -> bool {
    let view = reader.enter(rt);
    marks.entered.store(true, Ordering::SeqCst);
    let in_time = comes(&marks.answered);
    let _reader = view.leave();
    in_time
}

/// Syncs twice once a reader is inside. The second sync waits for it under the lock.
fn sync<J: Sharing, A: Ledger, C: Ledger, R: Wait>(
    rt: &R,
    alloc: Global,
    hub: &Hub<J, A, C>,
    pass: &mut WorkerPass<J, A, C>,
    marks: &Marks,
) -> bool {
    let in_time = comes(&marks.entered);
    let first = hub.sync(rt, alloc, pass).is_ok();
    marks.begun.store(true, Ordering::SeqCst);
    let second = hub.sync(rt, alloc, pass).is_ok();
    in_time && first && second
}

/// Sends packets once the second sync begins, and says when all are answered.
fn send<J: Sharing, A: Ledger, C: Ledger, R: Wait>(
    rt: &R,
    alloc: Global,
    pass: &mut WorkerPass<J, A, C>,
    line: &PacketLine,
    marks: &Marks,
) -> bool {
    let Ok(mut lists) = RecentLists::new(alloc, 100) else {
        return false;
    };
    let mut text = String::new(alloc);
    let in_time = comes(&marks.begun);
    for _ in 0..1000u64 {
        thread::yield_now();
        if Hub::<J, A, C>::verdict_of(rt, pass, 1, line, &mut lists).is_err()
            || Hub::<J, A, C>::walk(rt, pass, 1, line, &mut lists, &mut text).is_err()
        {
            return false;
        }
    }
    marks.answered.store(true, Ordering::SeqCst);
    in_time
}

/// Sends packets while a reader stays inside: whether both were in time.
fn send_beside<
    J: Sharing + Send + Sync,
    A: Ledger + Send + Sync,
    C: Ledger + Send + Sync,
    R: Threads + Wait + Sync,
>(
    rt: &R,
    alloc: Global,
    reader: Reader<J>,
    sends: &mut WorkerPass<J, A, C>,
    line: &PacketLine,
    marks: &Marks,
) -> bool {
    let (sent, stayed) = thread::join(
        rt,
        || send(rt, alloc, sends, line, marks),
        move || { stay(rt, reader, marks) },
    );
    sent && stayed
}

/// Whether the packets of one worker are answered while another one's sync waits for a reader.
fn answers_beside<
    J: Sharing + Send + Sync,
    A: Ledger + Send + Sync,
    C: Ledger + Send + Sync,
    R: Threads + Wait + Sync,
>(
    rt: &R,
    alloc: Global,
    hub: &Hub<J, A, C>,
    reader: Reader<J>,
    syncs: &mut WorkerPass<J, A, C>,
    sends: &mut WorkerPass<J, A, C>,
    line: &PacketLine,
) -> bool {
    let marks = Marks {
        entered: AtomicBool::new(false),
        begun: AtomicBool::new(false),
        answered: AtomicBool::new(false),
    };
    let marks = &marks;
    let (synced, answered) = thread::join(
        rt,
        || sync(rt, alloc, hub, syncs, marks),
        move || { send_beside(rt, alloc, reader, sends, line, marks) },
    );
    synced && answered
}

/// The same of a new hub.
fn hub_answers_beside<
    J: Sharing + Send + Sync,
    A: Ledger + Send + Sync,
    C: Ledger + Send + Sync,
    R: Threads + Wait + Sync,
>(rt: &R, alloc: Global, opening: Opening, line: &PacketLine) -> Result<bool, Fail>
    requires config { opening.config ≡ J.config }
    requires book { opening.book ≡ J.book }
    requires queue { opening.queue ≡ J.queue }
    requires streams { opening.streams ≡ J.streams }
    requires start { J.start ≡ first_table J.config }
    requires accepted { opening.accepted ≡ (A.name, A.parts) }
    requires refused { opening.refused ≡ (C.name, C.parts) }
{
    let (hub, feeders, workers) = Hub::<J, A, C>::new(rt, alloc, opening)?;
    let mut workers = workers.into_vec();
    let beside = match (workers.pop(), workers.pop(), workers.pop()) {
        (Some(reads), Some(mut syncs), Some(mut sends)) => {
            let reader = reads.into_reader();
            answers_beside(rt, alloc, &hub, reader, &mut syncs, &mut sends, line)
        }
        _ => false,
    };
    let mut none = Vec::new(alloc);
    hub.finish(rt, alloc, feeders, none.as_mut_slice())?.end(rt);
    Ok(beside)
}

#[test]
fn packets_wait_for_no_sync(rt: HostRuntime) -> Result<(), Fail> {
    let alloc = rt.alloc();
    let config = config_of(alloc, r#"{"op":"config","node":"n1"}"#)?;
    let line = whole_script(alloc, "{@packet:80}")?;
    let Op::Packet(line) = op_of(alloc, 1, &line)? else {
        return Err(Fail::from("a packet"));
    };
    let opening = Opening::new(alloc, config, 3)?;
    let beside = hub_answers_beside::<Brand, Brand, Brand, _>(&rt, alloc, opening, &line)?;
    assert!(rt; beside);
    Ok(())
}
