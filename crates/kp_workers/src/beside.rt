//! Workers beside each other.
ghost use Rattle.std.specs.Prelude.{◌≡◌, ◌<◌, ◌++◌, List, ℕ, IfOk, OnErr, OnOk, length, map};
ghost use Rattle.std.specs.List.{concat};
ghost use Rattle.kp_part_laws.specs.Beside.{IsInPart, in_turn, one_by_one};
ghost use Rattle.kp_workers.specs.Texts.{AreKept, BeginsWith, left_in};
ghost use Rattle.kp_part_laws.specs.Beside as spec;
ghost use Rattle.kp_workers.specs.Workers.{EachHasDone, EachKeepsSize, NoneRefused};
ghost use Rattle.kp_workers.specs.Workers.{done_own, kept_of};

use crate::part_lists::PartLists;
use crate::texts::TextsOn;
use crate::work::Work;
use crate::worker::{Place, Worker, worker_of};
use kp_base::NoMemory;
use kp_gate::{Gate, OpenGate};
use std::alloc::Global;
use std::thread;
use std::thread::Threads;

/// Adds what items are answered, which is what they are answered one after the other. Each worker
/// does its own in a thread of its own, and passes the gate around each; one worker alone takes no
/// thread and passes no gate. Without memory the lists may be anything of their size, and some of
/// the answers may be added.
pub fn answer_all<T: Sync, W: Work<T> + Sync, R: Threads + Sync, G: Gate<R> + Sync>(
    rt: &R,
    alloc: Global,
    gate: &G,
    work: &W,
    items: &[T],
    lists: &mut PartLists,
    out: &mut Vec<u8>,
) -> Result<(), NoMemory>
    requires local { (item : T) → IsInPart (W.part work.now item) (W.step work.now item) }
    ensures text { OnOk result (out.new.items ≡ out.old.items
        ++ concat (one_by_one (W.step work.now) items.now lists.old).0) }
    ensures lists { OnOk result
        (lists.new ≡ (one_by_one (W.step work.now) items.now lists.old).1) }
    ensures size { lists.new.size ≡ lists.old.size }
    ensures front { OnErr result (BeginsWith out.new.items out.old.items) }
{
    run_all(rt, gate, work, items, &mut lists.workers);
    push_in_turn(alloc, work, items, lists.workers.as_slice(), out)
}

/// Runs all workers. One alone passes no gate.
fn run_all<T: Sync, W: Work<T> + Sync, R: Threads + Sync, G: Gate<R> + Sync>(
    rt: &R,
    gate: &G,
    work: &W,
    items: &[T],
    workers: &mut Vec<Worker>,
)
    ensures long { length workers.new.items ≡ length workers.old.items }
    ensures done { EachHasDone (done_own
        (λ x. spec.worker_of (length workers.old.items) (W.part work.now x)) (W.step work.now)
        items.now) workers.old.items workers.new.items }
    ensures sizes { EachKeepsSize (λ w. w.lists) workers.old.items workers.new.items }
{
    if workers.len() == 1 {
        run_beside(rt, &OpenGate, work, items, workers.as_mut_slice());
    } else {
        run_beside(rt, gate, work, items, workers.as_mut_slice());
    }
}

/// Runs workers, each in a thread of its own, of which this one is one.
fn run_beside<T: Sync, W: Work<T> + Sync, R: Threads + Sync, G: Gate<R> + Sync>(
    rt: &R,
    gate: &G,
    work: &W,
    items: &[T],
    workers: &mut [Worker],
)
    ensures long { length workers.new ≡ length workers.old }
    ensures done { EachHasDone (done_own
        (λ x. spec.worker_of (length workers.old) (W.part work.now x)) (W.step work.now)
        items.now) workers.old workers.new }
    ensures sizes { EachKeepsSize (λ w. w.lists) workers.old workers.new }
{
    let count = workers.len();
    if count == 0 {
        return;
    }
    thread::for_each_mut(
        rt,
        workers,
        count,
        &|own: usize, worker: &mut Worker| {
            worker.run(rt, gate, work, items, Place { own, count })
        },
    );
}

/// Adds what workers answered, in the order of items.
fn push_in_turn<T, W: Work<T>>(
    alloc: Global,
    work: &W,
    items: &[T],
    workers: &[Worker],
    out: &mut Vec<u8>,
) -> Result<(), NoMemory>
    requires some { 0 < length workers.now }
    ensures none { OnOk result (NoneRefused workers.now) }
    ensures told { OnOk result ((told : List (List (List ℕ))) → AreKept (kept_of workers.now) told
        → out.new.items ≡ out.old.items ++ concat (in_turn
        (λ x. spec.worker_of (length workers.now) (W.part work.now x)) items.now told)) }
    ensures front { OnErr result (BeginsWith out.new.items out.old.items) }
{
    let mut tellers = tellers_of(alloc, workers)?;
    for item in items {
        let place = worker_of(workers.len(), work.part(item));
        out.extend_from_slice(tellers[place].next())?;
    }
    Ok(())
}

/// What each of the workers tells, unless memory was refused to one of them.
fn tellers_of<'a>(alloc: Global, workers: &'a [Worker]) -> Result<Vec<TextsOn<'a>>, NoMemory>
    ensures none { OnOk result (NoneRefused workers.now) }
    ensures kept { IfOk result (λ tellers. map left_in tellers.items ≡ kept_of workers.now) }
{
    let mut tellers = Vec::new(alloc);
    for worker in workers {
        match worker.refused {
            Some(refused) => return Err(refused),
            None => {}
        }
        tellers.push(worker.texts.unfold())?;
    }
    Ok(tellers)
}
