//! What one worker does.
ghost use Rattle.std.specs.Prelude.{◌≡◌, ◌<◌, ◌∷◌, [], None, OnOk};
ghost use Rattle.kp_part_laws.specs.Beside as spec;
ghost use Rattle.kp_workers.specs.Workers.{GoesOn, HasDone, done_own};

use crate::texts::Texts;
use crate::work::Work;
use kp_base::NoMemory;
use kp_gate::Gate;
use kp_recent::RecentLists;
use std::alloc::Global;

/// A worker: its recent lists, what its items were answered, how many they were, and what memory
/// was refused, if any.
#[derive(Drop)]
pub(crate) struct Worker {
    pub(crate) lists: RecentLists,
    pub(crate) texts: Texts,
    calls: u64,
    pub(crate) refused: Option<NoMemory>,
}

/// Which of the workers it is, and how many they are.
#[derive(Clone, Copy)]
pub(crate) struct Place {
    pub(crate) own: usize,
    pub(crate) count: usize,
}

impl Worker {
    /// A worker with these lists.
    pub(crate) fn new(alloc: Global, lists: RecentLists) -> Worker
        ensures { result.lists ≡ lists }
    {
        Worker {
            lists,
            texts: Texts::new(alloc),
            calls: 0,
            refused: None,
        }
    }

    /// Does the items that are its own, one after the other, until memory runs out.
    pub(crate) fn run<T, W: Work<T>, R, G: Gate<R>>(
        &mut self,
        rt: &R,
        gate: &G,
        work: &W,
        items: &[T],
        place: Place,
    )
        requires count { 0 < place.count }
        ensures done { self.new.refused ≡ None → HasDone
            (done_own (λ x. spec.worker_of place.count (W.part work.now x)) (W.step work.now)
            items.now place.own self.old.lists) self.new }
        ensures size { self.new.lists.size ≡ self.old.lists.size }
    {
        self.texts.clear();
        self.calls = 0;
        self.refused = take_own(rt, gate, work, items, place, self).err();
    }

    /// Does an item between the two calls of the gate.
    fn take<T, W: Work<T>, R, G: Gate<R>>(
        &mut self,
        rt: &R,
        gate: &G,
        work: &W,
        item: &T,
        own: usize,
    ) -> Result<(), NoMemory>
        ensures done { OnOk result (GoesOn (
          (W.step work.now item.now self.old.lists).0 ∷ [],
          (W.step work.now item.now self.old.lists).1,
        ) self.old self.new) }
        ensures size { self.new.lists.size ≡ self.old.lists.size }
    {
        let place = u32::try_from(own).unwrap_or(u32::MAX);
        self.calls = self.calls.saturating_add(1);
        gate.arrive(rt, place, self.calls);
        let added = self.texts.add(work, item, &mut self.lists);
        gate.leave(rt, place, self.calls);
        added
    }
}

/// Does the items of a worker, one after the other.
fn take_own<T, W: Work<T>, R, G: Gate<R>>(
    rt: &R,
    gate: &G,
    work: &W,
    items: &[T],
    place: Place,
    worker: &mut Worker,
) -> Result<(), NoMemory>
    requires count { 0 < place.count }
    ensures done { OnOk result (GoesOn
        (done_own (λ x. spec.worker_of place.count (W.part work.now x)) (W.step work.now)
        items.now place.own worker.old.lists) worker.old worker.new) }
    ensures size { worker.new.lists.size ≡ worker.old.lists.size }
{
    for item in items {
        let owner = worker_of(place.count, work.part(item));
        if owner != place.own {
            continue;
        }
        worker.take(rt, gate, work, item, place.own)?;
    }
    Ok(())
}

/// Of so many workers the one who has a part.
pub(crate) fn worker_of(workers: usize, part: usize) -> usize
    requires { 0 < workers }
    ensures { result ≡ spec.worker_of workers part }
{
    part % 16 % workers
}
