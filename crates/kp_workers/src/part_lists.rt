//! Recent lists that workers share out.
ghost use Rattle.std.specs.Prelude.{◌≡◌, ◌<◌, ◌≤◌, ◌%◌, IfOk};
ghost use Rattle.kp_recent.specs.Held.{no_sources};
ghost use Rattle.kp_workers.specs.Workers.{SeesAs};

use crate::worker::{Worker, worker_of};
use kp_base::{Address, NoMemory};
use kp_recent::RecentLists;
use std::alloc::Global;
use std::marker::Model;

/// Recent lists that some workers share: of W workers the w-th has the parts i with i mod W = w.
/// Contracts see what they have together.
#[derive(Drop)]
pub struct PartLists {
    pub(crate) workers: Vec<Worker>,
}

impl Model for PartLists {
    ghost use Rattle.kp_choice_defs.specs.Recent.{RecentParts};
    ghost use Rattle.kp_recent.specs.Held.{parts_code};
    ghost use Rattle.kp_workers.specs.Workers.{AreLike, lists_of, together};

    ghost Value = { RecentParts };

    ghost coded = { parts_code };

    ghost view = { λ p. together (lists_of p.workers.items) };

    ghost invariant = { λ p. AreLike (lists_of p.workers.items) };
}

impl PartLists {
    /// Lists without a source, whose parts remember so many of them, 1 to 1,000, for so many
    /// workers.
    pub fn new(alloc: Global, size: u32, workers: usize) -> Result<PartLists, NoMemory>
        requires some { 0 < size }
        requires limit { size ≤ 1000 }
        requires workers { 0 < workers }
        ensures { IfOk result (λ lists. lists ≡ no_sources size) }
    {
        let mut all = Vec::new(alloc);
        for _worker in 0..workers {
            all.push(Worker::new(alloc, RecentLists::new(alloc, size)?))?;
        }
        Ok(PartLists { workers: all })
    }

    /// How many workers share them.
    pub fn workers(&self) -> usize
        ensures { 0 < result }
    {
        self.workers.len()
    }

    /// The lists of the worker who has the part of this source: a packet of the source can't tell
    /// them from all.
    pub fn own(&self, source: &Address) -> &RecentLists
        ensures { SeesAs source.now result.now self.now }
    {
        &self.workers[worker_of(self.workers.len(), part_of(source))].lists
    }
}

/// The part of recent lists that a source is in, by its lowest four bits.
pub fn part_of(source: &Address) -> usize
    ensures { result ≡ source.now.number % 16 }
{
    (source.number() % 16) as usize
}
