//! All lists, on shelves by their parts.
ghost use Rattle.std.specs.Prelude.{◌≡◌, ◌<◌, ◌≤◌, ◌==◌, ℕ, true, length, slice_get, replicate};
ghost use Rattle.std.specs.Prelude.{IfOk, IfSome, OnOk, OnErr, IsOk};
ghost use Rattle.std.specs.Int.NonZero.{non_zero_usize_get};
ghost use Rattle.std.specs.List.{list_any};
ghost use Rattle.kp_choice_defs.specs.Recent as spec;
ghost use Rattle.kp_choice_defs.specs.Recent.{is_of, reaped, set_at, shard_of, sightings};
ghost use Rattle.kp_part_laws.specs.Beside.{AreSized, united, worker_of};
ghost use Rattle.kp_part_laws.specs.Unseen.{kept_parts};
ghost use Rattle.kp_recent.specs.Held.{no_sources};
ghost use Rattle.kp_recent.specs.Shelves.{HasShelfOf, shelf_of};

use crate::marked::MarkedShelf;
use kp_base::{Address, Items, NoMemory};
use kp_types::ChainName;
use std::alloc::Global;
use std::marker::Model;
use std::mem::swap;
use std::num::NonZeroUsize;

/// How many parts a list has.
const PARTS: usize = 16;

/// The lists of sources that were seen of late, by the names of lists. Each is kept in sixteen
/// parts, by the lowest four bits of the source's address. The parts of a number stand on a shelf
/// of their own, so that they go from lists to others without memory.
#[derive(Drop)]
pub struct RecentLists {
    alloc: Global,
    /// How many sources a part remembers.
    size: NonZeroUsize,
    shelves: Vec<MarkedShelf>,
}

impl Model for RecentLists {
    ghost use Rattle.std.specs.Int.NonZero.{non_zero_usize_get};
    ghost use Rattle.kp_choice_defs.specs.Recent.{RecentParts};
    ghost use Rattle.kp_part_laws.specs.Beside.{united};
    ghost use Rattle.kp_recent.specs.Held.{parts_code};
    ghost use Rattle.kp_recent.specs.Shelves.{AreShelves, shelf_of};

    ghost Value = { RecentParts };

    ghost coded = { parts_code };

    ghost view = { λ r. united shelf_of (non_zero_usize_get r.size) r.shelves.items };

    ghost invariant = { λ r. AreShelves (non_zero_usize_get r.size) r.shelves.items };
}

impl RecentLists {
    /// Lists without a source, whose parts remember so many of them, 1 to 1,000. Only memory can
    /// be refused.
    pub fn new(alloc: Global, size: u32) -> Result<RecentLists, NoMemory>
        requires some { 0 < size }
        requires limit { size ≤ 1000 }
        ensures { IfOk result (λ r. r ≡ no_sources size) }
    {
        let size = NonZeroUsize::new(size as usize).unwrap_or(NonZeroUsize::MIN);
        RecentLists::of_size(alloc, size)
    }

    /// Lists of this size without a source.
    fn of_size(alloc: Global, size: NonZeroUsize) -> Result<RecentLists, NoMemory>
        ensures { IfOk result (λ r. r ≡ no_sources (non_zero_usize_get size)) }
    {
        Ok(RecentLists {
            alloc,
            size,
            shelves: shelves(alloc, size)?,
        })
    }

    /// Whether the source is in the list, with an age of at most so many seconds:
    /// `--rcheck --seconds`. A moment that lies ahead of `now` has age 0. Looking renews nothing.
    pub fn is_live(&self, list: &ChainName, source: &Address, now: u64, seconds: u32) -> bool
        ensures { result ≡ spec.is_live self.now list.now source.now now seconds }
    {
        self.shelves[shelf_at(source)].is_live(list, source, now, seconds)
    }

    /// Sets the source in the list at this moment, in seconds, as the most recent one of its part:
    /// `--set`. A full part loses its least recently set source. Without memory nothing changes,
    /// and a source that is there takes none.
    pub fn set(&mut self, list: &ChainName, source: &Address, now: u64) -> Result<(), NoMemory>
        ensures ok { OnOk result (self.new ≡ set_at self.old list.now source.now now) }
        ensures err { OnErr result (self.new ≡ self.old) }
        ensures known { list_any (is_of source.now)
            (sightings self.old (shard_of list.now source.now)) ≡ true
            → IsOk result }
    {
        self.shelves[shelf_at(source)].set(list, source, now)
    }

    /// Whether the source is in the list, with an age of at most so many seconds, as a match of
    /// `--rcheck --seconds --reap` tells it. Sources of greater age are dropped from the part of
    /// the list that this source is in. It needs no memory, but may take some for marks.
    pub fn look(&mut self, list: &ChainName, source: &Address, now: u64, seconds: u32) -> bool
        ensures live { result ≡ spec.is_live self.old list.now source.now now seconds }
        ensures lists { self.new ≡ reaped self.old list.now source.now now seconds }
    {
        self.shelves[shelf_at(source)].look(list, source, now, seconds)
    }

    /// Drops the sources of an age of more than so many seconds from the part of the list that
    /// this source is in: `--reap`. It needs no memory, but may take some for marks.
    pub fn reap(&mut self, list: &ChainName, source: &Address, now: u64, seconds: u32)
        ensures { self.new ≡ reaped self.old list.now source.now now seconds }
    {
        self.look(list, source, now, seconds);
    }

    /// Sixteen lists of this size, each with one part, and none is left. Without memory nothing
    /// changes.
    pub fn split(&mut self) -> Result<Items<RecentLists>, NoMemory>
        ensures count { IfOk result (λ values. length values ≡ 16) }
        ensures parts { IfOk result (λ values. (w : ℕ) → IfSome (slice_get values w)
            (λ value. value ≡ kept_parts (λ part. worker_of 16 part == w) self.old)) }
        ensures rest { OnOk result (self.new ≡ no_sources self.old.size) }
        ensures err { OnErr result (self.new ≡ self.old) }
    {
        self.split_among(PARTS)
    }

    /// Lists of this size for so many workers, each with the parts of its worker, and none is left.
    /// Without memory nothing changes.
    pub fn split_among(&mut self, count: usize) -> Result<Items<RecentLists>, NoMemory>
        requires some { 0 < count }
        ensures count { IfOk result (λ values. length values ≡ count) }
        ensures parts { IfOk result (λ values. (w : ℕ) → IfSome (slice_get values w)
            (λ value. value ≡ kept_parts (λ part. worker_of count part == w) self.old)) }
        ensures rest { OnOk result (self.new ≡ no_sources self.old.size) }
        ensures err { OnErr result (self.new ≡ self.old) }
    {
        let mut values = empty_lists(self.alloc, self.size, count)?;
        for part in 0..PARTS {
            self.swap_shelf(&mut values[part % count], part);
        }
        Ok(Items::from_vec(values))
    }

    /// The lists that these have together, where none stood before: of each the parts of its
    /// worker. It takes no memory.
    pub fn unite(&mut self, values: Items<RecentLists>)
        requires none { self.old ≡ no_sources self.old.size }
        requires some { 0 < length values }
        requires sized { AreSized self.old.size values }
        ensures { self.new ≡ united (worker_of (length values)) self.old.size values }
    {
        let mut values = values.into_vec();
        let count = values.len();
        for part in 0..PARTS {
            self.swap_shelf(&mut values[part % count], part);
        }
    }

    /// Swaps a shelf with that of other lists.
    fn swap_shelf(&mut self, other: &mut RecentLists, part: usize)
        requires part { part < 16 }
        requires size { other.old.size ≡ self.old.size }
        ensures own { HasShelfOf part other.old self.old self.new }
        ensures other { HasShelfOf part self.old other.old other.new }
    {
        swap(&mut self.shelves[part], &mut other.shelves[part]);
    }
}

/// The shelf of a source's part.
fn shelf_at(source: &Address) -> usize
    ensures value { result ≡ shelf_of source.now.number }
    ensures low { result < 16 }
{
    (source.number() % 16) as usize
}

/// Sixteen shelves without a source.
fn shelves(alloc: Global, size: NonZeroUsize) -> Result<Vec<MarkedShelf>, NoMemory>
    ensures { IfOk result
        (λ shelves. shelves.items ≡ replicate 16 (no_sources (non_zero_usize_get size))) }
{
    let mut shelves = Vec::new(alloc);
    for _part in 0..PARTS {
        shelves.push(MarkedShelf::new(alloc, size))?;
    }
    Ok(shelves)
}

/// So many lists without a source.
fn empty_lists(
    alloc: Global,
    size: NonZeroUsize,
    count: usize,
) -> Result<Vec<RecentLists>, NoMemory>
    ensures { IfOk result
        (λ lists. lists.items ≡ replicate count (no_sources (non_zero_usize_get size))) }
{
    let mut lists = Vec::new(alloc);
    for _place in 0..count {
        lists.push(RecentLists::of_size(alloc, size)?)?;
    }
    Ok(lists)
}
