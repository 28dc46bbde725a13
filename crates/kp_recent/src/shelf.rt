//! Parts of lists, by the names of lists, as the recent match of iptables-extensions keeps them.
ghost use Rattle.std.specs.Prelude.{◌≡◌, true, OnOk, OnErr, IsOk};
ghost use Rattle.std.specs.Int.NonZero.{non_zero_usize_get};
ghost use Rattle.std.specs.List.{list_any};
ghost use Rattle.kp_choice_defs.specs.Recent as spec;
ghost use Rattle.kp_choice_defs.specs.Recent.{Shard, is_of, reaped, set_at, shard_of, sightings};
ghost use Rattle.kp_recent.specs.Held.{no_sources};
ghost use Rattle.kp_recent.specs.Marked.{AreMarked};

use crate::key::ListPart;
use crate::marks::Marks;
use crate::part::Part;
use indexmap::IndexMap;
use kp_base::{Address, NoMemory};
use kp_types::ChainName;
use std::alloc::Global;
use std::marker::Model;
use std::num::NonZeroUsize;

/// Parts of the lists of sources that were seen of late, by the names of lists. A part without a
/// source isn't held.
#[derive(Drop)]
pub struct Shelf {
    alloc: Global,
    /// How many sources a part remembers.
    size: NonZeroUsize,
    parts: IndexMap<ListPart, Part>,
}

impl Model for Shelf {
    ghost use Rattle.std.specs.Prelude.{map};
    ghost use Rattle.std.specs.FinMap.{from_entries};
    ghost use Rattle.std.specs.Int.NonZero.{non_zero_usize_get};
    ghost use Rattle.kp_choice_defs.specs.Recent.{RecentParts};
    ghost use Rattle.kp_recent.specs.Held.{parts_code, shown, IsHeld};

    ghost Value = { RecentParts };

    ghost coded = { parts_code };

    ghost view = { λ r. record {
      size = non_zero_usize_get r.size;
      parts = from_entries (map shown r.parts.entries);
    } };

    ghost invariant = { λ r. IsHeld (non_zero_usize_get r.size) r.parts.entries };
}

impl Shelf {
    /// None, for parts that remember so many sources.
    pub fn new(alloc: Global, size: NonZeroUsize) -> Shelf
        ensures { result ≡ no_sources (non_zero_usize_get size) }
    {
        Shelf {
            alloc,
            size,
            parts: IndexMap::new(alloc),
        }
    }

    /// Whether the source is in the list, with an age of at most so many seconds:
    /// `--rcheck --seconds`. A moment that lies ahead of `now` has age 0. Looking renews nothing.
    pub fn is_live(&self, list: &ChainName, source: &Address, now: u64, seconds: u32) -> bool
        ensures { result ≡ spec.is_live self.now list.now source.now now seconds }
    {
        match self.parts.get(&ListPart::of(list, source)) {
            Some(part) => part.is_live(source, now, seconds),
            None => false,
        }
    }

    /// Sets the source in the list at this moment, in seconds, as the most recent one of its part:
    /// `--set`. A full part loses its least recently set source. Without memory nothing changes,
    /// and a source that is there takes none.
    pub fn set(&mut self, list: &ChainName, source: &Address, now: u64) -> Result<(), NoMemory>
        ensures ok { OnOk result (self.new ≡ set_at self.old list.now source.now now) }
        ensures err { OnErr result (self.new ≡ self.old) }
        ensures known { list_any (is_of source.now)
            (sightings self.old (shard_of list.now source.now)) ≡ true
            → IsOk result }
    {
        let key = ListPart::of(list, source);
        if let Some(part) = self.parts.get_mut(&key) {
            return part.set(*source, now);
        }
        let mut part = Part::new(self.alloc, self.size)?;
        part.set(*source, now)?;
        self.parts.insert(key, part)?;
        Ok(())
    }

    /// Whether the source is in the list, with an age of at most so many seconds, as a match of
    /// `--rcheck --seconds --reap` tells it. Sources of greater age are dropped from the part of
    /// the list that this source is in. It takes no memory.
    pub fn look(&mut self, list: &ChainName, source: &Address, now: u64, seconds: u32) -> bool
        ensures live { result ≡ spec.is_live self.old list.now source.now now seconds }
        ensures lists { self.new ≡ reaped self.old list.now source.now now seconds }
    {
        let key = ListPart::of(list, source);
        let Some(part) = self.parts.get_mut(&key) else {
            return false;
        };
        let is_live = part.look(source, now, seconds);
        if part.is_empty() {
            self.parts.swap_remove(&key);
        }
        is_live
    }

    /// Marks all sources of the shelf, and says how many there are.
    pub(crate) fn mark_all(&self, marks: &mut Marks) -> usize
        ensures { (q : Shard) → AreMarked marks.new q.list (sightings self.now q) }
    {
        let mut count: usize = 0;
        for (key, part) in self.parts.iter() {
            part.mark_all(&key.list, marks);
            count = count.saturating_add(part.len());
        }
        count
    }
}
