//! A shelf with marks.
ghost use Rattle.std.specs.Prelude.{◌≡◌, true, OnOk, OnErr, IsOk};
ghost use Rattle.std.specs.Int.NonZero.{non_zero_usize_get};
ghost use Rattle.std.specs.List.{list_any};
ghost use Rattle.kp_choice_defs.specs.Recent as spec;
ghost use Rattle.kp_choice_defs.specs.Recent.{is_of, reaped, set_at, shard_of, sightings};
ghost use Rattle.kp_recent.specs.Held.{no_sources};

use crate::marks::Marks;
use crate::shelf::Shelf;
use kp_base::{Address, NoMemory};
use kp_types::ChainName;
use std::alloc::Global;
use std::marker::Model;
use std::num::NonZeroUsize;

/// How many looks may find nothing before marks are made, beside one for each source.
const FEW: usize = 1024;

/// A shelf, and marks of what stands on it once many looks found nothing. When as many again did,
/// they are made anew, since bits of sources that are gone stay. Contracts see the shelf.
#[derive(Drop)]
pub struct MarkedShelf {
    alloc: Global,
    shelf: Shelf,
    marks: Marks,
    /// How many looks found nothing since the marks were made, and how many may.
    vain: usize,
    most: usize,
}

impl Model for MarkedShelf {
    ghost use Rattle.kp_choice_defs.specs.Recent.{RecentParts};
    ghost use Rattle.kp_recent.specs.Held.{parts_code};
    ghost use Rattle.kp_recent.specs.Marked.{IsCovered};

    ghost Value = { RecentParts };

    ghost coded = { parts_code };

    ghost view = { λ m. m.shelf };

    ghost invariant = { λ m. IsCovered m.marks m.shelf };
}

impl MarkedShelf {
    /// None, for parts that remember so many sources.
    pub fn new(alloc: Global, size: NonZeroUsize) -> MarkedShelf
        ensures { result ≡ no_sources (non_zero_usize_get size) }
    {
        MarkedShelf {
            alloc,
            shelf: Shelf::new(alloc, size),
            marks: Marks::none(alloc),
            vain: 0,
            most: FEW,
        }
    }

    /// Whether the source is in the list, with an age of at most so many seconds:
    /// `--rcheck --seconds`. A moment that lies ahead of `now` has age 0. Looking renews nothing.
    pub fn is_live(&self, list: &ChainName, source: &Address, now: u64, seconds: u32) -> bool
        ensures { result ≡ spec.is_live self.now list.now source.now now seconds }
    {
        self.shelf.is_live(list, source, now, seconds)
    }

    /// Sets the source in the list at this moment, in seconds, as the most recent one of its part:
    /// `--set`. A full part loses its least recently set source. Without memory nothing changes,
    /// and a source that is there takes none.
    pub fn set(&mut self, list: &ChainName, source: &Address, now: u64) -> Result<(), NoMemory>
        ensures ok { OnOk result (self.new ≡ set_at self.old list.now source.now now) }
        ensures err { OnErr result (self.new ≡ self.old) }
        ensures known { list_any (is_of source.now)
            (sightings self.old (shard_of list.now source.now)) ≡ true
            → IsOk result }
    {
        self.marks.set(list, source, now);
        self.shelf.set(list, source, now)
    }

    /// Whether the source is in the list, with an age of at most so many seconds, as a match of
    /// `--rcheck --seconds --reap` tells it. Sources of greater age are dropped from the part of
    /// the list that this source is in. Where there is no memory for marks it goes on without them.
    pub fn look(&mut self, list: &ChainName, source: &Address, now: u64, seconds: u32) -> bool
        ensures live { result ≡ spec.is_live self.old list.now source.now now seconds }
        ensures lists { self.new ≡ reaped self.old list.now source.now now seconds }
    {
        if self.marks.end_look(list, source, now, seconds) {
            return false;
        }
        let is_live = self.shelf.look(list, source, now, seconds);
        self.note(is_live);
        is_live
    }

    /// Counts a look that found nothing. After many of them marks are made.
    fn note(&mut self, is_live: bool)
        ensures { self.new ≡ self.old }
    {
        if is_live {
            return;
        }
        self.vain = self.vain.saturating_add(1);
        if self.vain > self.most {
            self.mark_anew();
        }
    }

    /// Makes marks of what stands on the shelf, if there is memory for them.
    fn mark_anew(&mut self)
        ensures { self.new ≡ self.old }
    {
        self.vain = 0;
        if let Ok(mut marks) = Marks::new(self.alloc) {
            let count = self.shelf.mark_all(&mut marks);
            self.most = count.saturating_add(FEW);
            self.marks = marks;
        }
    }
}
