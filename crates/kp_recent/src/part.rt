//! One part of a list: the sources of it, the most recently set first.
ghost use Rattle.std.specs.Prelude.{◌≡◌, ◌==◌, ◌<◌, ℕ, ◌≤◌, [], IfOk, OnOk, OnErr, IsOk, IsTrue, List, length, take, true, IfSome, IfNone, if◌then◌else◌};
ghost use Rattle.std.specs.List.{IsDistinct, list_any};
ghost use Rattle.std.specs.Map.{keys_of};
ghost use Rattle.std.specs.Int.NonZero.{non_zero_usize_get};
ghost use Rattle.kp_base.specs.Net.{same_address};
ghost use Rattle.lru.specs.LruCache.{lru_cache, last_entry};
ghost use Rattle.kp_choice_defs.specs.Recent.{Sighting, is_of};
ghost use Rattle.kp_recent.specs.Hinted.{AreHinted};
ghost use Rattle.kp_recent.specs.Marked.{AreMarked, IsMarked};
ghost use Rattle.kp_recent.specs.Moments.{AreUpTo, AreFalling, shown_in, has_recent, recent, recent_pairs, is_recent, turned, with_set};

use crate::hints::Hints;
use crate::marks::Marks;
use kp_base::{Address, NoMemory};
use kp_types::ChainName;
use lru::LruCache;
use std::alloc::Global;
use std::marker::Model;
use std::num::NonZeroUsize;

/// The sources of a part with the moments at which they were set. Contracts see the cache.
#[derive(Drop)]
pub struct Part {
    hints: Hints,
    seen: LruCache<Address, u64>,
    /// Set only where no moment is later than one before it, so that the oldest are the last.
    falling: bool,
}

impl Model for Part {
    ghost use Rattle.std.specs.Prelude.{ℕ, ◌≡◌, true};
    ghost use Rattle.kp_base.specs.Net.{AddressParts};
    ghost use Rattle.lru.specs.LruCache.{LruCache};
    ghost use Rattle.kp_recent.specs.Hinted.{AreHinted};
    ghost use Rattle.kp_recent.specs.Moments.{AreFalling};

    ghost Value = { LruCache AddressParts ℕ };

    ghost view = { λ p. p.seen };

    ghost invariant = { λ p. (p.falling ≡ true → AreFalling p.seen.entries)
        × AreHinted p.hints.marks p.hints.since p.seen.entries };
}

impl Part {
    /// A part of this size without a source.
    pub fn new(alloc: Global, size: NonZeroUsize) -> Result<Part, NoMemory>
        ensures { IfOk result (λ p. p ≡ lru_cache [] (non_zero_usize_get size)) }
    {
        Ok(Part {
            hints: Hints::none(),
            seen: LruCache::sparse(alloc, size)?,
            falling: true,
        })
    }

    pub fn is_empty(&self) -> bool
        ensures { result ≡ (length self.now.entries == 0) }
    {
        self.seen.is_empty()
    }

    /// How many sources it has.
    pub fn len(&self) -> usize {
        self.seen.len()
    }

    /// Marks all its sources, which are those of a part of the list.
    pub(crate) fn mark_all(&self, list: &ChainName, marks: &mut Marks)
        ensures own { AreMarked marks.new list.now (shown_in self.now) }
        ensures others { (list : List ℕ) (s : Sighting) → IsMarked marks.old list s
            → IsMarked marks.new list s }
    {
        for (source, moment) in self.seen.iter() {
            marks.set(list, source, *moment);
        }
    }

    /// Whether the source is there, with at most this age.
    pub fn is_live(&self, source: &Address, now: u64, seconds: u32) -> bool
        ensures { result ≡ has_recent now seconds source.now (shown_in self.now) }
    {
        if self.hints.may_have(source) {
            self.has_recent(source, now, seconds)
        } else {
            false
        }
    }

    /// The same, by a look at the sources.
    fn has_recent(&self, source: &Address, now: u64, seconds: u32) -> bool
        ensures { result ≡ has_recent now seconds source.now (shown_in self.now) }
    {
        if self.seen.len() == 0 {
            return false;
        }
        match self.seen.peek(source) {
            Some(moment) => is_within(now, seconds, *moment),
            None => false,
        }
    }

    /// Whether the source is there, with at most this age. The sources of greater age are dropped.
    pub fn look(&mut self, source: &Address, now: u64, seconds: u32) -> bool
        ensures live { result ≡ has_recent now seconds source.now (shown_in self.old) }
        ensures sources { shown_in self.new ≡ recent now seconds (shown_in self.old) }
        ensures cap { self.new.cap ≡ self.old.cap }
    {
        let is_live = self.is_live(source, now, seconds);
        self.reap(now, seconds);
        is_live
    }

    /// Sets the source at this moment, as the most recent one. A full part loses its least
    /// recently set one.
    pub fn set(&mut self, source: Address, now: u64) -> Result<(), NoMemory>
        ensures ok { OnOk result (shown_in self.new
            ≡ with_set self.old.cap source now (shown_in self.old)) }
        ensures some { OnOk result (0 < length self.new.entries) }
        ensures cap { self.new.cap ≡ self.old.cap }
        ensures err { OnErr result (self.new ≡ self.old) }
        ensures known { list_any (is_of source) (shown_in self.old) ≡ true → IsOk result }
    {
        let is_latest = none_is_later(&self.seen, now);
        self.seen.put(source, now)?;
        self.falling = self.falling && is_latest;
        self.hints.set(&source, now);
        Ok(())
    }

    /// Drops the sources of greater age.
    pub fn reap(&mut self, now: u64, seconds: u32)
        ensures sources { shown_in self.new ≡ recent now seconds (shown_in self.old) }
        ensures cap { self.new.cap ≡ self.old.cap }
    {
        if self.hints.are_recent(now, seconds) {
            return;
        }
        self.drop_past(now, seconds);
    }

    /// The same, by a look at the sources.
    fn drop_past(&mut self, now: u64, seconds: u32)
        ensures sources { shown_in self.new ≡ recent now seconds (shown_in self.old) }
        ensures cap { self.new.cap ≡ self.old.cap }
    {
        if self.falling {
            drop_last_old(&mut self.seen, now, seconds);
            self.hints.since = least_moment(&self.seen, self.hints.since);
        } else {
            self.falling = drop_old(&mut self.seen, now, seconds);
        }
    }
}

/// The least moment of a part whose moments fall, or this one where it has none.
fn least_moment(seen: &LruCache<Address, u64>, since: u64) -> u64
    requires { AreFalling seen.now.entries }
    ensures { (marks : ℕ) → AreHinted marks since seen.now.entries
        → AreHinted marks result seen.now.entries }
{
    match last_of(seen) {
        Some((_, moment)) => moment,
        None => since,
    }
}

/// Whether the age that a moment has by now is at most so many seconds.
fn is_within(now: u64, seconds: u32, moment: u64) -> bool
    ensures { result ≡ is_recent now seconds moment }
{
    now.saturating_sub(moment) <= seconds as u64
}

/// Whether the most recently set source, if there is one, was set no later than now.
fn none_is_later(seen: &LruCache<Address, u64>, now: u64) -> bool
    ensures later { IsTrue result → AreUpTo now (take 1 seen.now.entries) }
    ensures fits { length seen.now.entries ≤ seen.now.cap }
    ensures some { 0 < seen.now.cap }
    ensures distinct { IsDistinct same_address (keys_of seen.now.entries) }
{
    if seen.len() == 0 {
        return true;
    }
    match seen.peek_mru() {
        Some((_, moment)) => *moment <= now,
        None => true,
    }
}

/// Drops the sources of greater age, which are the last.
fn drop_last_old(seen: &mut LruCache<Address, u64>, now: u64, seconds: u32)
    requires { AreFalling seen.old.entries }
    ensures { seen.new ≡ lru_cache (recent_pairs now seconds seen.old.entries) seen.old.cap }
{
    while let Some((_, moment)) = last_of(seen) {
        if is_within(now, seconds, moment) {
            return;
        }
        seen.pop_lru();
    }
}

/// Drops the sources of greater age, wherever they are, and answers whether moments fall along the
/// others. In a turn the last goes, or to the front, so that after all turns the others stand as
/// before.
fn drop_old(seen: &mut LruCache<Address, u64>, now: u64, seconds: u32) -> bool
    ensures entries { seen.new
        ≡ lru_cache (recent_pairs now seconds seen.old.entries) seen.old.cap }
    ensures falling { IsTrue result → AreFalling seen.new.entries }
{
    let mut falling = true;
    let mut newest = 0;
    for _turn in 0..seen.len() {
        if let Some(moment) = turn_last(seen, now, seconds) {
            falling = falling && newest <= moment;
            newest = moment;
        }
    }
    falling
}

/// Drops the last source where its age is greater. Otherwise it goes to the front, and its moment
/// is answered.
fn turn_last(seen: &mut LruCache<Address, u64>, now: u64, seconds: u32) -> Option<u64>
    ensures entries { IfSome (last_entry seen.old.entries) (λ s. seen.new
        ≡ lru_cache (turned now seconds s seen.old.entries) seen.old.cap) }
    ensures kept { IfSome (last_entry seen.old.entries) (λ s. result
        ≡ (if is_recent now seconds s.1 then Some s.1 else None)) }
    ensures none { IfNone (last_entry seen.old.entries) (seen.new ≡ seen.old) }
{
    let (source, moment) = last_of(seen)?;
    if is_within(now, seconds, moment) {
        seen.promote(&source);
        Some(moment)
    } else {
        seen.pop_lru();
        None
    }
}

/// The least recently set source, with its moment.
fn last_of(seen: &LruCache<Address, u64>) -> Option<(Address, u64)>
    ensures value { result ≡ last_entry seen.now.entries }
    ensures distinct { IsDistinct same_address (keys_of seen.now.entries) }
{
    if seen.len() == 0 {
        return None;
    }
    let (source, moment) = seen.peek_lru()?;
    Some((*source, *moment))
}
