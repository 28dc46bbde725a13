//! What was seen of a history.
ghost use Rattle.std.specs.Prelude.{◌≡◌, ◌==◌, ◌-◌, ◌<◌, ◌≤◌, ◌^◌, ◌++◌};
ghost use Rattle.std.specs.Prelude.{◌∷◌, ◌⊎◌, ◌↔◌, [], false, length};
ghost use Rattle.std.specs.Prelude.{IfSome, IsTrue};
ghost use mathlib.Core.List.{IsPrefix};
ghost use Rattle.kp_publish.specs.Entries.{records_of, is_ended, GoesOnFrom};
ghost use Rattle.kp_publish.specs.declared.entry.Entry.TheVariants.{Record, End};

use crate::entry::{Ending, Entered, Entry};
use crate::history::{Counted, Head, Nothing, Publication, Write};
use kp_types::SyncRecord;
use logbook::{Offer, Seen};
use std::marker::{Model, PhantomData};
use std::sync::Wait;

/// A beginning of the history that was seen. Contracts see it as its entries. It has no list of
/// them, so a copy takes no memory.
#[derive(Drop)]
pub struct Front<J: Publication> {
    entries: u64,
    records: u64,
    seen: Seen<Entry, u64, Counted>,
    of: PhantomData<J>,
}

impl<J: Publication> Model for Front<J> {
    ghost use Rattle.std.specs.Prelude.{◌≡◌, List, length};
    ghost use Rattle.kp_publish.specs.declared.entry.Entry.{Entry};
    ghost use Rattle.kp_publish.specs.Entries.{records_of};

    ghost Value = { List Entry };

    ghost view = { λ f. f.seen.log };

    ghost invariant = { λ f. (f.entries ≡ length f.seen.log)
        × (f.records ≡ length (records_of f.seen.log)) × (f.seen.book ≡ J.book) };
}

impl<J: Publication> Front<J> {
    /// The front of which nothing was seen yet.
    pub(crate) fn first(seen: Seen<Entry, u64, Counted>) -> Front<J>
        requires { (seen.log ≡ []) × (seen.book ≡ J.book) }
        ensures { result ≡ [] }
    {
        Front {
            entries: 0,
            records: 0,
            seen,
            of: PhantomData,
        }
    }

    /// How many records it has.
    pub fn count(&self) -> u64
        ensures { result ≡ length (records_of self.now) }
    {
        self.records
    }

    /// A copy. It takes no memory.
    pub fn again(&self) -> Front<J>
        ensures { result ≡ self.now }
    {
        Front {
            entries: self.entries,
            records: self.records,
            seen: self.seen.again(),
            of: PhantomData,
        }
    }

    /// The longer of two fronts, which the other begins.
    pub fn longer(&self, other: &Front<J>) -> Front<J>
        ensures one { (result ≡ self.now) ⊎ (result ≡ other.now) }
        ensures this { IsPrefix self.now result }
        ensures that { IsPrefix other.now result }
    {
        let mut both = self.seen.again();
        both.learn(&other.seen);
        if self.entries < other.entries {
            other.again()
        } else {
            self.again()
        }
    }

    /// Whether it has as many records as another front. Then it goes on from that one.
    pub fn goes_on_from(&self, other: &Front<J>) -> bool
        ensures count { IsTrue result
            ↔ (length (records_of other.now) ≤ length (records_of self.now)) }
        ensures goes_on { IsTrue result → GoesOnFrom self.now other.now }
    {
        let mut both = self.seen.again();
        both.learn(&other.seen);
        other.records <= self.records
    }

    /// Whether it is the same front as another.
    pub(crate) fn is_same(&self, other: &Front<J>) -> bool
        ensures same { IsTrue result → self.now ≡ other.now }
        ensures long { result ≡ (length self.now == length other.now) }
    {
        let mut both = self.seen.again();
        both.learn(&other.seen);
        self.entries == other.entries
    }

    /// The front with a record behind it, which is written into the history.
    #[tactic(auto, using(crate::proofs::Beginnings::count_snoc))]
    pub(crate) fn with_record<R: Wait>(&self, rt: &R, head: &Head<J>, next: &SyncRecord) -> Front<J>
        requires open { is_ended self.now ≡ false }
        requires room { length (records_of self.now) < 2 ^ 64 - 1 }
        ensures { result ≡ self.now ++ Record next.now ∷ [] }
    {
        self.written(rt, head, next, self.records + 1)
    }

    /// The front with the end behind it, which is written into the history.
    #[tactic(auto, using(crate::proofs::Beginnings::count_end))]
    pub(crate) fn with_end<R: Wait>(&self, rt: &R, head: &Head<J>) -> Front<J>
        requires open { is_ended self.now ≡ false }
        requires room { length (records_of self.now) < 2 ^ 64 - 1 }
        ensures { result ≡ self.now ++ End ∷ [] }
    {
        self.written(rt, head, &Ending, self.records)
    }

    /// The front with one entry more. The first try succeeds, since only the publisher of this
    /// history writes into it. No type says so, and so it tries until the entry is written.
    fn written<X: Entered, R: Wait>(
        &self,
        rt: &R,
        head: &Head<J>,
        next: &X,
        records: u64,
    ) -> Front<J>
        requires open { is_ended self.now ≡ false }
        requires room { length (records_of self.now) < 2 ^ 64 - 1 }
        requires records { records ≡ length (records_of (self.now ++ X.entry next.now ∷ [])) }
        ensures { result ≡ self.now ++ X.entry next.now ∷ [] }
    {
        for _ in rt.forever() {
            if let Some(front) = self.try_to_write(head, next, records) {
                return front;
            }
        }
        unreachable!()
    }

    /// The front with one entry more, unless the history has gone on from this front already.
    fn try_to_write<X: Entered>(&self, head: &Head<J>, next: &X, records: u64) -> Option<Front<J>>
        requires open { is_ended self.now ≡ false }
        requires room { length (records_of self.now) < 2 ^ 64 - 1 }
        requires records { records ≡ length (records_of (self.now ++ X.entry next.now ∷ [])) }
        ensures { IfSome result (λ f. f ≡ self.now ++ X.entry next.now ∷ []) }
    {
        let mut seen = self.seen.again();
        let mut offer: Offer<Entry, u64, Counted, Nothing> = seen.plain::<Nothing, X, Write>(next);
        let mut pen = seen.no_pen();
        let entries = self.entries;
        let found = head
            .head
            .compare_exchange::<Write, Nothing>(
                entries,
                entries + 1,
                &mut seen,
                &mut offer,
                &mut pen,
            );
        if found != entries {
            return None;
        }
        Some(Front {
            entries: entries + 1,
            records,
            seen,
            of: PhantomData,
        })
    }
}
