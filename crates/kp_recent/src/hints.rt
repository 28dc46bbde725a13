//! What is known of a part's sources without a look at them. Most looks are for a source that the
//! part lacks, while none of its sources is too old: then they end here.
ghost use Rattle.std.specs.Prelude.{◌≡◌, ◌<◌, ℕ, true, false, []};
ghost use Rattle.kp_recent.specs.Hinted.{AreHinted, mark_of};
ghost use Rattle.kp_recent.specs.Moments.{Pairs, has_recent, recent_pairs, sightings_of};
ghost use Rattle.kp_recent.specs.Moments.{with_source};

use kp_base::Address;

/// Hints at the sources of a part and at the moments at which they were set.
#[derive(Clone, Copy, Debug, PartialEq, Eq)]
pub(crate) struct Hints {
    /// Bits of all sources, and maybe of some that are gone.
    pub(crate) marks: u64,
    /// No source was set before this moment.
    pub(crate) since: u64,
}

impl Hints {
    /// Those of a part without a source.
    pub(crate) fn none() -> Hints
        ensures { AreHinted result.marks result.since [] }
    {
        Hints {
            marks: 0,
            since: u64::MAX,
        }
    }

    /// Whether a source may be there.
    pub(crate) fn may_have(&self, source: &Address) -> bool
        ensures { (ss : Pairs) (now seconds : ℕ) → AreHinted self.now.marks self.now.since ss
            → result ≡ false → has_recent now seconds source.now (sightings_of ss) ≡ false }
    {
        self.marks >> mark_of(source) & 1 == 1
    }

    /// Whether no source is too old.
    pub(crate) fn are_recent(&self, now: u64, seconds: u32) -> bool
        ensures { (ss : Pairs) → AreHinted self.now.marks self.now.since ss → result ≡ true
            → recent_pairs now seconds ss ≡ ss }
    {
        now.saturating_sub(self.since) <= seconds as u64
    }

    /// Those once a source was set.
    pub(crate) fn set(&mut self, source: &Address, now: u64)
        ensures { (ss : Pairs) (size : ℕ) → AreHinted self.old.marks self.old.since ss
            → AreHinted self.new.marks self.new.since (with_source size source.now now ss) }
    {
        self.marks = self.marks | 1 << mark_of(source);
        self.since = self.since.min(now);
    }
}

/// The bit of a source. The lowest four bits of its address are those of its part.
fn mark_of(source: &Address) -> u32
    ensures value { result ≡ mark_of source.now }
    ensures low { result < 64 }
{
    (source.number() / 16 % 64) as u32
}
