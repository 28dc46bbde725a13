//! Numbers below 2^128 that are aligned as words of eight bytes.
ghost use Rattle.std.specs.Prelude.{◌≡◌, nat_eq, Some, refl};
ghost use Rattle.std.specs.Ordering.{nat_cmp};
ghost use Rattle.std.specs.Cmp as Cmp;
ghost use Rattle.std.proofs.Common.{rules};
ghost use Rattle.std.specs.Hash as fed;

use std::cmp::Ordering;
use std::hash::{Hash, Hasher};
use std::marker::Model;

/// How many numbers a word of eight bytes holds.
const WORDS: u128 = 1 << 64;

/// A number below 2^128, as its two halves. A `u128` is aligned to sixteen bytes and would make
/// what holds it larger by a third.
#[derive(Clone, Copy, Debug)]
pub struct Wide {
    high: u64,
    low: u64,
}

impl Model for Wide {
    ghost use Rattle.std.specs.Prelude.{ℕ, ◌*◌, ◌+◌, ◌/◌, ◌%◌, ◌<◌};
    ghost use Rattle.kp_base.specs.Words.{words, high_is, low_is};

    ghost Value = { ℕ };

    ghost view = { λ w. w.high * words + w.low };

    ghost invariant = { λ w. w.low < words };

    ghost inverse = { λ n.
        record { high = n / words; low = n % words } };

    ghost inverse_ok = { λ w h. λ i.
        record { high = high_is w.high w.low h i; low = low_is w.high w.low h i } };
}

impl Wide {
    /// The halves of a number.
    pub fn of(number: u128) -> Wide
        ensures { result ≡ number }
    {
        Wide {
            high: (number / WORDS) as u64,
            low: (number % WORDS) as u64,
        }
    }

    /// The number.
    pub fn number(&self) -> u128
        ensures { result ≡ self.now }
    {
        self.high as u128 * WORDS + self.low as u128
    }
}

impl PartialEq for Wide {
    ghost eq = { nat_eq };

    ghost laws = { Cmp.partial_equiv_from_equiv Cmp.nat_eq_equiv };

    fn eq(&self, other: &Wide) -> bool {
        self.number() == other.number()
    }
}

impl Eq for Wide {
    ghost laws = { Cmp.nat_eq_equiv };
}

impl PartialOrd for Wide {
    ghost partial_cmp = { λ x y. Some (nat_cmp x y) };

    ghost laws = { Cmp.unsigned_po };

    fn partial_cmp(&self, other: &Wide) -> Option<Ordering> {
        Some(self.number().cmp(&other.number()))
    }
}

impl Ord for Wide {
    ghost cmp = { nat_cmp };

    ghost total = { Cmp.nat_cmp_total };

    ghost matches_partial_cmp = { λ x y. refl };

    ghost matches_eq = { Cmp.unsigned_ties };

    fn cmp(&self, other: &Wide) -> Ordering {
        self.number().cmp(&other.number())
    }
}

impl Hash for Wide {
    ghost hash_input = { fed.u128 };

    ghost respects_eq = { Prim.search rules };

    fn hash<H: Hasher>(&self, state: &mut H) {
        self.number().hash(state)
    }
}
