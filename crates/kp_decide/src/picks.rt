//! How an endpoint of a list is picked for a packet.
ghost use Rattle.std.specs.Prelude.{◌≡◌, ◌<◌, ℕ};
ghost use Rattle.kp_types.specs.Setting.{Pick};

use kp_draws::DrawSource;

/// How an endpoint of a list is picked for a packet.
pub trait Picker {
    /// The place, from 0, that a packet's draws pick among so many.
    ghost pick: { Pick };

    /// Its draws may be asked for, and each is one number.
    ghost is_stated: { Self → Type 0 };

    /// These are the draws of the packet of this number.
    ghost are_draws: { Self → ℕ → (ℕ → ℕ) → Type 0 };

    /// The place, from 0, of the one that is picked among n for the packet of this number.
    fn place(&self, number: u64, n: u64) -> u64
        requires stated { is_stated self.now }
        requires some { 0 < n }
        ensures picked { (draws : ℕ → ℕ) → are_draws self.now number draws → result ≡ pick draws n }
        ensures within { result < n };
}

/// Draws pick as the statistic match of a list's rules does.
impl<F: Fn(u64, u32) -> u32> Picker for DrawSource<F> {
    ghost use Rattle.kp_choice_defs.specs.Draws.{AreDraws, IsStated};
    ghost use Rattle.kp_choice_defs.specs.Settings.{pick_by_draws};

    ghost pick = { pick_by_draws };

    ghost is_stated = { λ s. IsStated (F.pre s) (F.post s) };

    ghost are_draws = { λ s. AreDraws (F.post s) };

    fn place(&self, number: u64, n: u64) -> u64 {
        self.pick(number, n)
    }
}

/// The remainder of a packet's first draw, which a list of one asks for too.
pub struct Remainder<'a, F> {
    pub draws: &'a DrawSource<F>,
}

/// The first draw picks by its remainder, as maps of verdicts do.
impl<'a, F: Fn(u64, u32) -> u32> Picker for Remainder<'a, F> {
    ghost use Rattle.kp_choice_defs.specs.Draws.{AreDraws, IsStated};
    ghost use Rattle.kp_decide.specs.Picks.{pick_by_remainder};

    ghost pick = { pick_by_remainder };

    ghost is_stated = { λ r. IsStated (F.pre r.draws.now) (F.post r.draws.now) };

    ghost are_draws = { λ r. AreDraws (F.post r.draws.now) };

    fn place(&self, number: u64, n: u64) -> u64 {
        self.draws.draw(number, 0) as u64 % n
    }
}
