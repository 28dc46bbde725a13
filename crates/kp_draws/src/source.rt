//! Draws by a function of the caller.
ghost use Rattle.std.specs.Prelude.{◌≡◌, ◌<◌, ◌^◌, ◌-◌, min};
ghost use Rattle.kp_choice_defs.specs.Draws.{IsStated, AreDraws, selected_index};

use crate::statistic::{probability, threshold};
use std::marker::Model;

/// A function that gives the draw at each place for the packet of each number.
#[derive(Drop)]
pub struct DrawSource<F> {
    f: F,
}

impl<F> Model for DrawSource<F> {
    ghost Value = { F };

    ghost view = { λ s. s.f };
}

impl<F: Fn(u64, u32) -> u32> DrawSource<F> {
    /// The source that asks this function.
    pub fn new(f: F) -> DrawSource<F>
        requires { IsStated (F.pre f) (F.post f) }
        ensures { result ≡ f }
    {
        DrawSource { f }
    }

    /// The draw at a place, for the packet of this number.
    pub fn draw(&self, number: u64, k: u32) -> u32
        requires { IsStated (F.pre self.now) (F.post self.now) }
        ensures stated { F.post self.now number k result }
        ensures drawn { (draws : _) → AreDraws (F.post self.now) number draws → result ≡ draws k }
        ensures low { result < 2 ^ 31 }
    {
        (self.f)(number, k)
    }

    /// The place, from 0, of the one that the draws choose among n.
    pub fn pick(&self, number: u64, n: u64) -> u64
        requires stated { IsStated (F.pre self.now) (F.post self.now) }
        requires some { 0 < n }
        ensures chosen { (draws : _) → AreDraws (F.post self.now) number draws
            → result ≡ selected_index draws 0 n }
        ensures within { result < n }
    {
        for i in 0..n - 1 {
            if self.draw(number, draw_place(i)) < threshold(probability(n - i)) {
                return i;
            }
        }
        n - 1
    }
}

/// The place of the draw that a test at a place has: its own, or the greatest.
fn draw_place(i: u64) -> u32
    ensures { result ≡ min i (2 ^ 32 - 1) }
{
    i.min(u32::MAX as u64) as u32
}
