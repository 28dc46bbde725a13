//! Draws of a list and of a seed.
ghost use Rattle.std.specs.Prelude.{◌≡◌, ◌<◌, ◌^◌, All};
ghost use Rattle.kp_choice_defs.specs.Draws as spec;

use crate::block::{key_of, word_at};

/// The draw that a list lacks: the greatest one, which no test of 1/n with n from 2 matches.
const MISSING: u32 = 2_147_483_647;

/// The draw at a place of a list of draws.
pub fn draw_of_list(draws: &[u32], k: u32) -> u32
    ensures value { result ≡ spec.draw_of_list draws.now k }
    ensures low { All (λ draw. draw < 2 ^ 31) draws.now → result < 2 ^ 31 }
{
    match draws.get(k as usize) {
        Some(draw) => *draw,
        None => MISSING,
    }
}

/// The draw at a place of the stream of a seed.
pub fn draw_of_seed(seed: u64, stream: u64, k: u32) -> u32
    ensures value { result ≡ spec.draw_of_seed seed stream k }
    ensures low { result < 2 ^ 31 }
{
    let mut bytes = [0; 32];
    bytes[..8].copy_from_slice(&seed.to_le_bytes());
    word_at(&key_of(&bytes), stream, k) >> 1
}
