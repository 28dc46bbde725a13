//! The chances of the places of a list, in parts of 10^10.
ghost use Rattle.std.specs.Prelude.{◌≡◌, ◌≤◌, ◌<◌, ◌^◌};
ghost use Rattle.kp_path_defs.specs.Chances as chances;
ghost use Rattle.kp_paths.specs.Places as spec;

use kp_draws::{probability, threshold};

/// What all places have together.
pub(crate) const WHOLE: u64 = 10_000_000_000;

/// What the first of n places has of what is left: its share, or all where it is the last.
pub(crate) fn chance_at(left: u64, n: u64) -> u64
    requires some { 0 < n }
    requires whole { left ≤ 10 ^ 10 }
    ensures { result ≡ spec.chance_at left n }
{
    if n == 1 { left } else { share_of(left, n) }
}

/// What the first of n places takes of what is left.
fn share_of(left: u64, n: u64) -> u64
    requires some { 0 < n }
    requires whole { left ≤ 10 ^ 10 }
    ensures { result ≡ chances.share_of left n }
{
    let parts = left as u128 * threshold(probability(n)) as u128;
    (parts / 2_147_483_648) as u64
}
