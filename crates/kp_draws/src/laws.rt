//! What holds of thresholds and of the choice by them, whatever the draws are.
ghost use Rattle.std.specs.Prelude.{◌≡◌, ℕ, ◌<◌, ◌≤◌, ◌^◌, true, false};
ghost use Rattle.kp_choice_defs.specs.Draws.{draw_matches, probability_of, selected_index};
ghost use Rattle.kp_draws.specs.Least.{IsFirstMatch};

/// Of n, the first whose test matches is chosen, or the last.
pub fn first_match_is_chosen()
    ensures { (draws : ℕ → ℕ) (k n : ℕ) → 0 < n
        → IsFirstMatch draws k n (selected_index draws k n) }
{}

/// The draw that a list lacks matches no test of one of two or more.
pub fn missing_draw_matches_no_test()
    ensures { (n : ℕ) → 2 ≤ n → draw_matches (probability_of n) 2147483647 ≡ false }
{}

/// A test of one of one matches every draw.
pub fn certain_test_matches_all()
    ensures { (draw : ℕ) → draw < 2 ^ 31 → draw_matches (probability_of 1) draw ≡ true }
{}
