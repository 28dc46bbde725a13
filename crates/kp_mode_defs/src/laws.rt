//! What holds of a replay in each mode.
ghost use Rattle.std.specs.Prelude.{List, ℕ};
ghost use Rattle.kp_mode_defs.specs.Mode as modes;
ghost use Rattle.kp_mode_defs.specs.ModeLaws as laws;

/// What a mode may have as its state. It is a type of definitions, so no value is told of it.
pub trait Stated {
    /// The state.
    ghost State: { Type 0 };
}

/// The text of the mode that adds nothing is that of the replay, and lines lead where they lead in a
/// replay.
pub fn replays_alike()
    ensures { (lines : List (List ℕ)) → laws.ReplaysAlike lines }
{}

/// In each mode lines lead where they lead in a replay, but for the recent lists; and for these too
/// where packets leave them as a replay does.
pub fn modes_stand_alike<M: Stated>()
    ensures alike { (m : modes.Mode M.State) (lines : List (List ℕ)) → laws.StandsAlike m lines }
    ensures same { (m : modes.Mode M.State) (lines : List (List ℕ)) → laws.StandsSame m lines }
{}
