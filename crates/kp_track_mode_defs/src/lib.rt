//! The mode that keeps connections: definitions alone.
#![tactic(auto)]

ghost use Rattle.kp_track_mode_defs.specs.TrackMode.{tracking};
