//! Modes: where the program answers otherwise than a replay, or adds to it. Beside their laws there
//! are only definitions here, in `specs/`.
#![tactic(auto)]

pub mod laws;
