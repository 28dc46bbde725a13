//! Gates: what a call passes before it begins and after it has ended. A gate may hold a call, and
//! can change no answer: it is shown which call comes, and gives nothing back.
#![tactic(auto)]

mod gate;
mod hold;

pub use gate::{Gate, OpenGate};
pub use hold::{Hold, HoldGate, Until};
