//! Lines of a script, read from their JSON text.
#![tactic(auto)]

mod config;
mod fault;
mod packet;
mod said;
mod script;
mod stream;

pub use config::default_config;
pub use fault::ScriptFault;
pub use kp_packet_lines::Scratch;
pub use kp_text_defs::{Draws, LineRefusal, Op, PacketLine, Said, ScriptLine, Shown, Stream};
pub use said::said_by;
pub use script::{line_of, line_with};
