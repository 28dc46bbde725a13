//! What lines say and print: the lines that the program reads, refusals and answers. Beside the
//! types that only lines have, there are only definitions here, in `specs/`.
#![tactic(auto)]

mod draws;
mod line_refusal;
mod packet;
mod said;
mod script;
mod stream;
mod totals;
pub mod worked;

pub use draws::Draws;
pub use line_refusal::LineRefusal;
pub use packet::PacketLine;
pub use said::Said;
pub use script::{Op, ScriptLine, Shown};
pub use stream::Stream;
pub use totals::Totals;
