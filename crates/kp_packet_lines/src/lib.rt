//! A quick reader of the lines that send or explain a packet, with memory that is kept from line to
//! line, over one of plain JSON objects. What it doesn't take, the reader of all lines reads.
#![tactic(auto)]

mod draws;
mod fields;
mod line;
mod numbers;
mod object;
mod reading;
mod stream;
mod untaken;

pub use json::Scratch;
pub use line::packet_line;
pub use numbers::LowNumbers;
pub use object::{Plain, PlainObject};
pub use reading::plain_object;
pub use untaken::Untaken;
