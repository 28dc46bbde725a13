//! A live run: all lines are read, then the streams that they belong to feed, sync and send packets
//! beside each other, each in a thread, and at the end what each line was answered is printed in
//! the order of the lines.
#![tactic(auto)]

mod answers;
mod fault;
mod mode;
mod output;
mod parts;
mod refusals;
mod stream;
mod streams;
mod tables;

pub use fault::LiveFault;
pub use mode::live;
