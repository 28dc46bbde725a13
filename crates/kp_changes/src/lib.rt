//! What a sync changed for those who connect: a line for each door of a Service port that differs
//! from before, found by the ports of which something else is known than before.
#![tactic(auto)]

mod after;
mod beside;
mod change;
mod changes;
mod crowd;
mod head;
mod infos;
mod line;
mod names;
mod neighbour;
mod port;
mod told;
mod value_text;
mod values;

pub use changes::push_changes;
