//! Tables of chains of rules, edits of a table, and the edits that lead from one table to another.
#![tactic(auto)]

mod chain;
mod chain_map;
mod changes;
mod destination;
mod hooks;
mod index;
pub mod laws;
mod limits;
mod new_chain;
mod places;
mod ranks;
mod ready;
mod slots;
mod table;

pub use chain::Chain;
pub use changes::changed;
pub use destination::Destination;
pub use kp_types::{Batch, ChainAt, ChainName, ChainText, Edit, Match, Rule, TableName, Target};
pub use ranks::is_built_in;
pub use table::Table;
