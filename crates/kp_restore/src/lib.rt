//! The text that `iptables-restore` loads, both ways: tables and edits are printed, and read back
//! from exactly these texts.
#![tactic(auto)]

mod built_in;
mod fault;
pub mod laws;
mod left;
mod line;
mod lists;
mod pieces;
mod read;
mod reader;
mod section;
mod so_far;
mod step;
mod values;

pub use fault::TextFault;
pub use kp_restore_text::{batch_text, batch_text_six, section_text, table_text, table_text_six};
pub use kp_rules::Table;
pub use kp_types::Batch;
pub use read::{read_batch, read_batch_six, read_table, read_table_six};
