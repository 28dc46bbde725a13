//! The text that `iptables-restore` loads, as it is printed: tables, and the edits of a batch.
#![tactic(auto)]

mod batch_print;
mod places;
mod print;
mod tables;

pub use batch_print::{batch_text, batch_text_six};
pub use kp_rules::Table;
pub use kp_types::Batch;
pub use print::{section_text, table_text, table_text_six};
pub use tables::{filter_of, nat_of};
