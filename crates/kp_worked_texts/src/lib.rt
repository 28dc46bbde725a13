//! Texts that are read and lines that are printed, worked out. Each example is a clause of a
//! function that does nothing; what calls answer in these cases is what their clauses say.
#![tactic(auto)]

mod fields;
mod names;
mod printed;
mod read;
mod words;

pub use fields::{worked_fields, worked_json, worked_numbers};
pub use names::worked_chains;
pub use printed::{worked_answers, worked_live_lines, worked_refusals, worked_slices};
pub use read::{worked_endpoint_slices, worked_members, worked_pods, worked_services};
pub use words::{
    worked_addresses, worked_chain_names, worked_cuts, worked_label_values, worked_names,
    worked_port_names, worked_ranges, worked_six_texts,
};
