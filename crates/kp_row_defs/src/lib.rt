//! How values are read from JSON text, for objects and lines alike: tables of rows, the first fault
//! of a value by a table, and the values at places. Its calls are worked examples of the forms that
//! lines ask.
#![tactic(auto)]

mod worked;

pub use worked::{
    a_range_of_each_family, an_address_of_another_family, both_families_are_read,
    empty_text_is_absent, empty_text_is_refused,
};
