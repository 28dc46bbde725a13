//! Random numbers of the statistic match, and the selection of an endpoint by them.
#![tactic(auto)]

mod block;
mod draws;
pub mod laws;
mod source;
mod statistic;

pub use draws::{draw_of_list, draw_of_seed};
pub use source::DrawSource;
pub use statistic::{probability, probability_text, threshold};
