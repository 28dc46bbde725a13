//! Definitions: which Services have a health-check node port, what it answers, and the rules that
//! accept its packets. Beside the type of what a health port answers, there are only definitions
//! here, in `specs/`.
#![tactic(auto)]

mod health;

pub use health::Health;
