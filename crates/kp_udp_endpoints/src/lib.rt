//! How many lists of UDP ports have each endpoint, and which endpoints fall to none at a sync.
#![tactic(auto)]

mod changed;
mod counts;

pub use counts::EndpointCounts;
