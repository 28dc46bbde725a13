//! What the objects of the cluster mean: objects after events, the endpoints that a Service wants,
//! and the endpoints of each Service port. There are only definitions here, in `specs/`.
#![tactic(auto)]
