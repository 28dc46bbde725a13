//! Health-check node ports: what the port of each Service answers to a load balancer, the rules
//! that accept its packets, and what is kept of all Services from one record to the next.
#![tactic(auto)]

mod accept;
mod answers;
mod count;
mod entries;
mod line;
mod response;

pub use accept::health_batch;
pub use answers::HealthCounts;
pub use count::health_of;
pub use kp_health_defs::Health;
pub use response::response_text;
