//! What a health port answers.

use kp_base::{ObjectKey, PortNo};

/// What the health port of a Service answers: a status of HTTP, by the number of addresses at which
/// this node has ready endpoints of the Service.
#[derive(Drop)]
pub struct Health {
    pub service: ObjectKey,
    pub port: PortNo,
    pub status: u16,
    pub count: u64,
}
