//! Maps of verdicts: the doors of Services by where they stand, kept from sync to sync, and the
//! decision on a packet by look-ups alone, with an endpoint picked by a remainder.
#![tactic(auto)]

mod between;
mod doors;
mod family;
mod keep;
mod known;
mod next;
mod ports;
mod source;
mod vmap;

pub use between::dirty_between;
pub use doors::doors_of;
pub use kp_vmap_defs::{Destination, MapDoor};
pub use vmap::Vmap;
