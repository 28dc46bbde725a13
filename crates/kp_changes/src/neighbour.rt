//! Destinations, and the doors that stand at one.
use kp_base::{Address, Family, PortKey, PortNo, Proto};
use kp_types::DoorKind;

/// A destination in a family: a protocol, an address or any of the node's own but loopback, and a
/// number.
#[derive(Clone, Copy, PartialEq, Eq, Hash)]
pub struct Destination {
    pub family: Family,
    pub proto: Proto,
    pub address: Option<Address>,
    pub number: PortNo,
}

/// A door at a destination, by its port and its kind.
#[derive(Drop)]
pub struct Neighbour {
    pub key: PortKey,
    pub kind: DoorKind,
}
