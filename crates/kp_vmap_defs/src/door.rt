//! Doors as a map has them, and where they stand.

use kp_base::{Address, PortKey, PortNo, Proto};
use kp_types::DoorKind;

/// A destination that a Service port answers on, without what is known of the port.
pub struct MapDoor {
    pub kind: DoorKind,
    /// The address, or none where it is any of the node's own but loopback.
    pub target: Option<Address>,
    pub proto: Proto,
    /// The number at the destination: that of the port, or its node port.
    pub port: PortNo,
    /// The port that answers.
    pub owner: PortKey,
}

impl Drop for MapDoor {
    fn drop(self) {
        let MapDoor {
            kind: _,
            target: _,
            proto: _,
            port: _,
            owner,
        } = self;
    }
}

/// Where doors stand: at an address, or at the node port of this number.
#[derive(Clone, Copy, Debug, PartialEq, Eq, PartialOrd, Ord, Hash)]
pub struct Destination {
    pub target: Option<Address>,
    pub proto: Proto,
    pub port: PortNo,
}
