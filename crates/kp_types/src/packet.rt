//! Packets, as the rules see them.
ghost use Rattle.std.specs.Prelude.{◌≡◌};

use kp_base::{Address, PortNo, Proto};

/// Where a packet comes from: the network, or this node.
#[derive(Clone, Copy, Debug, PartialEq, Eq)]
pub enum Origin {
    Wire,
    Node,
}

/// The first packet of a connection.
#[derive(Clone, Copy, Debug, PartialEq, Eq)]
pub struct Packet {
    pub from: Origin,
    pub source: Address,
    pub target: Address,
    pub proto: Proto,
    /// The destination port.
    pub port: PortNo,
    /// The moment, in seconds.
    pub now: u64,
}
