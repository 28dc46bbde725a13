//! Flows, connections, and what is kept of them.
ghost use Rattle.std.specs.Prelude.{◌≡◌};

use kp_base::{Address, Endpoint, PortNo, Proto};
use kp_types::Packet;

/// A packet with its source port, which is 0 where none is told.
#[derive(Clone, Copy, Debug, PartialEq, Eq)]
pub struct Flow {
    pub packet: Packet,
    pub source_port: u16,
}

/// What all flows of a connection in one direction have in common.
#[derive(Clone, Copy, Debug, PartialEq, Eq, Hash)]
pub struct Connection {
    pub proto: Proto,
    pub source: Address,
    pub target: Address,
    pub source_port: u16,
    /// The destination port.
    pub port: PortNo,
}

/// What is kept of a flow that opened a connection.
#[derive(Clone, Copy, Debug, PartialEq, Eq)]
pub struct Entry {
    pub connection: Connection,
    /// Where it was sent.
    pub endpoint: Endpoint,
    /// Whether its source was masqueraded.
    pub masked: bool,
    /// The moment of the last flow of the connection, in seconds.
    pub latest: u64,
}

/// What a flow of an open connection is answered.
#[derive(Clone, Copy, Debug, PartialEq, Eq)]
pub enum Owned {
    /// A later flow goes where the first went.
    Later { endpoint: Endpoint, masked: bool },
    /// A reply has the door as its source, to which the first flow was sent.
    Reply { door: Endpoint },
}
