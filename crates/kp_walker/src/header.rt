//! What rules may change of a packet.
use kp_base::{Address, PortNo};
use kp_types::Packet;

/// Where a packet comes from and where it goes, as it is by now.
#[derive(Clone, Copy, Debug, PartialEq, Eq)]
pub(crate) struct Header {
    pub(crate) source: Address,
    pub(crate) target: Address,
    pub(crate) port: PortNo,
}

impl Header {
    ghost use Rattle.std.specs.Prelude.{◌≡◌};

    /// The header of a packet as it comes.
    pub(crate) fn of(packet: &Packet) -> Header
        ensures source { result.source ≡ packet.entry.now.source }
        ensures target { result.target ≡ packet.entry.now.target }
        ensures port { result.port ≡ packet.entry.now.port }
    {
        Header {
            source: packet.source,
            target: packet.target,
            port: packet.port,
        }
    }
}
