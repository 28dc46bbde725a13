//! What the rules of a hook may ask.
use crate::header::Header;
use kp_base::Address;
use kp_draws::DrawSource;
use kp_rules::{Destination, Table};
use kp_types::{Packet, TableName};

/// What a walk may ask: the chains of a table, the node's addresses, the packet as it came, and the
/// source of its draws, which has them under the packet's number.
#[derive(Drop)]
pub(crate) struct Surroundings<'a, F> {
    pub(crate) chains: &'a Table,
    pub(crate) node: &'a [Address],
    pub(crate) packet: &'a Packet,
    pub(crate) number: u64,
    pub(crate) draws: &'a DrawSource<F>,
}

/// What the rules of a hook may ask: what a walk may, in one of the tables, and where the packet
/// comes from and goes by now.
#[derive(Drop)]
pub(crate) struct Hook<'a, F> {
    pub(crate) around: &'a Surroundings<'a, F>,
    pub(crate) table: TableName,
    pub(crate) header: Header,
}

impl<F> Hook<'_, F> {
    ghost use Rattle.std.specs.Prelude.{◌≡◌};

    /// Where the packet goes by now.
    pub(crate) fn destination(&self) -> Destination
        ensures { result ≡ record {
          address = self.now.header.target;
          proto = self.now.around.now.packet.now.proto;
          port = self.now.header.port;
        } }
    {
        Destination {
            address: self.header.target,
            proto: self.around.packet.proto,
            port: self.header.port,
        }
    }
}
