//! The configuration of the proxy of one node.
ghost use Rattle.std.specs.Prelude.{◌≡◌, IfOk, ◌≤◌};

use crate::address::Address;
use crate::items::Items;
use crate::memory::{Copied, NoMemory};
use crate::range::Cidr;
use crate::text::Text;
use std::alloc::Global;

/// What the proxy of one node is told before any event.
pub struct Config {
    /// The name of the node.
    pub node: Text,
    /// The addresses of the node's interfaces.
    pub addresses: Items<Address>,
    /// The IPv4 range of the cluster's pods. A source outside it is masqueraded at a cluster
    /// address.
    pub cluster: Option<Cidr>,
    /// The IPv6 range of the cluster's pods.
    pub cluster6: Option<Cidr>,
    /// Whether the node has tables of both families.
    pub dual: bool,
    /// Masquerade every packet that goes through a cluster address.
    pub masquerade_all: bool,
    /// Whether the EndpointSlice controller runs.
    pub controller: bool,
    /// The most endpoints that the controller puts into a slice.
    pub max_per_slice: u32,
    /// The most events that are accepted.
    pub max_events: u64,
    /// The most sources that one part of a recent list remembers.
    pub recent_size: u32,
    /// How many characters of its hash a chain's name has.
    pub name_length: u8,
    pub ghost slice_from: { 1 ≤ max_per_slice },
    pub ghost slice_to: { max_per_slice ≤ 1000 },
    pub ghost events_from: { 1 ≤ max_events },
    pub ghost events_to: { max_events ≤ 1000000 },
    pub ghost recent_from: { 1 ≤ recent_size },
    pub ghost recent_to: { recent_size ≤ 1000 },
    pub ghost name_to: { name_length ≤ 16 },
}

impl Drop for Config {
    fn drop(self) {
        let Config {
            node,
            addresses,
            cluster,
            cluster6,
            dual,
            masquerade_all,
            controller,
            max_per_slice,
            max_events,
            recent_size,
            name_length,
        } = self;
    }
}

impl Copied for Config {
    fn copy(&self, alloc: Global) -> Result<Config, NoMemory> {
        Ok(Config {
            node: self.node.copy(alloc)?,
            addresses: self.addresses.copy(alloc)?,
            cluster: self.cluster,
            cluster6: self.cluster6,
            dual: self.dual,
            masquerade_all: self.masquerade_all,
            controller: self.controller,
            max_per_slice: self.max_per_slice,
            max_events: self.max_events,
            recent_size: self.recent_size,
            name_length: self.name_length,
        })
    }
}
