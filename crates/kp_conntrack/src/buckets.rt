//! Where entries stand among lists.
ghost use Rattle.std.specs.Prelude.{◌≡◌, ◌<◌, ◌-◌, IfSome, option_map, nat_le};
ghost use Rattle.kp_base.specs.Keys.{same_proto};
ghost use Rattle.kp_conntrack.specs.Buckets as spec;
ghost use Rattle.kp_track_defs.specs.Entries as entries;
ghost use Rattle.kp_track_defs.specs.Stands.{is_endpoint};

use kp_base::{Endpoint, PortNo, Proto};
use kp_track_defs::{Connection, Entry, Flow};
use std::hash::{DefaultHasher, Hash, Hasher};

/// How many rows there are.
pub(crate) const ROWS: u32 = 65536;

/// How many buckets there are of each kind: four times the rows, so that a search meets few rows of
/// other flows, each of which would have to come from memory.
pub(crate) const BUCKETS: u32 = 262144;

/// The timeout of UDP, in seconds.
const SHORT: u64 = 120;

/// That of TCP and SCTP.
const LONG: u64 = 432_000;

/// The connection of a flow.
pub(crate) fn connection_of(flow: &Flow) -> Connection
    ensures { result ≡ entries.connection_of flow.now }
{
    Connection {
        proto: flow.packet.proto,
        source: flow.packet.source,
        target: flow.packet.target,
        source_port: flow.source_port,
        port: flow.packet.port,
    }
}

/// The connection of an entry's replies, where there are any.
pub(crate) fn reply_of(entry: &Entry) -> Option<Connection>
    ensures { result ≡ entries.reply_of entry.now }
{
    if entry.masked {
        return None;
    }
    let port = PortNo::new(entry.connection.source_port as u64)?;
    Some(Connection {
        proto: entry.connection.proto,
        source: entry.endpoint.address,
        target: entry.connection.source,
        source_port: entry.endpoint.port.get(),
        port,
    })
}

/// Whether the latest flow of an entry is no longer ago than its timeout.
pub(crate) fn is_within(entry: &Entry, now: u64) -> bool
    ensures { result ≡ entries.is_within now entry.now }
{
    let timeout = match entry.connection.proto {
        Proto::Udp => SHORT,
        Proto::Tcp => LONG,
        Proto::Sctp => LONG,
    };
    now.saturating_sub(entry.latest) <= timeout
}

/// The bucket of a connection.
#[tactic(auto, unfolding(crate::specs::Buckets::connection_bucket))]
pub(crate) fn connection_bucket(connection: &Connection) -> u32
    ensures value { result ≡ spec.connection_bucket connection.now }
    ensures low { result < 262144 }
{
    let mut hasher = DefaultHasher::new();
    connection.hash(&mut hasher);
    (hasher.finish() % BUCKETS as u64) as u32
}

/// The bucket of an endpoint.
#[tactic(auto, unfolding(crate::specs::Buckets::endpoint_bucket))]
pub(crate) fn endpoint_bucket(endpoint: &Endpoint) -> u32
    ensures value { result ≡ spec.endpoint_bucket endpoint.now }
    ensures low { result < 262144 }
{
    let mut hasher = DefaultHasher::new();
    endpoint.hash(&mut hasher);
    (hasher.finish() % BUCKETS as u64) as u32
}

/// Where an entry is found by the connection of its replies.
pub(crate) fn reply_place(entry: &Entry) -> Option<u32>
    ensures value { result ≡ spec.reply_place entry.now }
    ensures low { IfSome result (λ place. place < 262144) }
{
    let reply = reply_of(entry)?;
    Some(connection_bucket(&reply))
}

/// Where an entry of UDP is found by its endpoint.
pub(crate) fn endpoint_place(entry: &Entry) -> Option<u32>
    ensures value { result ≡ spec.endpoint_place entry.now }
    ensures low { IfSome result (λ place. place < 262144) }
{
    match entry.connection.proto {
        Proto::Udp => Some(endpoint_bucket(&entry.endpoint)),
        Proto::Tcp => None,
        Proto::Sctp => None,
    }
}

/// The list of entries that have the timeout of a protocol.
pub(crate) fn age_of(proto: Proto) -> u32
    ensures value { result ≡ spec.age_of proto }
    ensures low { result < 2 }
{
    match proto {
        Proto::Udp => 0,
        Proto::Tcp => 1,
        Proto::Sctp => 1,
    }
}

/// Whether two connections are one.
#[tactic(auto, using(crate::proofs::Same::connection_same))]
pub(crate) fn same_connection(a: &Connection, b: &Connection) -> bool
    ensures { result ≡ entries.same_connection a.now b.now }
{
    a == b
}

/// Whether two endpoints are one.
#[tactic(auto, using(crate::proofs::Same::endpoint_same))]
pub(crate) fn same_endpoint(a: &Endpoint, b: &Endpoint) -> bool
    ensures { result ≡ is_endpoint a.now b.now }
{
    a == b
}
