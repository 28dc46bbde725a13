//! The lines of a script.
use crate::packet::PacketLine;
use crate::stream::Stream;
use kp_base::{Config, Items};
use kp_types::Event;

/// What a line shows.
#[derive(Clone, Copy, Debug, PartialEq, Eq)]
pub enum Shown {
    /// The EndpointSlices, a line each.
    Slices,
    /// The endpoints of the EndpointSlices, a line each.
    Endpoints,
    /// The nat section of the table text of IPv4.
    Nat,
    /// The filter section of the table text of IPv4.
    Filter,
    /// The batch text of the last record in IPv4.
    Batch,
    /// The nat section of the table text of IPv6.
    Nat6,
    /// The filter section of the table text of IPv6.
    Filter6,
    /// The batch text of the last record in IPv6.
    Batch6,
}

/// What a line asks for.
#[derive(Drop)]
pub enum Op {
    /// The configuration. It stands in the first line, or nowhere.
    Config(Config),
    /// Changes of objects, which are accepted together or not at all.
    Events(Items<Event>),
    Sync,
    Packet(PacketLine),
    Explain(PacketLine),
    Show(Shown),
}

/// A line that was read.
#[derive(Drop)]
pub struct ScriptLine {
    /// The stream that the line belongs to.
    pub by: Stream,
    pub op: Op,
}
