//! Lines of a live run, as they are read before anything is run.
use kp_base::Items;
use kp_text_defs::{LineRefusal, PacketLine};
use kp_types::Event;

/// What a line asks of its stream.
#[derive(Drop)]
pub enum Work {
    /// To feed these events, one by one.
    Feeds(Items<Event>),
    /// To sync.
    Syncs,
    /// To send a packet.
    Sends(PacketLine),
}

/// A line that belongs to a stream.
#[derive(Drop)]
pub struct StreamLine {
    /// The line's number, from 1.
    pub number: u64,
    /// The place of its stream, from 0, among the streams in the order of their first lines.
    pub stream: u32,
    pub work: Work,
}

/// A line that is refused while lines are read.
#[derive(Drop)]
pub struct RefusedLine {
    /// The line's number, from 1.
    pub number: u64,
    pub why: LineRefusal,
}
