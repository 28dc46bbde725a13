//! What is told and kept of syncs and of events.
use kp_types::Clash;

/// Who fed an event, and as which of its events, from 1.
#[derive(Clone, Copy, Debug, PartialEq, Eq)]
pub struct Origin {
    pub feeder: u32,
    pub number: u64,
}

/// Of an accepted sync: how many events it covers more than the one before it, and how many chains
/// it wrote and removed.
#[derive(Clone, Copy, Debug, PartialEq, Eq)]
pub struct RecordNote {
    pub events: u64,
    pub written: u64,
    pub removed: u64,
}

/// A sync that was refused: after how many events of the journal, and the two keys whose chains
/// have one name.
#[derive(Drop)]
pub struct Refusal {
    pub events: u64,
    pub clash: Clash,
}

/// Why a sync took no more events.
#[derive(Clone, Copy, Debug, PartialEq, Eq)]
pub enum Stop {
    QueueEmpty,
    Budget,
    JournalFull,
}

/// An accepted sync: its number, and why it took no more events.
#[derive(Clone, Copy, Debug, PartialEq, Eq)]
pub struct Synced {
    pub sync: u64,
    pub stop: Stop,
}
