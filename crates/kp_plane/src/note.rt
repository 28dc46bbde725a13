//! What is told of a sync without its edits.

/// What one sync did: its number, how many events came since the sync before, and how many chains
/// it wrote and removed.
#[derive(Clone, Copy, Debug, PartialEq, Eq)]
pub struct SyncNote {
    pub sync: u64,
    pub events: u64,
    pub written: u64,
    pub removed: u64,
}
