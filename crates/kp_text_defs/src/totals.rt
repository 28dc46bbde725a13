//! What the generator adds up.

/// The sums over a generated script: its events, syncs and packets, what became of the packets, and
/// the chains that were written and removed.
#[derive(Clone, Copy, Debug, PartialEq, Eq)]
pub struct Totals {
    pub events: u64,
    pub syncs: u64,
    pub packets: u64,
    pub to: u64,
    pub rejected: u64,
    pub dropped: u64,
    pub left_alone: u64,
    pub written: u64,
    pub removed: u64,
}
