//! The draws of a packet's statistic tests.
use kp_base::Items;

/// Where the draws of a packet's statistic tests come from.
#[derive(Drop)]
pub enum Draws {
    /// These, one after another.
    List(Items<u32>),
    /// The stream of this seed that has the line's number.
    Seed(u64),
}
