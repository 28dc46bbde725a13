//! What joined chains are.
ghost use Rattle.kp_blocks.specs.Joined.{JoinedChainsAreTheTables};

/// The joined chain of all ports' blocks is the full table's, for each of the fixed chains, the
/// shared ones among them.
#[tactic(auto, using(crate::proofs::JoinedChains::joined_chains_are_the_tables))]
pub fn joined_chains_are_the_tables()
    ensures { JoinedChainsAreTheTables }
{}
