//! What changed blocks leave.
ghost use Rattle.kp_blocks.specs.BlockLaws.{EnoughByBlocks, JoinedChainsStay};

/// A joined chain stays where no changed port's block has other rules there, so that it needn't be
/// joined again.
pub fn joined_chains_stay()
    ensures { JoinedChainsStay }
{}

/// Blocks by port, with those of the ports made anew whose block changed, are the blocks of the
/// ports after.
#[tactic(auto, using(crate::proofs::ChangedBlocks::enough_by_blocks))]
pub fn enough_by_blocks()
    ensures { EnoughByBlocks }
{}
