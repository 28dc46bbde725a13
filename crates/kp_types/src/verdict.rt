//! What the rules do with a packet, and on which way.
ghost use Rattle.std.specs.Prelude.{◌≡◌};

use crate::chain::ChainName;
use arrayvec::ArrayVec;
use kp_base::Endpoint;

/// What becomes of a packet.
#[derive(Clone, Copy, Debug, PartialEq, Eq)]
pub enum Verdict {
    /// It goes to the endpoint, with its source masqueraded where `masked` is set.
    To { endpoint: Endpoint, masked: bool },
    Rejected,
    Dropped,
    /// No Service has it, and it passes unchanged.
    LeftAlone,
}

/// The chains on the way to the rule that ended the traversal of a hook, the built-in chain first.
#[derive(Default, Drop)]
pub struct Pass {
    pub chains: ArrayVec<ChainName, 8>,
}

/// The traversals that a rule ended, in order.
#[derive(Drop)]
pub struct Trail {
    pub passes: ArrayVec<Pass, 4>,
}

/// The verdict on a packet and its trail.
#[derive(Drop)]
pub struct Answer {
    pub verdict: Verdict,
    pub trail: Trail,
}
