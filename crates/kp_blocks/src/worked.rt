//! Joined chains, worked out.
ghost use Rattle.kp_blocks.specs.Worked as worked;

/// The joined chains of two ports' blocks: between fixed rules, by themselves, and of no port; and
/// one of IPv6.
pub fn worked_joined_chains()
    ensures jump { worked.JoinedBeforeJump }
    ensures one { worked.JoinedOfOne }
    ensures none { worked.JoinedOfNone }
    ensures six { worked.JoinedInSix }
{}
