//! The next of a chain's rules that may match a packet.
ghost use Rattle.std.specs.Prelude.{◌≡◌, ◌+◌, ◌<◌, ◌^◌, length, slice_get, Some, None, IfSome};
ghost use Rattle.kp_rules.specs.Destinations.{next_for};
ghost use Rattle.kp_walker.specs.Next.{IsNext};

use kp_rules::{Chain, Destination};
use kp_types::Rule;

/// A rule to be walked: its chain and its place there.
#[derive(Drop)]
pub(crate) struct NextRule<'a> {
    pub(crate) chain: &'a Chain,
    pub(crate) place: u64,
    pub(crate) rule: &'a Rule,
}

impl<'a> NextRule<'a> {
    /// The rule at a place of a chain.
    pub(crate) fn at(chain: &'a Chain, place: u64) -> NextRule<'a>
        requires { place < length chain.now }
        ensures place { result.place ≡ place }
        ensures rule { slice_get chain.now place ≡ Some result.rule.now }
        ensures fits { place + 1 < 2 ^ 64 }
    {
        NextRule {
            chain,
            place,
            rule: &chain.rules()[place as usize],
        }
    }
}

/// The first rule at or after a place that may match packets to this destination.
pub(crate) fn next_rule<'a>(chain: &'a Chain, from: u64, to: &Destination) -> Option<NextRule<'a>>
    ensures next { IfSome result (λ n. IsNext to.now chain.now from n.place n.rule.now) }
    ensures none { result ≡ None → next_for to.now chain.now from ≡ None }
{
    match chain.next_for(from, to) {
        None => None,
        Some(place) => Some(NextRule::at(chain, place)),
    }
}
