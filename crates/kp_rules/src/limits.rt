//! Limits of draws, ready to compare.
ghost use Rattle.std.specs.Prelude.{◌≡◌, map, IfOk};
ghost use Rattle.kp_rules.specs.Limits as Limits;

use kp_base::NoMemory;
use kp_draws::threshold;
use kp_types::{Match, Rule};
use std::alloc::Global;

/// The limit of each rule's draw, where a draw is its only match.
pub(crate) fn limits_of(alloc: Global, rules: &[Rule]) -> Result<Vec<Option<u32>>, NoMemory>
    ensures { IfOk result (λ limits. limits.items ≡ map Limits.limit_of rules.now) }
{
    Ok(rules.iter().map(|rule| limit_of(rule)).collect(alloc)?)
}

/// The limit of a rule's draw, where a draw is its only match.
fn limit_of(rule: &Rule) -> Option<u32>
    ensures { result ≡ Limits.limit_of rule.now }
{
    only_limit(rule.matches.as_slice())
}

fn only_limit(matches: &[Match]) -> Option<u32>
    ensures { result ≡ Limits.only_limit matches.now }
{
    let (first, others) = matches.split_first()?;
    if others.is_empty() {
        limit_of_match(first)
    } else {
        None
    }
}

/// The limit of a draw's match, whose probability is at most one.
fn limit_of_match(matched: &Match) -> Option<u32>
    ensures { result ≡ Limits.limit_of_match matched.now }
{
    match matched {
        Match::Statistic { p } if *p <= 10_000_000_000 => Some(threshold(*p)),
        _ => None,
    }
}
