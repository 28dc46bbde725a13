//! The chain that chooses among the endpoints of a list.
ghost use Rattle.std.specs.Prelude.{◌≡◌, ◌++◌, map, IfOk, OnOk};
ghost use Rattle.std.specs.Option.{option_to_list};
ghost use Rattle.kp_choice_defs.specs.Settings.{setting_of};
ghost use Rattle.kp_types.specs.Setting.{cluster_range};
ghost use Rattle.kp_table_defs.specs.Layout as layout;
ghost use Rattle.kp_chains.specs.Named as spec;
ghost use Rattle.kp_chains.specs.Named.{choice_of, choices, seen_rules};

use crate::named::NamedEndpoint;
use crate::rules::{mark, rule_at, rule0, rule1, rule3, to_address, to_port};
use kp_base::{Config, Family, Items, NoMemory};
use kp_draws::probability;
use kp_types::{Match, PortInfo, Rule, Target, cluster_range};
use std::alloc::Global;

/// The rules of the chain: those of the internal policy's list mark, and then come session
/// affinity and the choice.
pub fn list_rules(
    alloc: Global,
    family: Family,
    config: &Config,
    info: &PortInfo,
    is_internal: bool,
    endpoints: &[NamedEndpoint],
) -> Result<Items<Rule>, NoMemory>
    ensures { IfOk result (λ rules. rules
        ≡ spec.list_rules (setting_of family config.now) info.now is_internal endpoints.now) }
{
    let mut rules = Vec::new(alloc);
    if let Some(rule) = mark_rule_if(is_internal, family, config, info) {
        rules.push(rule)?;
    }
    add_seen(&mut rules, info.affinity, endpoints)?;
    add_choices(&mut rules, endpoints)?;
    Ok(Items::from_vec(rules))
}

/// The rule that marks packets to the cluster address, in the chain of the internal policy.
fn mark_rule_if(is_internal: bool, family: Family, config: &Config, info: &PortInfo) -> Option<Rule>
    ensures { option_to_list result ≡ layout.rules_if is_internal
        (layout.mark_rules config.now.masquerade_all (cluster_range family config.now) info.now) }
{
    if is_internal {
        mark_rule(family, config, info)
    } else {
        None
    }
}

/// The rule that marks packets to the cluster address: all of them, or those from outside the
/// cluster's range, where there is one.
fn mark_rule(family: Family, config: &Config, info: &PortInfo) -> Option<Rule>
    ensures { option_to_list result ≡ layout.mark_rules config.now.masquerade_all
        (cluster_range family config.now) info.now }
{
    if config.masquerade_all {
        return Some(rule_at(info, mark(), &info.address));
    }
    match cluster_range(config, family) {
        Some(range) => Some(rule3(
            Match::Src { range, not: true },
            to_address(&info.address),
            to_port(info),
            mark(),
        )),
        None => None,
    }
}

/// Adds the rules of session affinity, where it is on.
fn add_seen(
    rules: &mut Vec<Rule>,
    affinity: Option<u32>,
    endpoints: &[NamedEndpoint],
) -> Result<(), NoMemory>
    ensures { OnOk result (rules.new.items
        ≡ rules.old.items ++ seen_rules affinity endpoints.now) }
{
    match affinity {
        None => Ok(()),
        Some(seconds) => add_seen_within(rules, seconds, endpoints),
    }
}

/// Adds the rule of each endpoint for sources that were seen in the last seconds.
fn add_seen_within(
    rules: &mut Vec<Rule>,
    seconds: u32,
    endpoints: &[NamedEndpoint],
) -> Result<(), NoMemory>
    ensures { OnOk result (rules.new.items
        ≡ rules.old.items ++ map (spec.seen_rule seconds) endpoints.now) }
{
    for endpoint in endpoints {
        rules.push(seen_rule(seconds, endpoint))?;
    }
    Ok(())
}

/// The rule for a source that was sent to this endpoint in the last seconds: it goes there again.
fn seen_rule(seconds: u32, endpoint: &NamedEndpoint) -> Rule
    ensures { result ≡ spec.seen_rule seconds endpoint.now }
{
    let list = endpoint.chain.same();
    let target = Target::Jump(endpoint.chain.same());
    rule1(Match::Seen { list, seconds }, target)
}

/// Adds the rules that choose one of the endpoints, each with the same chance.
fn add_choices(rules: &mut Vec<Rule>, endpoints: &[NamedEndpoint]) -> Result<(), NoMemory>
    ensures { OnOk result (rules.new.items ≡ rules.old.items ++ choices endpoints.now) }
{
    let mut left = endpoints.len();
    for endpoint in endpoints {
        rules.push(choice_rule(left, endpoint))?;
        left -= 1;
    }
    Ok(())
}

/// The rule for an endpoint, where so many are left.
fn choice_rule(left: usize, endpoint: &NamedEndpoint) -> Rule
    ensures { result ≡ choice_of left endpoint.now }
{
    let target = Target::Jump(endpoint.chain.same());
    if left > 1 {
        let p = probability(left as u64);
        rule1(Match::Statistic { p }, target)
    } else {
        rule0(target)
    }
}
