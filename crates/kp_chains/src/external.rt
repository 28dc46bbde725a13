//! The chains of what comes in from outside the cluster.
ghost use Rattle.std.specs.Prelude.{◌≡◌, ◌∷◌, [], map, IfOk};
ghost use Rattle.kp_base.specs.declared.address.Family.{Family};
ghost use Rattle.kp_choice_defs.specs.Settings.{setting_of};
ghost use Rattle.kp_types.specs.declared.chain.PortChain.TheVariants.{Ext, Svc};
ghost use Rattle.kp_types.specs.declared.service.Policy.TheVariants.{Local};
ghost use Rattle.kp_table_defs.specs.Layout as layout;
ghost use Rattle.kp_chains.specs.Named as spec;

use crate::rules::{jump, mark, rule0, rule1};
use kp_base::{Cidr, Config, Family, Items, NoMemory};
use kp_names::Namer;
use kp_types::{ChainName, Match, Policy, PortChain, PortInfo, Rule, Target, cluster_range};
use std::alloc::Global;

/// The name of a port's chain of a kind, which is the same in the tables of each family.
pub fn port_chain(config: &Config, info: &PortInfo, kind: PortChain) -> ChainName
    ensures { result ≡ spec.name_of_kind config.now info.now kind }
{
    Namer::new(config.name_length).port_chain_name(kind, &info.key)
}

/// The rules of the external chain, by the external traffic policy.
pub fn external_rules(
    alloc: Global,
    family: Family,
    config: &Config,
    info: &PortInfo,
) -> Result<Items<Rule>, NoMemory>
    ensures { IfOk result (λ rules. rules
        ≡ layout.external_rules (setting_of family config.now) info.now info.now.outer) }
{
    match info.outer {
        Policy::Cluster => cluster_rules(alloc, config, info),
        Policy::Local => local_rules(alloc, family, config, info),
    }
}

/// All is marked and goes to the endpoints of the cluster.
fn cluster_rules(alloc: Global, config: &Config, info: &PortInfo) -> Result<Items<Rule>, NoMemory>
    ensures { IfOk result (λ rules. rules ≡ layout.jump_to layout.mark_masq
        ∷ layout.jump_to (spec.name_of_kind config.now info.now Svc) ∷ []) }
{
    let mut rules = Vec::new(alloc);
    rules.push(rule0(mark()))?;
    rules.push(jump(port_chain(config, info, PortChain::Svc)))?;
    Ok(Items::from_vec(rules))
}

/// What comes from pods and from the node itself goes to the endpoints of the cluster, and all
/// else to those of this node.
fn local_rules(
    alloc: Global,
    family: Family,
    config: &Config,
    info: &PortInfo,
) -> Result<Items<Rule>, NoMemory>
    ensures { IfOk result (λ rules. rules
        ≡ layout.external_rules (setting_of family config.now) info.now Local) }
{
    let svc = port_chain(config, info, PortChain::Svc);
    let mut rules = Vec::new(alloc);
    if let Some(range) = cluster_range(config, family) {
        rules.push(source_rule(&range, &svc))?;
    }
    rules.push(rule1(Match::SrcLocal, mark()))?;
    rules.push(rule1(Match::SrcLocal, Target::Jump(svc)))?;
    if !info.lists.local.as_slice().is_empty() {
        rules.push(jump(port_chain(config, info, PortChain::Svl)))?;
    }
    Ok(Items::from_vec(rules))
}

/// The rules of the firewall chain, where the port has source ranges.
pub fn firewall_chain_rules(
    alloc: Global,
    config: &Config,
    info: &PortInfo,
) -> Result<Items<Rule>, NoMemory>
    ensures { IfOk result (λ rules. (family : Family) → rules
        ≡ layout.firewall_chain_rules (setting_of family config.now) info.now info.now.ranges) }
{
    match &info.ranges {
        Some(ranges) => firewall_rules(alloc, config, info, ranges.as_slice()),
        None => Ok(Items::new(alloc)),
    }
}

/// The rules of the firewall chain: each source range goes to the external chain.
fn firewall_rules(
    alloc: Global,
    config: &Config,
    info: &PortInfo,
    ranges: &[Cidr],
) -> Result<Items<Rule>, NoMemory>
    ensures { IfOk result (λ rules. rules
        ≡ map (spec.source_rule (spec.name_of_kind config.now info.now Ext)) ranges.now) }
{
    let ext = port_chain(config, info, PortChain::Ext);
    Ok(Items::from_vec(source_rules(alloc, ranges, &ext)?))
}

/// The rules that send what comes from ranges to a chain.
fn source_rules(alloc: Global, ranges: &[Cidr], chain: &ChainName) -> Result<Vec<Rule>, NoMemory>
    ensures { IfOk result (λ rules. rules.items ≡ map (spec.source_rule chain.now) ranges.now) }
{
    Ok(
        ranges
            .iter()
            .map(|range| source_rule(range, chain))
            .collect(alloc)?,
    )
}

/// The rule that sends what comes from a range to a chain.
fn source_rule(range: &Cidr, chain: &ChainName) -> Rule
    ensures { result ≡ spec.source_rule chain.now range.now }
{
    let source = Match::Src {
        range: *range,
        not: false,
    };
    rule1(source, Target::Jump(chain.same()))
}
