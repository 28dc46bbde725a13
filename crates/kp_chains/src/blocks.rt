//! The rules of one port in the shared chains.
ghost use Rattle.std.specs.Prelude.{◌≡◌, ◌+◌, ◌++◌, ◌∷◌, [], not, map, IfOk, OnOk, OnErr};
ghost use Rattle.kp_base.specs.declared.address.Family.{Family};
ghost use Rattle.kp_choice_defs.specs.Settings.{setting_of};
ghost use Rattle.kp_object_defs.specs.PortInfo as spec;
ghost use Rattle.kp_object_defs.specs.Desired.{is_empty};
ghost use Rattle.kp_object_defs.specs.Lists.{list_by_policy};
ghost use Rattle.kp_types.specs.declared.chain.PortChain.TheVariants.{Ext};
ghost use Rattle.kp_types.specs.declared.rule.Match.TheVariants as match;
ghost use Rattle.kp_types.specs.declared.rule.Target.TheVariants as target;
ghost use Rattle.kp_table_defs.specs.Layout as layout;
ghost use Rattle.kp_chains.specs.Blocks.{block_count, blocks_of};
ghost use Rattle.kp_chains.specs.Named.{name_of_kind};

use crate::count::count_blocks;
use crate::external::port_chain;
use crate::keys::has_firewall;
use crate::rows::outside_loopback;
use crate::rules::{add_rules_at, rule_at, rule1, rule3};
use kp_base::{Address, Cidr, Config, Endpoint, Family, Items, NoMemory, PortNo, Steps};
use kp_types::{Match, Policy, PortChain, PortInfo, Rule, Target};
use std::alloc::Global;
use std::sync::ledger::Ledger;

/// The rules of one or more ports in the shared chains.
#[derive(Drop)]
pub struct Blocks {
    /// In KUBE-SERVICES of nat.
    pub services: Items<Rule>,
    /// In KUBE-NODEPORTS of nat.
    pub node_ports: Items<Rule>,
    /// In KUBE-PROXY-FIREWALL of filter.
    pub firewall: Items<Rule>,
    /// In KUBE-EXTERNAL-SERVICES of filter.
    pub external: Items<Rule>,
    /// In KUBE-SERVICES of filter.
    pub refusals: Items<Rule>,
}

/// The rules of one port in the shared chains. A step is taken for each; without memory none is.
pub fn info_blocks<L: Ledger>(
    alloc: Global,
    family: Family,
    config: &Config,
    info: &PortInfo,
    steps: &mut Steps<L>,
) -> Result<Blocks, NoMemory>
    ensures blocks { IfOk result (λ b. b ≡ blocks_of (setting_of family config.now) info.now) }
    ensures steps { OnOk result (steps.new
        ≡ steps.old + block_count (blocks_of (setting_of family config.now) info.now)) }
    ensures no_step { OnErr result (steps.new ≡ steps.old) }
{
    let blocks = all_blocks(alloc, family, config, info)?;
    count_blocks(steps, &blocks);
    Ok(blocks)
}

/// The rules, uncounted.
pub fn all_blocks(
    alloc: Global,
    family: Family,
    config: &Config,
    info: &PortInfo,
) -> Result<Blocks, NoMemory>
    ensures { IfOk result (λ b. b ≡ blocks_of (setting_of family config.now) info.now) }
{
    let services = service_block(alloc, config, info)?;
    let node_ports = node_port_block(alloc, config, info)?;
    let firewall = firewall_block(alloc, info)?;
    let external = external_block(alloc, family, info)?;
    let refusals = refusal_block(alloc, info)?;
    Ok(Blocks {
        services,
        node_ports,
        firewall,
        external,
        refusals,
    })
}

/// In KUBE-SERVICES of nat: the cluster address goes to the chain of the internal traffic policy,
/// external and load-balancer addresses go to the chains of what comes in from outside.
fn service_block(alloc: Global, config: &Config, info: &PortInfo) -> Result<Items<Rule>, NoMemory>
    ensures { IfOk result (λ rs. (family : Family) → rs
        ≡ layout.service_block (setting_of family config.now) info.now) }
{
    let mut rules = Vec::new(alloc);
    add_cluster_rule(&mut rules, config, info)?;
    add_outer_rules(&mut rules, config, info)?;
    Ok(Items::from_vec(rules))
}

/// Adds the rule of the cluster address, where the list of the internal policy isn't empty.
fn add_cluster_rule(rules: &mut Vec<Rule>, config: &Config, info: &PortInfo) -> Result<(), NoMemory>
    ensures { OnOk result (rules.new.items ≡ rules.old.items
        ++ layout.rules_if (not (is_empty (spec.internal_list info.now)))
        (layout.rule_at info.now (target.Jump (name_of_kind config.now
        info.now (layout.chain_of_policy info.now.internal))) info.now.address ∷ [])) }
{
    if list_of(info, info.internal).is_empty() {
        return Ok(());
    }
    let chain = port_chain(config, info, chain_of_policy(info.internal));
    rules.push(rule_at(info, Target::Jump(chain), &info.address))?;
    Ok(())
}

/// Adds the rules of external and of load-balancer addresses, where some endpoint serves.
fn add_outer_rules(rules: &mut Vec<Rule>, config: &Config, info: &PortInfo) -> Result<(), NoMemory>
    ensures { OnOk result (rules.new.items ≡ rules.old.items
        ++ layout.rules_if info.now.lists.has_any
        (map (layout.rule_at info.now (target.Jump (name_of_kind config.now
        info.now Ext))) info.now.external
        ++ map (layout.rule_at info.now (target.Jump (name_of_kind config.now
        info.now (layout.balancer_chain info.now.ranges)))) info.now.balancer)) }
{
    if !info.lists.has_any {
        return Ok(());
    }
    add_rules_to(
        rules,
        config,
        info,
        PortChain::Ext,
        info.external.as_slice(),
    )?;
    let kind = balancer_chain(&info.ranges);
    add_rules_to(rules, config, info, kind, info.balancer.as_slice())
}

/// Adds rules that send what goes to addresses to the port's chain of a kind.
fn add_rules_to(
    rules: &mut Vec<Rule>,
    config: &Config,
    info: &PortInfo,
    kind: PortChain,
    addresses: &[Address],
) -> Result<(), NoMemory>
    ensures { OnOk result (rules.new.items ≡ rules.old.items
        ++ map (layout.rule_at info.now (target.Jump (name_of_kind config.now
        info.now kind))) addresses.now) }
{
    if addresses.is_empty() {
        return Ok(());
    }
    let target = Target::Jump(port_chain(config, info, kind));
    add_rules_at(rules, info, &target, addresses)
}

/// The list of a traffic policy.
fn list_of(info: &PortInfo, policy: Policy) -> &[Endpoint]
    ensures { result.now ≡ list_by_policy policy info.now.lists }
{
    match policy {
        Policy::Cluster => info.lists.cluster.as_slice(),
        Policy::Local => info.lists.local.as_slice(),
    }
}

/// The kind of chain that chooses among a policy's endpoints.
fn chain_of_policy(policy: Policy) -> PortChain
    ensures { result ≡ layout.chain_of_policy policy }
{
    match policy {
        Policy::Cluster => PortChain::Svc,
        Policy::Local => PortChain::Svl,
    }
}

/// The kind of chain that a load-balancer address goes to: through the source ranges, where there
/// are any.
fn balancer_chain(ranges: &Option<Items<Cidr>>) -> PortChain
    ensures { result ≡ layout.balancer_chain ranges.now }
{
    match ranges {
        None => PortChain::Ext,
        Some(_) => PortChain::Fw,
    }
}

/// In KUBE-NODEPORTS of nat: the node port, where some endpoint serves.
fn node_port_block(alloc: Global, config: &Config, info: &PortInfo) -> Result<Items<Rule>, NoMemory>
    ensures { IfOk result (λ rs. (family : Family) → rs
        ≡ layout.node_port_block (setting_of family config.now) info.now) }
{
    let mut rules = Vec::new(alloc);
    match info.node_port {
        Some(port) if info.lists.has_any => {
            let target = Target::Jump(port_chain(config, info, PortChain::Ext));
            rules.push(rule1(to_node_port(info, port), target))?;
            Ok(Items::from_vec(rules))
        }
        _ => Ok(Items::from_vec(rules)),
    }
}

/// The packets to a node port.
fn to_node_port(info: &PortInfo, port: PortNo) -> Match
    ensures { result ≡ match.Port info.now.key.proto port }
{
    Match::Port {
        proto: info.key.proto,
        port,
    }
}

/// In KUBE-PROXY-FIREWALL of filter: what the source ranges don't let through is dropped.
fn firewall_block(alloc: Global, info: &PortInfo) -> Result<Items<Rule>, NoMemory>
    ensures { IfOk result (λ rs. rs ≡ layout.firewall_block info.now) }
{
    let mut rules = Vec::new(alloc);
    if !has_firewall(info) {
        return Ok(Items::from_vec(rules));
    }
    add_rules_at(&mut rules, info, &Target::Drop, info.balancer.as_slice())?;
    Ok(Items::from_vec(rules))
}

/// Packets without endpoints are rejected where none serves at all, and else dropped.
fn refusal_target(has_any: bool) -> Target
    ensures { result ≡ layout.refusal_target has_any }
{
    if has_any {
        Target::Drop
    } else {
        Target::Reject
    }
}

/// In KUBE-EXTERNAL-SERVICES of filter: external addresses, load-balancer addresses and the node
/// port, where the list of the external traffic policy is empty.
fn external_block(alloc: Global, family: Family, info: &PortInfo) -> Result<Items<Rule>, NoMemory>
    ensures { IfOk result (λ rs. rs ≡ layout.external_block family info.now) }
{
    let mut rules = Vec::new(alloc);
    if !list_of(info, info.outer).is_empty() {
        return Ok(Items::from_vec(rules));
    }
    let target = refusal_target(info.lists.has_any);
    add_rules_at(&mut rules, info, &target, info.external.as_slice())?;
    add_rules_at(&mut rules, info, &target, info.balancer.as_slice())?;
    add_node_port_refusal(&mut rules, family, info, target)?;
    Ok(Items::from_vec(rules))
}

/// Adds the refusal of the node port at the node's own addresses, where there is one.
fn add_node_port_refusal(
    rules: &mut Vec<Rule>,
    family: Family,
    info: &PortInfo,
    target: Target,
) -> Result<(), NoMemory>
    ensures { OnOk result (rules.new.items ≡ rules.old.items
        ++ layout.node_port_refusal family info.now target info.now.node_port) }
{
    match info.node_port {
        None => Ok(()),
        Some(port) => {
            let to_port = to_node_port(info, port);
            rules.push(rule3(outside_loopback(family), Match::DstLocal, to_port, target))?;
            Ok(())
        }
    }
}

/// In KUBE-SERVICES of filter: the cluster address, where the list of the internal traffic policy
/// is empty.
fn refusal_block(alloc: Global, info: &PortInfo) -> Result<Items<Rule>, NoMemory>
    ensures { IfOk result (λ rs. rs ≡ layout.refusal_block info.now) }
{
    let mut rules = Vec::new(alloc);
    if !list_of(info, info.internal).is_empty() {
        return Ok(Items::from_vec(rules));
    }
    let target = refusal_target(info.lists.has_any);
    rules.push(rule_at(info, target, &info.address))?;
    Ok(Items::from_vec(rules))
}
