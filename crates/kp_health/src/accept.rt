//! The rules that accept packets to health ports, as kube-proxy's iptables mode writes them.
ghost use Rattle.std.specs.Prelude.{◌≡◌, IfOk};
ghost use Rattle.std.specs.Ordering.{nat_cmp};
ghost use Rattle.kp_types.specs.declared.rule.Edit.TheVariants.{Write};
ghost use Rattle.kp_object_defs.specs.Order.{distinct_in_order};
ghost use Rattle.kp_health_defs.specs.AcceptRules as spec;

use arrayvec::ArrayVec;
use kp_base::{Items, NoMemory, PortNo, Proto, Shared};
use kp_types::{Batch, ChainAt, ChainName, Edit, Match, Rule, TableName, Target};
use std::alloc::Global;
use std::collections::BTreeSet;

/// The batch that makes the chain of accept rules: a rule for each of these ports, once, by number.
/// Without a port it is empty.
pub fn health_batch(alloc: Global, ports: &Items<PortNo>) -> Result<Batch, NoMemory>
    ensures { IfOk result (λ b. b.edits ≡ spec.health_batch_of ports.now) }
{
    let mut edits = Vec::new(alloc);
    if let Some((_first, _others)) = ports.as_slice().split_first() {
        edits.push(accept_edit(alloc, ports.as_slice())?)?;
    }
    Ok(Batch {
        edits: Items::from_vec(edits),
    })
}

/// The edit that writes the chain.
fn accept_edit(alloc: Global, ports: &[PortNo]) -> Result<Edit, NoMemory>
    ensures { IfOk result (λ e. e ≡ Write spec.accept_chain (spec.accept_rules ports.now)) }
{
    let rules = accept_rules(alloc, ports)?;
    Ok(Edit::Write {
        at: accept_chain(),
        rules: Shared::of(alloc, rules)?,
    })
}

fn accept_chain() -> ChainAt
    ensures { result ≡ spec.accept_chain }
{
    ChainAt {
        table: TableName::Filter,
        chain: ChainName::new("KUBE-NODEPORTS"),
    }
}

/// The rules of ports, each once, by number.
fn accept_rules(alloc: Global, ports: &[PortNo]) -> Result<Items<Rule>, NoMemory>
    ensures { IfOk result (λ rs. rs ≡ spec.accept_rules ports.now) }
{
    let numbers = numbers_once(alloc, ports)?;
    let mut rules = Vec::new(alloc);
    for port in numbers.as_slice() {
        rules.push(accept_rule(*port))?;
    }
    Ok(Items::from_vec(rules))
}

fn accept_rule(port: PortNo) -> Rule
    ensures { result ≡ spec.accept_rule port }
{
    let mut matches = ArrayVec::new();
    let proto = Proto::Tcp;
    matches.push(Match::Port { proto, port });
    Rule::of(matches, Target::Accept)
}

/// Ports once each, by number.
fn numbers_once(alloc: Global, ports: &[PortNo]) -> Result<Vec<PortNo>, NoMemory>
    ensures { IfOk result (λ ps. ps.items ≡ distinct_in_order nat_cmp ports.now) }
{
    let numbers = set_of(alloc, ports)?;
    Ok(numbers.into_iter().collect(alloc)?)
}

fn set_of(alloc: Global, ports: &[PortNo]) -> Result<BTreeSet<PortNo>, NoMemory>
    ensures { IfOk result (λ s. s.keys ≡ distinct_in_order nat_cmp ports.now) }
{
    let mut numbers = BTreeSet::new(alloc);
    for i in (0..ports.len()).rev() {
        numbers.insert(ports[i])?;
    }
    Ok(numbers)
}
