//! The fixed rules of a chain, and where the ports' rules stand among them.
ghost use Rattle.std.specs.Prelude.{◌≡◌, IfOk};
ghost use Rattle.kp_blocks.specs.Joined as spec;

use kp_base::{Copied, Family, Items, NoMemory, Shared};
use kp_chains::fixed_chains;
use kp_types::{ChainAt, Rule, Target};
use std::alloc::Global;

/// The rules that a chain of a family's tables has without ports, or none where it isn't a fixed
/// one.
pub fn fixed_rules(alloc: Global, family: Family, at: &ChainAt) -> Result<Shared<Rule>, NoMemory>
    ensures { IfOk result (λ rules. rules ≡ spec.fixed_rules family at.now) }
{
    let table = fixed_chains(alloc, &[family])?;
    match table.chain(at) {
        None => Shared::of(alloc, Items::new(alloc)),
        Some(rules) => rules.copy(alloc),
    }
}

/// How many of a chain's fixed rules stand before those of ports: all but the last, where that
/// jumps to KUBE-NODEPORTS.
pub fn place_of_ports(rules: &[Rule]) -> usize
    ensures { result ≡ spec.place_of_ports rules.now }
{
    match rules.last() {
        Some(rule) if goes_to_node_ports(rule) => rules.len() - 1,
        _ => rules.len(),
    }
}

/// Whether a rule jumps to KUBE-NODEPORTS.
fn goes_to_node_ports(rule: &Rule) -> bool
    ensures { result ≡ spec.goes_to_node_ports rule.now }
{
    match &rule.target {
        Target::Jump(chain) => chain.as_str() == "KUBE-NODEPORTS",
        _ => false,
    }
}
