//! The zones of nodes.
ghost use Rattle.std.specs.Prelude.{◌≡◌, IfOk, option_and_then, option_copied};
ghost use Rattle.kp_base.specs.Keys.{text_cmp};
ghost use Rattle.kp_object_defs.specs.Order.{by_key};
ghost use Rattle.kp_desired.specs.ByName.{shown, zone_in};

use kp_base::{NoMemory, Text};
use kp_types::{Node, Pod};
use std::alloc::Global;
use std::collections::BTreeMap;

/// The nodes by their names. Of nodes of one name the last counts.
pub fn nodes_by_name<'a>(
    alloc: Global,
    nodes: &'a [Node],
) -> Result<BTreeMap<&'a Text, &'a Node>, NoMemory>
    ensures { IfOk result (λ by_name. shown by_name.entries
        ≡ by_key text_cmp (λ n. n.name) nodes.now) }
{
    let mut by_name = BTreeMap::new(alloc);
    for node in nodes {
        by_name.insert(&node.name, node)?;
    }
    Ok(by_name)
}

/// The zone of a pod's node, if it has both.
pub fn zone_of_pod<'a>(nodes: &BTreeMap<&'a Text, &'a Node>, pod: &'a Pod) -> Option<&'a Text>
    ensures { option_copied result
        ≡ option_and_then (zone_in (shown nodes.now.entries)) pod.now.node }
{
    match &pod.node {
        Some(name) => zone_of(nodes, name),
        None => None,
    }
}

/// The zone of the node of a name, if it has one.
fn zone_of<'a>(nodes: &BTreeMap<&'a Text, &'a Node>, name: &'a Text) -> Option<&'a Text>
    ensures { option_copied result ≡ zone_in (shown nodes.now.entries) name.now }
{
    match nodes.get(&name) {
        Some(node) => node.zone.as_ref(),
        None => None,
    }
}
