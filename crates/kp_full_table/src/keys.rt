//! The chains that ports need, by what they are for.
ghost use Rattle.std.specs.Prelude.{◌≡◌, ◌++◌, map, IfOk, OnOk};
ghost use Rattle.std.specs.List.{filter, flat_map};
ghost use Rattle.kp_base.specs.Keys.{endpoint_cmp};
ghost use Rattle.kp_choice_defs.specs.Names.{port_chain_place};
ghost use Rattle.kp_object_defs.specs.Order.{distinct_in_order};
ghost use Rattle.kp_table_defs.specs.Keys as own_spec;
ghost use Rattle.kp_table_defs.specs.Rebuild as spec;

use kp_base::{Copied, Endpoint, Items, NoMemory};
use kp_chains::{add_endpoint_keys, all_endpoints, chain_kinds, own_keys};
use kp_types::{ChainKey, PortChain, PortInfo};
use std::alloc::Global;
use std::collections::BTreeSet;

/// The keys of all chains that ports need: by kind, port and endpoint.
pub fn needed_keys(alloc: Global, infos: &[&PortInfo]) -> Result<Items<ChainKey>, NoMemory>
    ensures { IfOk result (λ keys. keys ≡ spec.needed_keys (map (λ i. i.now) infos.now)) }
{
    let own = all_own_keys(alloc, infos)?;
    let mut keys = Vec::new(alloc);
    add_by_kind(alloc, &mut keys, &chain_kinds(), &own)?;
    add_in_order(alloc, &mut keys, infos)?;
    Ok(Items::from_vec(keys))
}

/// The keys of all ports' own chains.
fn all_own_keys(alloc: Global, infos: &[&PortInfo]) -> Result<Vec<ChainKey>, NoMemory>
    ensures { IfOk result (λ own. own.items
        ≡ flat_map own_spec.own_keys (map (λ i. i.now) infos.now)) }
{
    let mut own = Vec::new(alloc);
    for info in infos {
        own.append(&mut own_keys(alloc, info)?)?;
    }
    Ok(own)
}

/// Adds those of keys that are of some kinds, by kind.
fn add_by_kind(
    alloc: Global,
    keys: &mut Vec<ChainKey>,
    kinds: &[PortChain],
    own: &[ChainKey],
) -> Result<(), NoMemory>
    ensures { OnOk result (keys.new.items ≡ keys.old.items
        ++ flat_map (λ kind. filter (spec.is_of_kind kind) own.now) kinds.now) }
{
    for kind in kinds {
        add_of_kind(alloc, keys, *kind, own)?;
    }
    Ok(())
}

/// Adds those of keys that are of a kind.
fn add_of_kind(
    alloc: Global,
    keys: &mut Vec<ChainKey>,
    kind: PortChain,
    own: &[ChainKey],
) -> Result<(), NoMemory>
    ensures { OnOk result (keys.new.items
        ≡ keys.old.items ++ filter (spec.is_of_kind kind) own.now) }
{
    for key in own {
        if is_of_kind(kind, key) {
            keys.push(key.copy(alloc)?)?;
        }
    }
    Ok(())
}

/// Whether a chain is a port's of a kind.
fn is_of_kind(kind: PortChain, key: &ChainKey) -> bool
    ensures { result ≡ spec.is_of_kind kind key.now }
{
    match key {
        ChainKey::Port {
            kind: other,
            port: _,
        } => place(kind) == place(*other),
        ChainKey::Sep {
            port: _,
            endpoint: _,
        } => false,
    }
}

/// The place of a kind among all.
fn place(kind: PortChain) -> u8
    ensures { result ≡ port_chain_place kind }
{
    match kind {
        PortChain::Svc => 0,
        PortChain::Svl => 1,
        PortChain::Ext => 2,
        PortChain::Fw => 3,
    }
}

/// Adds the keys of the chains of all ports' endpoints, those of each port in order.
fn add_in_order(
    alloc: Global,
    keys: &mut Vec<ChainKey>,
    infos: &[&PortInfo],
) -> Result<(), NoMemory>
    ensures { OnOk result (keys.new.items
        ≡ keys.old.items ++ flat_map spec.endpoint_keys (map (λ i. i.now) infos.now)) }
{
    for info in infos {
        add_keys_of(alloc, keys, info)?;
    }
    Ok(())
}

/// Adds the keys of the chains of a port's endpoints, in order.
fn add_keys_of(alloc: Global, keys: &mut Vec<ChainKey>, info: &PortInfo) -> Result<(), NoMemory>
    ensures { OnOk result (keys.new.items ≡ keys.old.items ++ spec.endpoint_keys info.now) }
{
    let endpoints = in_order(alloc, all_endpoints(alloc, info)?)?;
    add_endpoint_keys(alloc, keys, &info.key, &endpoints)
}

/// Endpoints once each, in order.
fn in_order(alloc: Global, endpoints: Vec<Endpoint>) -> Result<Vec<Endpoint>, NoMemory>
    ensures { IfOk result (λ es. es.items ≡ distinct_in_order endpoint_cmp endpoints.items) }
{
    let set = set_of(alloc, endpoints)?;
    Ok(set.into_iter().collect(alloc)?)
}

fn set_of(alloc: Global, mut endpoints: Vec<Endpoint>) -> Result<BTreeSet<Endpoint>, NoMemory>
    ensures { IfOk result (λ s. s.keys ≡ distinct_in_order endpoint_cmp endpoints.items) }
{
    let mut seen = BTreeSet::new(alloc);
    while let Some(endpoint) = endpoints.pop() {
        seen.insert(endpoint)?;
    }
    Ok(seen)
}
