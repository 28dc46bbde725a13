//! Which chains a port needs, by their keys.
ghost use Rattle.std.specs.Prelude.{◌≡◌, ◌++◌, map, IfOk, OnOk, OnErr};
ghost use Rattle.kp_object_defs.specs.PortInfo as spec;
ghost use Rattle.kp_types.specs.declared.chain.ChainKey.TheVariants as key;
ghost use Rattle.kp_table_defs.specs.Keys as keys;

use crate::endpoints::all_endpoints;
use kp_base::{Copied, Endpoint, NoMemory, PortKey};
use kp_types::{ChainKey, PortChain, PortInfo};
use std::alloc::Global;

/// The kinds of a port's chains, in the order of its rows.
pub fn chain_kinds() -> [PortChain; 4]
    ensures { result ≡ keys.chain_kinds }
{
    [
        PortChain::Svc,
        PortChain::Svl,
        PortChain::Ext,
        PortChain::Fw,
    ]
}

/// Whether the port may be reached from outside the cluster.
pub fn is_accessible(info: &PortInfo) -> bool
    ensures { result ≡ spec.is_accessible info.now }
{
    !info.external.as_slice().is_empty()
        || !info.balancer.as_slice().is_empty()
        || info.node_port.is_some()
}

/// Whether the port has source ranges, a load-balancer address and an endpoint that serves.
pub fn has_firewall(info: &PortInfo) -> bool
    ensures { result ≡ keys.has_firewall info.now }
{
    info.ranges.is_some() && !info.balancer.as_slice().is_empty() && info.lists.has_any
}

/// Whether a port needs its chain of a kind.
pub fn needs(kind: PortChain, info: &PortInfo) -> bool
    ensures { result ≡ keys.needs kind info.now }
{
    match kind {
        PortChain::Svc => !info.lists.cluster.as_slice().is_empty(),
        PortChain::Svl => !info.lists.local.as_slice().is_empty(),
        PortChain::Ext => is_accessible(info) && info.lists.has_any,
        PortChain::Fw => has_firewall(info),
    }
}

/// The kinds of chains that a port needs, in the order of its rows.
pub fn needed_kinds(alloc: Global, info: &PortInfo) -> Result<Vec<PortChain>, NoMemory>
    ensures { IfOk result (λ kinds. kinds.items ≡ keys.needed_kinds info.now) }
{
    Ok(
        chain_kinds()
            .iter()
            .copied()
            .filter(|kind| needs(*kind, info))
            .collect(alloc)?,
    )
}

/// The keys of a port's own chains, in the order of its rows: of each kind that it needs, and of
/// its endpoints.
pub fn own_keys(alloc: Global, info: &PortInfo) -> Result<Vec<ChainKey>, NoMemory>
    ensures { IfOk result (λ own. own.items ≡ keys.own_keys info.now) }
{
    let mut own = Vec::new(alloc);
    add_kind_keys(alloc, &mut own, &info.key, &needed_kinds(alloc, info)?)?;
    add_endpoint_keys(alloc, &mut own, &info.key, &all_endpoints(alloc, info)?)?;
    Ok(own)
}

/// Adds the keys of a port's chains of some kinds.
fn add_kind_keys(
    alloc: Global,
    own: &mut Vec<ChainKey>,
    port: &PortKey,
    kinds: &[PortChain],
) -> Result<(), NoMemory>
    ensures { OnOk result (own.new.items
        ≡ own.old.items ++ map (λ kind. key.Port kind port.now) kinds.now) }
{
    for kind in kinds {
        let kind = *kind;
        let port = port.copy(alloc)?;
        own.push(ChainKey::Port { kind, port })?;
    }
    Ok(())
}

/// Adds the keys of the chains of endpoints of a port. Without memory the keys stay.
pub fn add_endpoint_keys(
    alloc: Global,
    own: &mut Vec<ChainKey>,
    port: &PortKey,
    endpoints: &[Endpoint],
) -> Result<(), NoMemory>
    ensures keys { OnOk result (own.new.items
        ≡ own.old.items ++ map (key.Sep port.now) endpoints.now) }
    ensures kept { OnErr result (own.new.items ≡ own.old.items) }
{
    let mut keys = endpoint_keys(alloc, port, endpoints)?;
    Ok(own.append(&mut keys)?)
}

/// The keys of the chains of endpoints of a port.
fn endpoint_keys(
    alloc: Global,
    port: &PortKey,
    endpoints: &[Endpoint],
) -> Result<Vec<ChainKey>, NoMemory>
    ensures { IfOk result (λ keys. keys.items ≡ map (key.Sep port.now) endpoints.now) }
{
    let mut keys = Vec::new(alloc);
    for endpoint in endpoints {
        let endpoint = *endpoint;
        let port = port.copy(alloc)?;
        keys.push(ChainKey::Sep { port, endpoint })?;
    }
    Ok(keys)
}
