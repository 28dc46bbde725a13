//! What the proxy knows of one Service port in a family.
ghost use Rattle.std.specs.Prelude.{◌≡◌, IfOk};
ghost use Rattle.kp_object_defs.specs.PortInfo as spec;
ghost use Rattle.kp_port_info.specs.Infos.{info_with, known_of};

use crate::destinations::{
    addresses_in, balancer_in, cluster_of, external_of, node_port_of, ranges_of, restriction_in,
};
use kp_base::{Address, Copied, Family, NoMemory, PortKey};
use kp_types::{Lists, PortInfo, Service, ServiceKind, ServicePort};
use std::alloc::Global;

/// What the proxy knows of a port with these lists, where its Service has a cluster address of the
/// family.
pub fn port_info(
    alloc: Global,
    family: Family,
    service: &Service,
    port: &ServicePort,
    lists: Lists,
) -> Result<Option<PortInfo>, NoMemory>
    ensures { IfOk result (λ i. i ≡ known_of family service.now port.now lists) }
{
    match cluster_address(family, service) {
        Some(address) => Ok(Some(info_at(alloc, family, service, port, lists, address)?)),
        None => Ok(None),
    }
}

/// The cluster address of a Service in a family, if it has one. What is only another name has none.
pub fn cluster_address(family: Family, service: &Service) -> Option<Address>
    ensures { result ≡ spec.cluster_address_in family service.now }
{
    match service.kind {
        ServiceKind::ExternalName => None,
        _ => cluster_of(family, service),
    }
}

/// What the proxy knows of a port with these lists, at a cluster address.
pub fn info_at(
    alloc: Global,
    family: Family,
    service: &Service,
    port: &ServicePort,
    lists: Lists,
    address: Address,
) -> Result<PortInfo, NoMemory>
    ensures { IfOk result (λ i. i ≡ info_with family service.now port.now lists address) }
{
    let key = port_key_of(alloc, service, port)?;
    let external = addresses_in(alloc, family, external_of(family, service))?;
    let balancer = balancer_in(alloc, family, service)?;
    let ranges = restriction_in(alloc, family, ranges_of(family, service))?;
    Ok(PortInfo {
        key,
        number: port.port,
        address,
        external,
        balancer,
        node_port: node_port_of(service, port),
        ranges,
        affinity: service.affinity,
        internal: service.internal,
        outer: service.outer,
        lists,
    })
}

/// The name of a port of a Service.
pub fn port_key_of(
    alloc: Global,
    service: &Service,
    port: &ServicePort,
) -> Result<PortKey, NoMemory>
    ensures { IfOk result (λ key. key ≡ spec.port_key_of service.now port.now) }
{
    Ok(PortKey {
        object: service.key.copy(alloc)?,
        port_name: port.name.copy(alloc)?,
        proto: port.proto,
    })
}
