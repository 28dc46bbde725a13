//! What of the objects that are found by a tag a look-up is for.
ghost use Rattle.std.specs.Prelude.{◌≡◌, map, IfOk};
ghost use Rattle.std.specs.List.{filter};
ghost use Rattle.kp_object_defs.specs.Desired as Desired;
ghost use Rattle.kp_store.specs.Destinations as spec;

use kp_base::{Address, Copied, Family, Items, NoMemory, PortNo, Proto};
use kp_desired::selects;
use kp_port_info::{balancer_of, external_of};
use kp_types::{ClusterAddress, Pod, Service};
use std::alloc::Global;

/// Copies of all.
pub fn copies<'a, X: Copied>(alloc: Global, found: &[&'a X]) -> Result<Items<X>, NoMemory>
    ensures { IfOk result (λ xs. xs ≡ map (λ x. x.now) found.now) }
{
    let mut copies = Vec::new(alloc);
    for object in found {
        copies.push(object.copy(alloc)?)?;
    }
    Ok(Items::from_vec(copies))
}

/// The Services that may answer at an address and number, or that have the number as a node port.
pub fn services_answering<'a>(
    alloc: Global,
    services: &[&'a Service],
    proto: Proto,
    address: &Address,
    number: PortNo,
) -> Result<Vec<&'a Service>, NoMemory>
    ensures { IfOk result (λ ss. map (λ s. s.now) ss.items
        ≡ filter (spec.answers proto address.now number) (map (λ s. s.now) services.now)) }
{
    let mut answering = Vec::new(alloc);
    for service in services {
        if answers(service, proto, address, number) {
            answering.push(*service)?;
        }
    }
    Ok(answering)
}

/// Whether a port of a Service may answer at an address and number, or has the number as its node
/// port.
fn answers(service: &Service, proto: Proto, address: &Address, number: PortNo) -> bool
    ensures { result ≡ spec.answers proto address.now number service.now }
{
    let has_address = is_address_of(service, address);
    service.ports.as_slice().iter().any(|port| {
        port.proto == proto
            && (port.port == number && has_address || is_node_port(port.node_port, number))
    })
}

/// Whether a number is the node port, if there is one.
fn is_node_port(node_port: Option<PortNo>, number: PortNo) -> bool
    ensures { result ≡ spec.is_node_port number node_port }
{
    match node_port {
        Some(own) => own == number,
        None => false,
    }
}

/// Whether an address is one of a Service.
fn is_address_of(service: &Service, address: &Address) -> bool
    ensures { result ≡ spec.is_address_of address.now service.now }
{
    is_address_in(Family::V4, service, address) || is_address_in(Family::V6, service, address)
}

/// Whether an address is one that a Service gives for a family.
fn is_address_in(family: Family, service: &Service, address: &Address) -> bool
    ensures { result ≡ spec.is_address_in family address.now service.now }
{
    is_cluster_address(family, service, address)
        || has_address(external_of(family, service), address)
        || has_address(balancer_of(family, service), address)
}

/// Whether an address is the cluster address that a Service gives for a family.
fn is_cluster_address(family: Family, service: &Service, address: &Address) -> bool
    ensures { result
        ≡ spec.has_address address.now (spec.cluster_addresses family service.now) }
{
    match (family, service.cluster, service.six.cluster) {
        (Family::V4, ClusterAddress::At(cluster), _) | (Family::V6, _, Some(cluster)) => {
            cluster == *address
        }
        _ => false,
    }
}

/// Whether an address is among addresses.
fn has_address(addresses: &[Address], address: &Address) -> bool
    ensures { result ≡ spec.has_address address.now addresses.now }
{
    addresses.iter().any(|one| *one == *address)
}

/// The pods that a Service selects.
pub fn pods_selected<'a>(
    alloc: Global,
    pods: &[&'a Pod],
    service: &Service,
) -> Result<Vec<&'a Pod>, NoMemory>
    ensures { IfOk result (λ ps. map (λ p. p.now) ps.items
        ≡ filter (Desired.selects service.now) (map (λ p. p.now) pods.now)) }
{
    let mut selected = Vec::new(alloc);
    for pod in pods {
        if selects(service, *pod) {
            selected.push(*pod)?;
        }
    }
    Ok(selected)
}
