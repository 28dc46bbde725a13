//! The destinations of a Service port in a family, each once.
ghost use Rattle.std.specs.Prelude.{◌≡◌, IfOk, option_copied};
ghost use Rattle.std.specs.List.{filter};
ghost use Rattle.kp_base.specs.Net.{same_family};
ghost use Rattle.kp_object_defs.specs.Desired as desired;
ghost use Rattle.kp_object_defs.specs.PortInfo as spec;

use crate::once::once;
use kp_base::{Address, Cidr, Family, Items, NoMemory, PortNo};
use kp_types::{ClusterAddress, Service, ServiceKind, ServicePort};
use std::alloc::Global;

/// The cluster address that a Service gives for a family.
pub fn cluster_of(family: Family, service: &Service) -> Option<Address>
    ensures { result ≡ spec.cluster_of_family family service.now }
{
    match family {
        Family::V4 => match service.cluster {
            ClusterAddress::At(address) => address_in(family, address),
            ClusterAddress::Absent | ClusterAddress::Headless => None,
        },
        Family::V6 => match service.six.cluster {
            Some(address) => address_in(family, address),
            None => None,
        },
    }
}

/// An address, where it is of the family.
fn address_in(family: Family, address: Address) -> Option<Address>
    ensures { result ≡ desired.address_in family address }
{
    if address.family() == family {
        Some(address)
    } else {
        None
    }
}

/// The external addresses that a Service gives for a family.
pub fn external_of(family: Family, service: &Service) -> &[Address]
    ensures { result.now ≡ spec.external_of family service.now }
{
    match family {
        Family::V4 => service.external.as_slice(),
        Family::V6 => service.six.external.as_slice(),
    }
}

/// The load balancer's addresses that it gives.
pub fn balancer_of(family: Family, service: &Service) -> &[Address]
    ensures { result.now ≡ spec.balancer_of family service.now }
{
    match family {
        Family::V4 => service.balancer.as_slice(),
        Family::V6 => service.six.balancer.as_slice(),
    }
}

/// The source ranges that it gives, where sources are restricted in either family.
pub fn ranges_of(family: Family, service: &Service) -> Option<&[Cidr]>
    ensures { option_copied result ≡ spec.ranges_of family service.now }
{
    match (family, &service.ranges) {
        (Family::V4, Some(ranges)) => Some(ranges.as_slice()),
        (Family::V6, Some(_)) => Some(service.six.ranges.as_slice()),
        (_, None) => None,
    }
}

/// The node port of a port, where it counts.
pub fn node_port_of(service: &Service, port: &ServicePort) -> Option<PortNo>
    ensures { result ≡ spec.node_port_of service.now port.now }
{
    match service.kind {
        ServiceKind::NodePort | ServiceKind::LoadBalancer => port.node_port,
        ServiceKind::ClusterIp | ServiceKind::ExternalName => None,
    }
}

/// The load-balancer addresses of a Service in a family, where they count.
pub fn balancer_in(
    alloc: Global,
    family: Family,
    service: &Service,
) -> Result<Items<Address>, NoMemory>
    ensures { IfOk result (λ found. found ≡ spec.balancer_in family service.now) }
{
    match service.kind {
        ServiceKind::LoadBalancer => addresses_in(alloc, family, balancer_of(family, service)),
        _ => Ok(Items::new(alloc)),
    }
}

/// The addresses of a family, each once.
pub fn addresses_in(
    alloc: Global,
    family: Family,
    addresses: &[Address],
) -> Result<Items<Address>, NoMemory>
    ensures { IfOk result (λ found. found ≡ spec.addresses_in family addresses.now) }
{
    let of_family = addresses_of_family(alloc, family, addresses)?;
    Ok(Items::from_vec(once(alloc, &of_family)?))
}

fn addresses_of_family(
    alloc: Global,
    family: Family,
    addresses: &[Address],
) -> Result<Vec<Address>, NoMemory>
    ensures { IfOk result (λ found.
        found.items ≡ filter (λ a. same_family a.family family) addresses.now) }
{
    let found: Vec<Address> = addresses
        .iter()
        .copied()
        .filter(|address| address.family() == family)
        .collect(alloc)?;
    Ok(found)
}

/// The source ranges of a family, each once, where there is a restriction.
pub fn restriction_in(
    alloc: Global,
    family: Family,
    ranges: Option<&[Cidr]>,
) -> Result<Option<Items<Cidr>>, NoMemory>
    ensures { IfOk result (λ found.
        found ≡ spec.restriction_in family (option_copied ranges.entry)) }
{
    match ranges {
        Some(ranges) => Ok(Some(ranges_in(alloc, family, ranges)?)),
        None => Ok(None),
    }
}

/// The ranges of a family, each once.
fn ranges_in(alloc: Global, family: Family, ranges: &[Cidr]) -> Result<Items<Cidr>, NoMemory>
    ensures { IfOk result (λ found. found ≡ spec.ranges_in family ranges.now) }
{
    let of_family = ranges_of_family(alloc, family, ranges)?;
    Ok(Items::from_vec(once(alloc, &of_family)?))
}

fn ranges_of_family(alloc: Global, family: Family, ranges: &[Cidr]) -> Result<Vec<Cidr>, NoMemory>
    ensures { IfOk result (λ found.
        found.items ≡ filter (λ r. same_family r.base.family family) ranges.now) }
{
    let found: Vec<Cidr> = ranges
        .iter()
        .copied()
        .filter(|range| range.base().family() == family)
        .collect(alloc)?;
    Ok(found)
}
