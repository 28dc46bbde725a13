//! The endpoints that a Service wants of its pods.
ghost use Rattle.std.specs.Prelude.{◌≡◌, true, ◌++◌, map, IfOk, OnOk, option_and_then, option_copied};
ghost use Rattle.std.specs.FinMap.{values};
ghost use Rattle.std.specs.List.{filter_map};
ghost use Rattle.std.specs.Option.{option_to_list};
ghost use Rattle.kp_object_defs.specs.Desired as spec;
ghost use Rattle.kp_object_defs.specs.Desired.{desired_among, desired_endpoints_of};
ghost use Rattle.kp_object_defs.specs.Desired.{desired_in_zone, desired_of};
ghost use Rattle.kp_object_defs.specs.Objects.{Objects};
ghost use Rattle.kp_object_defs.specs.OwnKeys.{AreUnderOwnKeys};
ghost use Rattle.kp_object_defs.specs.PackingLaws.{have_own_pods, entries_name_pods};
ghost use Rattle.kp_object_laws.specs.ObjectLaws.{HaveSameElements};
ghost use Rattle.kp_desired.specs.ByName.{shown, zone_in};

use crate::order::selected_pods;
use crate::ports::resolved_ports;
use crate::zones::{nodes_by_name, zone_of_pod};
use kp_base::{Address, Copied, Family, Items, NoMemory, Text};
use kp_types::{Node, Pod, Service, SliceEndpoint, Wanted};
use std::alloc::Global;
use std::collections::BTreeMap;

/// The endpoints that a Service wants of pods in a family, on nodes, in order of the pods' names
/// (Kubernetes documents on EndpointSlices and on IPv4/IPv6 dual-stack). Pods and nodes stand in
/// any order; of selected pods of one name the last counts, and of nodes too. A pod that has
/// finished, has no address of the family or resolves no port gives no endpoint, and no pod gives
/// two; none does where the family isn't the Service's. Of the cluster's pods and nodes they are
/// the endpoints that the controller wants.
pub fn desired_endpoints(
    alloc: Global,
    service: &Service,
    family: Family,
    pods: &Items<Pod>,
    nodes: &Items<Node>,
) -> Result<Items<Wanted>, NoMemory>
    ensures exact { IfOk result (λ ws. ws ≡ desired_among family service.now pods.now nodes.now) }
    ensures of_objects { (o : Objects) → AreUnderOwnKeys o →
        HaveSameElements pods.now (values o.pods) → HaveSameElements nodes.now (values o.nodes) →
        IfOk result (λ ws. ws ≡ desired_endpoints_of family o service.now) }
    ensures own_pods { IfOk result (λ ws. have_own_pods ws ≡ true) }
    ensures named { IfOk result (λ ws. entries_name_pods ws ≡ true) }
{
    let by_name = nodes_by_name(alloc, nodes.as_slice())?;
    let pods = selected_pods(alloc, service, pods.as_slice())?;
    wanted_of(alloc, service, family, pods.as_slice(), &by_name)
}

/// The endpoints that a Service wants of pods, in their order.
fn wanted_of<'a>(
    alloc: Global,
    service: &Service,
    family: Family,
    pods: &[&'a Pod],
    nodes: &BTreeMap<&'a Text, &'a Node>,
) -> Result<Items<Wanted>, NoMemory>
    ensures { IfOk result (λ ws. ws ≡ filter_map
        (desired_of family (zone_in (shown nodes.now.entries)) service.now)
        (map (λ p. p.now) pods.now)) }
{
    let mut wanted = Vec::new(alloc);
    for pod in pods {
        add_wanted(alloc, &mut wanted, service, family, *pod, nodes)?;
    }
    Ok(Items::from_vec(wanted))
}

/// Adds the endpoint that a Service wants of a pod, if it wants one.
fn add_wanted<'a>(
    alloc: Global,
    wanted: &mut Vec<Wanted>,
    service: &Service,
    family: Family,
    pod: &'a Pod,
    nodes: &BTreeMap<&'a Text, &'a Node>,
) -> Result<(), NoMemory>
    ensures { OnOk result (wanted.new.items ≡ wanted.old.items ++ option_to_list
        (desired_of family (zone_in (shown nodes.now.entries)) service.now pod.now)) }
{
    let zone = zone_of_pod(nodes, pod);
    if let Some(endpoint) = desired_endpoint(alloc, service, family, pod, zone)? {
        wanted.push(endpoint)?;
    }
    Ok(())
}

/// The endpoint that a Service wants in a family of a pod that it selects, whose node has this zone
/// (Kubernetes documents on EndpointSlices): none where the family isn't the Service's, and none of
/// a pod that has finished, has no address of the family or resolves no port.
pub fn desired_endpoint(
    alloc: Global,
    service: &Service,
    family: Family,
    pod: &Pod,
    zone: Option<&Text>,
) -> Result<Option<Wanted>, NoMemory>
    ensures { IfOk result (λ w.
        w ≡ desired_in_zone family service.now pod.now (option_copied zone.entry)) }
{
    if !has_family(service, family) || pod.finished {
        return Ok(None);
    }
    match pod_address(pod, family) {
        Some(address) => wanted_at(alloc, service, pod, zone, address),
        None => Ok(None),
    }
}

/// Whether a family is one of the Service's.
pub fn has_family(service: &Service, family: Family) -> bool
    ensures { result ≡ spec.has_family family service.now }
{
    service
        .families
        .as_slice()
        .iter()
        .any(|other| *other == family)
}

/// The address of a pod in a family.
fn pod_address(pod: &Pod, family: Family) -> Option<Address>
    ensures { result ≡ spec.pod_address family pod.now }
{
    match family {
        Family::V4 => address_in(pod.address, Family::V4),
        Family::V6 => address_in(pod.address6, Family::V6),
    }
}

/// An address, if there is one and it is of the family.
fn address_in(address: Option<Address>, family: Family) -> Option<Address>
    ensures { result ≡ option_and_then (spec.address_in family) address }
{
    match address {
        Some(address) if address.family() == family => Some(address),
        _ => None,
    }
}

/// The endpoint of a pod at an address, if it resolves a port.
fn wanted_at(
    alloc: Global,
    service: &Service,
    pod: &Pod,
    zone: Option<&Text>,
    address: Address,
) -> Result<Option<Wanted>, NoMemory>
    ensures { IfOk result (λ w. w ≡ spec.with_ports pod.now
        (spec.entry_of service.now pod.now (option_copied zone.entry) address)
        (spec.resolved_ports service.now pod.now)) }
{
    let ports = resolved_ports(alloc, service, pod)?;
    if ports.as_slice().is_empty() {
        return Ok(None);
    }
    Ok(Some(Wanted {
        pod: pod.key.copy(alloc)?,
        ports: Items::from_vec(ports),
        entry: entry_of(alloc, service, pod, zone, address)?,
    }))
}

/// The entry of a pod at an address.
fn entry_of(
    alloc: Global,
    service: &Service,
    pod: &Pod,
    zone: Option<&Text>,
    address: Address,
) -> Result<SliceEndpoint, NoMemory>
    ensures { IfOk result (λ e.
        e ≡ spec.entry_of service.now pod.now (option_copied zone.entry) address) }
{
    Ok(SliceEndpoint {
        address: Some(address),
        ready: service.publish_not_ready || pod.ready && !pod.deleting,
        serving: pod.ready,
        terminating: pod.deleting,
        node: pod.node.copy(alloc)?,
        zone: copied(alloc, zone)?,
        hints: zone_hints(alloc, service.same_zone, zone)?,
        pod: Some(pod.key.copy(alloc)?),
    })
}

/// A copy of a zone, if there is one.
fn copied(alloc: Global, zone: Option<&Text>) -> Result<Option<Text>, NoMemory>
    ensures { IfOk result (λ copy. copy ≡ option_copied zone.entry) }
{
    match zone {
        Some(zone) => Ok(Some(zone.copy(alloc)?)),
        None => Ok(None),
    }
}

/// A hint to a zone, if there is one and hints are asked for.
fn zone_hints(alloc: Global, hinted: bool, zone: Option<&Text>) -> Result<Items<Text>, NoMemory>
    ensures { IfOk result (λ hints. hints ≡ spec.zone_hints hinted (option_copied zone.entry)) }
{
    match zone {
        Some(zone) if hinted => {
            let mut hints = Vec::new(alloc);
            hints.push(zone.copy(alloc)?)?;
            Ok(Items::from_vec(hints))
        }
        _ => Ok(Items::new(alloc)),
    }
}
