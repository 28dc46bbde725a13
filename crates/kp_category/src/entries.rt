//! The endpoints of a Service port, each address and port once.
ghost use Rattle.std.specs.Prelude.{◌≡◌, true, ◌++◌, map, IfOk, OnOk};
ghost use Rattle.std.specs.List.{filter, filter_map, flat_map, list_all};
ghost use Rattle.std.specs.Option.{option_to_list};
ghost use Rattle.kp_types.specs.Setting.{both_families};
ghost use Rattle.kp_object_defs.specs.Entries as spec;
ghost use Rattle.kp_object_defs.specs.Entries.{candidates_from, wanted_candidate};
ghost use Rattle.kp_object_defs.specs.Entries.{slice_candidates, is_of_family};
ghost use Rattle.kp_object_laws.specs.ListLaws.{are_in_order};
ghost use Rattle.kp_category.specs.Count as Count;
ghost use Rattle.kp_category.specs.Count.{counted_with};

use kp_base::{Copied, Endpoint, Family, Items, NoMemory, PortKey, PortNo, Proto, Text};
use kp_types::{AddressType, Candidate, Slice, SliceEndpoint, SlicePort, Wanted};
use std::alloc::Global;
use std::collections::BTreeMap;

/// The endpoints of a port in both families, of the endpoints that the controller wants for its
/// Service and of slices, in this order (Kubernetes documents on EndpointSlices, "Duplicate
/// endpoints"). The IPv4 endpoints stand before those of IPv6, and those of a family in order of
/// address and port, each once. Of entries with one address and port the last one on this node
/// counts, or else the first.
pub fn candidates(
    alloc: Global,
    port: &PortKey,
    wanted: &Items<Wanted>,
    slices: &[&Slice],
    node: &Text,
) -> Result<Items<Candidate>, NoMemory>
    ensures ok { IfOk result (λ cs. cs ≡ flat_map (λ family. spec.counted_once (candidates_from
        family node.now port.now wanted.now (map (λ s. s.now) slices.now))) both_families) }
    ensures in_order { IfOk result (λ cs. are_in_order cs ≡ true) }
{
    let mut both = candidates_of(alloc, Family::V4, port, wanted, slices, node)?.into_vec();
    let six = candidates_of(alloc, Family::V6, port, wanted, slices, node)?;
    both.append(&mut six.into_vec())?;
    Ok(Items::from_vec(both))
}

/// The endpoints of a port in a family: its part of those of both families.
pub fn candidates_of(
    alloc: Global,
    family: Family,
    port: &PortKey,
    wanted: &Items<Wanted>,
    slices: &[&Slice],
    node: &Text,
) -> Result<Items<Candidate>, NoMemory>
    ensures ok { IfOk result (λ cs. cs ≡ spec.counted_once
        (candidates_from family node.now port.now wanted.now (map (λ s. s.now) slices.now))) }
    ensures family { IfOk result (λ cs. list_all (is_of_family family) cs ≡ true) }
    ensures in_order { IfOk result (λ cs. are_in_order cs ≡ true) }
{
    let found = all_candidates(alloc, family, port, wanted.as_slice(), slices, node)?;
    counted_once(alloc, found)
}

/// Those of endpoints that are of a family, in their order.
pub fn of_family(
    alloc: Global,
    endpoints: &Items<Candidate>,
    family: Family,
) -> Result<Items<Candidate>, NoMemory>
    ensures { IfOk result (λ cs. cs ≡ filter (is_of_family family) endpoints.now) }
{
    let mut found = Vec::new(alloc);
    for candidate in endpoints.as_slice() {
        if candidate.endpoint.address.family() == family {
            found.push(candidate.copy(alloc)?)?;
        }
    }
    Ok(Items::from_vec(found))
}

/// The candidates of wanted endpoints and of slices in a family, in this order.
fn all_candidates(
    alloc: Global,
    family: Family,
    port: &PortKey,
    wanted: &[Wanted],
    slices: &[&Slice],
    node: &Text,
) -> Result<Vec<Candidate>, NoMemory>
    ensures { IfOk result (λ cs. cs.items
        ≡ candidates_from family node.now port.now wanted.now (map (λ s. s.now) slices.now)) }
{
    let mut found = Vec::new(alloc);
    add_wanted(alloc, family, &mut found, port, wanted, node)?;
    for slice in slices {
        add_slice(alloc, family, &mut found, port, *slice, node)?;
    }
    Ok(found)
}

/// Adds the candidates of wanted endpoints.
fn add_wanted(
    alloc: Global,
    family: Family,
    found: &mut Vec<Candidate>,
    port: &PortKey,
    wanted: &[Wanted],
    node: &Text,
) -> Result<(), NoMemory>
    ensures { OnOk result (found.new.items
        ≡ found.old.items ++ filter_map (wanted_candidate family node.now port.now) wanted.now) }
{
    for endpoint in wanted {
        let number = number_at(&port.port_name, port.proto, endpoint.ports.as_slice());
        add_endpoint(alloc, family, found, &number, &endpoint.entry, node)?;
    }
    Ok(())
}

/// Adds the candidates of a slice.
fn add_slice(
    alloc: Global,
    family: Family,
    found: &mut Vec<Candidate>,
    port: &PortKey,
    slice: &Slice,
    node: &Text,
) -> Result<(), NoMemory>
    ensures { OnOk result (found.new.items
        ≡ found.old.items ++ slice_candidates family node.now port.now slice.now) }
{
    if is_type_of(family, slice.family) {
        let number = number_at(&port.port_name, port.proto, slice.ports.as_slice());
        add_endpoints(
            alloc,
            family,
            found,
            &number,
            slice.endpoints.as_slice(),
            node,
        )
    } else {
        Ok(())
    }
}

/// Whether slices of an address type have endpoints of a family.
fn is_type_of(family: Family, addresses: AddressType) -> bool
    ensures { result ≡ spec.is_type_of family addresses }
{
    match (family, addresses) {
        (Family::V4, AddressType::Ipv4) | (Family::V6, AddressType::Ipv6) => true,
        _ => false,
    }
}

/// Adds the candidates of endpoints of one port number.
fn add_endpoints(
    alloc: Global,
    family: Family,
    found: &mut Vec<Candidate>,
    number: &Option<PortNo>,
    endpoints: &[SliceEndpoint],
    node: &Text,
) -> Result<(), NoMemory>
    ensures { OnOk result (found.new.items ≡ found.old.items
        ++ filter_map (spec.candidate_of family node.now number.now) endpoints.now) }
{
    for endpoint in endpoints {
        add_endpoint(alloc, family, found, number, endpoint, node)?;
    }
    Ok(())
}

/// Adds the candidate of an endpoint, where there is one.
fn add_endpoint(
    alloc: Global,
    family: Family,
    found: &mut Vec<Candidate>,
    number: &Option<PortNo>,
    endpoint: &SliceEndpoint,
    node: &Text,
) -> Result<(), NoMemory>
    ensures { OnOk result (found.new.items ≡ found.old.items
        ++ option_to_list (spec.candidate_of family node.now number.now endpoint.now)) }
{
    if let Some(candidate) = candidate_of(alloc, family, number, endpoint, node)? {
        found.push(candidate)?;
    }
    Ok(())
}

/// The candidate of an endpoint, where it has an address of the family and its port has a number.
fn candidate_of(
    alloc: Global,
    family: Family,
    number: &Option<PortNo>,
    endpoint: &SliceEndpoint,
    node: &Text,
) -> Result<Option<Candidate>, NoMemory>
    ensures { IfOk result (λ c. c ≡ spec.candidate_of family node.now number.now endpoint.now) }
{
    match (*number, endpoint.address) {
        (Some(port), Some(address)) if address.family() == family => Ok(Some(Candidate {
            endpoint: Endpoint { address, port },
            ready: endpoint.ready,
            serving: endpoint.serving,
            terminating: endpoint.terminating,
            local: is_on_node(node, &endpoint.node),
            hints: endpoint.hints.copy(alloc)?,
        })),
        _ => Ok(None),
    }
}

fn is_on_node(node: &Text, name: &Option<Text>) -> bool
    ensures { result ≡ spec.is_on_node node.now name.now }
{
    match name {
        Some(name) => *name == *node,
        None => false,
    }
}

/// The number of the first port of this name and protocol that has one.
fn number_at(name: &Text, proto: Proto, ports: &[SlicePort]) -> Option<PortNo>
    ensures { result ≡ spec.number_at name.now proto ports.now }
{
    for port in ports {
        if let Some(number) = number_if(name, proto, port) {
            return Some(number);
        }
    }
    None
}

/// The number of a port of this name and protocol.
fn number_if(name: &Text, proto: Proto, port: &SlicePort) -> Option<PortNo>
    ensures { result ≡ spec.number_if name.now proto port.now }
{
    if port.name == *name && port.proto == proto {
        port.port
    } else {
        None
    }
}

/// Each address and port once, in order.
fn counted_once(alloc: Global, found: Vec<Candidate>) -> Result<Items<Candidate>, NoMemory>
    ensures { IfOk result (λ cs. cs ≡ spec.counted_once found.items) }
{
    let mut counted = BTreeMap::new(alloc);
    for candidate in found {
        count(&mut counted, candidate)?;
    }
    Ok(Items::from_vec(counted.into_values().collect(alloc)?))
}

/// Counts a candidate, where it counts.
fn count(counted: &mut BTreeMap<Endpoint, Candidate>, candidate: Candidate) -> Result<(), NoMemory>
    ensures { OnOk result (counted.new.entries ≡ counted_with counted.old.entries candidate) }
{
    if counts(counted, &candidate) {
        counted.insert(candidate.endpoint, candidate)?;
    }
    Ok(())
}

/// Whether a candidate is on this node, or none with its address and port was counted before.
fn counts(counted: &BTreeMap<Endpoint, Candidate>, candidate: &Candidate) -> bool
    ensures { result ≡ Count.counts counted.now.entries candidate.now }
{
    match counted.get(&candidate.endpoint) {
        Some(_) => candidate.local,
        None => true,
    }
}
