//! The lists of endpoints that a Service port may send to.
ghost use Rattle.std.specs.Prelude.{◌≡◌, true, map, IfOk, option_copied};
ghost use Rattle.std.specs.List.{filter, list_all, list_any};
ghost use Rattle.kp_base.specs.declared.address.Family.{Family};
ghost use Rattle.kp_object_defs.specs.Entries.{family_among, is_of_family};
ghost use Rattle.kp_object_defs.specs.Lists as spec;
ghost use Rattle.kp_object_defs.specs.Lists.{is_serving_terminating, has_any_endpoint, used};
ghost use Rattle.kp_object_defs.specs.PortInfo.{lists_of};

use crate::reach::is_reachable;
use crate::topology::ready_endpoints;
use kp_base::{Endpoint, Family, Items, NoMemory, Text};
use kp_types::{Candidate, Lists, Policy, Service, ServicePort};
use std::alloc::Global;

/// The endpoints that a port may send to, of all its endpoints, on a node in a zone (Kubernetes
/// documents on virtual IPs, traffic policies and topology hints). All endpoints are of one family,
/// and whether the port may be reached from outside is asked in this family.
pub fn categorise(
    alloc: Global,
    service: &Service,
    port: &ServicePort,
    endpoints: &Items<Candidate>,
    zone: Option<&Text>,
) -> Result<Lists, NoMemory>
    ensures ok { IfOk result (λ lists. lists ≡ lists_of (family_among endpoints.now)
        service.now port.now (option_copied zone.entry) endpoints.now) }
    ensures family { (family : Family) → list_all (is_of_family family) endpoints.now ≡ true →
        IfOk result (λ lists. lists ≡ lists_of family
        service.now port.now (option_copied zone.entry) endpoints.now) }
{
    let endpoints = endpoints.as_slice();
    lists_in(
        alloc,
        family_among(endpoints),
        service,
        port,
        endpoints,
        zone,
    )
}

/// The endpoints that a port may send to, where it is reached from outside in this family.
fn lists_in(
    alloc: Global,
    family: Family,
    service: &Service,
    port: &ServicePort,
    endpoints: &[Candidate],
    zone: Option<&Text>,
) -> Result<Lists, NoMemory>
    ensures { IfOk result (λ lists. lists
        ≡ lists_of family service.now port.now (option_copied zone.entry) endpoints.now) }
{
    let reachable = is_reachable(family, service, port);
    let inner_local = service.internal == Policy::Local;
    let outer_local = service.outer == Policy::Local;
    Ok(Lists {
        cluster: cluster_list(alloc, !inner_local || reachable, zone, endpoints)?,
        local: local_list(alloc, inner_local || reachable && outer_local, endpoints)?,
        has_any: has_any_endpoint(endpoints),
    })
}

/// The family of endpoints, of which all have the same.
fn family_among(endpoints: &[Candidate]) -> Family
    ensures { result ≡ family_among endpoints.now }
{
    match endpoints.first() {
        Some(endpoint) => endpoint.endpoint.address.family(),
        None => Family::V4,
    }
}

/// The endpoints of the whole cluster, where they are used.
fn cluster_list(
    alloc: Global,
    is_used: bool,
    zone: Option<&Text>,
    endpoints: &[Candidate],
) -> Result<Items<Endpoint>, NoMemory>
    ensures { IfOk result (λ es.
        es ≡ used is_used (spec.cluster_endpoints (option_copied zone.entry) endpoints.now)) }
{
    if is_used {
        cluster_endpoints(alloc, zone, endpoints)
    } else {
        Ok(Items::new(alloc))
    }
}

/// The endpoints of this node, where they are used.
fn local_list(
    alloc: Global,
    is_used: bool,
    endpoints: &[Candidate],
) -> Result<Items<Endpoint>, NoMemory>
    ensures { IfOk result (λ es. es ≡ used is_used (spec.local_endpoints endpoints.now)) }
{
    if is_used {
        local_endpoints(alloc, endpoints)
    } else {
        Ok(Items::new(alloc))
    }
}

/// The ready endpoints by topology, or where there are none those that still serve.
fn cluster_endpoints(
    alloc: Global,
    zone: Option<&Text>,
    endpoints: &[Candidate],
) -> Result<Items<Endpoint>, NoMemory>
    ensures { IfOk result (λ es. es ≡ map (λ c. c.endpoint)
        (spec.cluster_endpoints (option_copied zone.entry) endpoints.now)) }
{
    let ready = ready_endpoints(alloc, zone, endpoints)?;
    if ready.is_empty() {
        serving_terminating(alloc, endpoints)
    } else {
        Ok(Items::from_vec(ready))
    }
}

/// The ready endpoints of this node, or where there are none those of it that still serve.
fn local_endpoints(alloc: Global, endpoints: &[Candidate]) -> Result<Items<Endpoint>, NoMemory>
    ensures { IfOk result (λ es. es ≡ map (λ c. c.endpoint) (spec.local_endpoints endpoints.now)) }
{
    let ready = ready_here(alloc, endpoints)?;
    if ready.is_empty() {
        serving_here(alloc, endpoints)
    } else {
        Ok(Items::from_vec(ready))
    }
}

/// The endpoints that still serve while they terminate.
fn serving_terminating(alloc: Global, endpoints: &[Candidate]) -> Result<Items<Endpoint>, NoMemory>
    ensures { IfOk result (λ es.
        es ≡ map (λ c. c.endpoint) (filter is_serving_terminating endpoints.now)) }
{
    let mut found = Vec::new(alloc);
    for endpoint in endpoints {
        if endpoint.serving && endpoint.terminating {
            found.push(endpoint.endpoint)?;
        }
    }
    Ok(Items::from_vec(found))
}

/// The ready endpoints of this node.
fn ready_here(alloc: Global, endpoints: &[Candidate]) -> Result<Vec<Endpoint>, NoMemory>
    ensures { IfOk result (λ es. es.items ≡ map (λ c. c.endpoint)
        (filter spec.is_ready (filter (λ c. c.local) endpoints.now))) }
{
    let mut found = Vec::new(alloc);
    for endpoint in endpoints {
        if endpoint.local && endpoint.ready {
            found.push(endpoint.endpoint)?;
        }
    }
    Ok(found)
}

/// The endpoints of this node that still serve while they terminate.
fn serving_here(alloc: Global, endpoints: &[Candidate]) -> Result<Items<Endpoint>, NoMemory>
    ensures { IfOk result (λ es. es ≡ map (λ c. c.endpoint)
        (filter is_serving_terminating (filter (λ c. c.local) endpoints.now))) }
{
    let mut found = Vec::new(alloc);
    for endpoint in endpoints {
        if endpoint.local && endpoint.serving && endpoint.terminating {
            found.push(endpoint.endpoint)?;
        }
    }
    Ok(Items::from_vec(found))
}

/// Whether some endpoint is ready, or still serves.
fn has_any_endpoint(endpoints: &[Candidate]) -> bool
    ensures { result ≡ spec.has_any_endpoint endpoints.now }
{
    endpoints.iter().any(|endpoint| endpoint.ready || endpoint.serving && endpoint.terminating)
}
