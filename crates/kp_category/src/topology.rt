//! Topology hints, and which of the ready endpoints a node uses by them.
ghost use Rattle.std.specs.Prelude.{◌≡◌, ◌&&◌, ◌||◌, not, map, IfOk, Some, option_copied};
ghost use Rattle.std.specs.List.{filter, list_all, list_any};
ghost use Rattle.kp_object_defs.specs.Lists as spec;
ghost use Rattle.kp_object_defs.specs.Lists.{is_ready, topology_filtered};

use kp_base::{Endpoint, NoMemory, Text};
use kp_types::Candidate;
use std::alloc::Global;

/// The ready endpoints, filtered by their hints where these apply.
pub fn ready_endpoints(
    alloc: Global,
    zone: Option<&Text>,
    endpoints: &[Candidate],
) -> Result<Vec<Endpoint>, NoMemory>
    ensures { IfOk result (λ es. es.items ≡ map (λ c. c.endpoint)
        (topology_filtered (option_copied zone.entry) (filter is_ready endpoints.now))) }
{
    match zone {
        Some(zone) if hints_apply(zone, endpoints) => ready_in_zone(alloc, zone, endpoints),
        _ => all_ready(alloc, endpoints),
    }
}

#[tactic(auto, using(crate::proofs::Filtered::hints))]
/// Whether hints apply in a zone: each ready endpoint has one, and one of them hints this zone.
fn hints_apply(zone: &Text, endpoints: &[Candidate]) -> bool
    ensures { result ≡ spec.hints_apply (Some zone.now) (filter is_ready endpoints.now) }
{
    all_have_hints(endpoints) && any_hints_zone(zone, endpoints)
}

fn all_have_hints(endpoints: &[Candidate]) -> bool
    ensures { result ≡ list_all (λ c. not (is_ready c) || spec.has_hint c) endpoints.now }
{
    endpoints.iter().all(|endpoint| !endpoint.ready || !endpoint.hints.as_slice().is_empty())
}

fn any_hints_zone(zone: &Text, endpoints: &[Candidate]) -> bool
    ensures { result ≡ list_any (λ c. is_ready c && spec.hints_zone zone.now c) endpoints.now }
{
    endpoints
        .iter()
        .any(|endpoint| endpoint.ready && hints_zone(zone, endpoint))
}

/// Whether an endpoint hints a zone.
fn hints_zone(zone: &Text, endpoint: &Candidate) -> bool
    ensures { result ≡ spec.hints_zone zone.now endpoint.now }
{
    endpoint.hints.as_slice().iter().any(|hint| *hint == *zone)
}

/// The ready endpoints that hint a zone.
fn ready_in_zone(
    alloc: Global,
    zone: &Text,
    endpoints: &[Candidate],
) -> Result<Vec<Endpoint>, NoMemory>
    ensures { IfOk result (λ es. es.items ≡ map (λ c. c.endpoint)
        (filter (spec.hints_zone zone.now) (filter is_ready endpoints.now))) }
{
    let mut found = Vec::new(alloc);
    for endpoint in endpoints {
        if endpoint.ready && hints_zone(zone, endpoint) {
            found.push(endpoint.endpoint)?;
        }
    }
    Ok(found)
}

/// All ready endpoints.
fn all_ready(alloc: Global, endpoints: &[Candidate]) -> Result<Vec<Endpoint>, NoMemory>
    ensures { IfOk result (λ es. es.items ≡ map (λ c. c.endpoint) (filter is_ready endpoints.now)) }
{
    let mut found = Vec::new(alloc);
    for endpoint in endpoints {
        if endpoint.ready {
            found.push(endpoint.endpoint)?;
        }
    }
    Ok(found)
}
