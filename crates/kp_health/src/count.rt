//! What the health port of a Service answers, by its endpoints.
ghost use Rattle.std.specs.Prelude.{◌≡◌, [], IfOk, OnOk};
ghost use Rattle.std.specs.List.{fold, list_any};
ghost use Rattle.kp_base.specs.Net.{same_family};
ghost use Rattle.kp_types.specs.Setting as setting;
ghost use Rattle.kp_health_defs.specs.HealthPorts as spec;
ghost use Rattle.kp_health.specs.Counted.{counted_all, counted_with};

use kp_base::{Address, Config, Copied, Family, Items, NoMemory, ObjectKey, PortNo};
use kp_health_defs::Health;
use kp_port_info::cluster_address;
use kp_types::{Candidate, Policy, Service, ServiceKind, table_families};
use std::alloc::Global;
use std::collections::BTreeSet;

/// What the health port of a Service answers, by its endpoints: one list for each of its ports, in
/// their order, as `candidates` gives it. It is None exactly where the Service has no health port.
pub fn health_of(
    alloc: Global,
    service: &Service,
    config: &Config,
    per_port: &Items<Items<Candidate>>,
) -> Result<Option<Health>, NoMemory>
    ensures { IfOk result (λ h. h ≡ spec.health_of config.now service.now per_port.now) }
{
    match health_port(config, service) {
        Some(port) => {
            let count = local_count(alloc, table_families(config), per_port.as_slice())?;
            Ok(Some(health_with(alloc, &service.key, count, port)?))
        }
        None => Ok(None),
    }
}

/// The health port of a Service.
pub(crate) fn health_port(config: &Config, service: &Service) -> Option<PortNo>
    ensures { result ≡ spec.health_port config.now service.now }
{
    if is_asked_about(table_families(config), service) {
        service.health
    } else {
        None
    }
}

/// Whether load balancers ask each node about a Service.
fn is_asked_about(families: &[Family], service: &Service) -> bool
    ensures { result ≡ spec.is_asked_about families.now service.now }
{
    match (service.kind, service.outer) {
        (ServiceKind::LoadBalancer, Policy::Local) => takes_part(families, service),
        _ => false,
    }
}

/// Whether a Service has a cluster address in one of these families.
fn takes_part(families: &[Family], service: &Service) -> bool
    ensures { result ≡ spec.takes_part families.now service.now }
{
    families
        .iter()
        .any(|family| cluster_address(*family, service).is_some())
}

/// What a port answers where so many addresses count.
fn health_with(
    alloc: Global,
    service: &ObjectKey,
    count: u64,
    port: PortNo,
) -> Result<Health, NoMemory>
    ensures { IfOk result (λ h. h ≡ spec.health_with service.now count port) }
{
    Ok(Health {
        service: service.copy(alloc)?,
        port,
        status: status_by(count),
        count,
    })
}

fn status_by(count: u64) -> u16
    ensures { result ≡ spec.status_by count }
{
    if count == 0 { 503 } else { 200 }
}

/// How many addresses the endpoints have that count.
fn local_count(
    alloc: Global,
    families: &[Family],
    per_port: &[Items<Candidate>],
) -> Result<u64, NoMemory>
    ensures { IfOk result (λ n. n ≡ spec.local_count families.now per_port.now) }
{
    let addresses = addresses_of(alloc, families, per_port)?;
    Ok(addresses.len() as u64)
}

/// The addresses of the endpoints that count.
fn addresses_of(
    alloc: Global,
    families: &[Family],
    per_port: &[Items<Candidate>],
) -> Result<BTreeSet<Address>, NoMemory>
    ensures { IfOk result (λ s. s.keys ≡ fold (counted_all families.now) [] per_port.now) }
{
    let mut counted = BTreeSet::new(alloc);
    for endpoints in per_port {
        count_all(&mut counted, families, endpoints.as_slice())?;
    }
    Ok(counted)
}

/// Counts those of endpoints that count.
fn count_all(
    counted: &mut BTreeSet<Address>,
    families: &[Family],
    endpoints: &[Candidate],
) -> Result<(), NoMemory>
    ensures { OnOk result (counted.new.keys
        ≡ counted_all families.now counted.old.keys endpoints.now) }
{
    for endpoint in endpoints {
        count(counted, families, endpoint)?;
    }
    Ok(())
}

/// Counts an endpoint, where it counts.
fn count(
    counted: &mut BTreeSet<Address>,
    families: &[Family],
    endpoint: &Candidate,
) -> Result<(), NoMemory>
    ensures { OnOk result (counted.new.keys
        ≡ counted_with families.now counted.old.keys endpoint.now) }
{
    if counts(families, endpoint) {
        counted.insert(endpoint.endpoint.address)?;
    }
    Ok(())
}

/// Whether an endpoint is a ready one of this node, and of one of these families.
fn counts(families: &[Family], endpoint: &Candidate) -> bool
    ensures { result ≡ spec.counts_in families.now endpoint.now }
{
    endpoint.local && endpoint.ready && is_one_of(families, endpoint.endpoint.address.family())
}

fn is_one_of(families: &[Family], family: Family) -> bool
    ensures { result ≡ list_any (same_family family) families.now }
{
    families.iter().any(|other| family == *other)
}
