//! What the health ports of the Services of the objects answer.
ghost use Rattle.std.specs.Prelude.{◌≡◌, map, IfOk};
ghost use Rattle.kp_object_defs.specs.PortInfo as info;
ghost use Rattle.kp_health_defs.specs.HealthPorts as spec;
ghost use Rattle.kp_health.specs.BothFamilies.{entries_of_sources};

use crate::count::{health_of, health_port};
use kp_base::{Config, Family, Items, NoMemory, ObjectKey};
use kp_category::candidates_of;
use kp_health_defs::Health;
use kp_known_ports::{Sources, sources_of};
use kp_port_info::port_key_of;
use kp_store::Objects;
use kp_types::{Candidate, Service, ServicePort};
use std::alloc::Global;

/// What the health port of the Service of a key answers, if there is that Service and it has one.
pub(crate) fn health_at(
    alloc: Global,
    config: &Config,
    objects: &Objects,
    key: &ObjectKey,
) -> Result<Option<Health>, NoMemory>
    ensures { IfOk result (λ h. h ≡ spec.health_at config.now objects.now key.now) }
{
    match objects.service(key) {
        Some(service) => health_in(alloc, config, objects, service),
        None => Ok(None),
    }
}

/// What the health port of one of the Services answers. Where it has none, no endpoint is looked
/// at.
fn health_in(
    alloc: Global,
    config: &Config,
    objects: &Objects,
    service: &Service,
) -> Result<Option<Health>, NoMemory>
    ensures { IfOk result (λ h. h ≡ spec.health_in config.now objects.now service.now) }
{
    match health_port(config, service) {
        Some(_port) => {
            let per_port = entries_by_port(alloc, config, objects, service)?;
            health_of(alloc, service, config, &per_port)
        }
        None => Ok(None),
    }
}

/// The endpoints of a Service, port by port. What they are taken from is asked of the objects once
/// for all ports.
fn entries_by_port(
    alloc: Global,
    config: &Config,
    objects: &Objects,
    service: &Service,
) -> Result<Items<Items<Candidate>>, NoMemory>
    ensures { IfOk result (λ per_port. per_port
        ≡ spec.entries_by_port config.now objects.now service.now) }
{
    let four = sources_of(alloc, Family::V4, objects, config, service)?;
    let six = sources_of(alloc, Family::V6, objects, config, service)?;
    let per_port = entries_of_ports(alloc, config, service, &four, &six)?;
    Ok(per_port)
}

/// The endpoints of the ports of a Service, by what they are taken from in each family.
fn entries_of_ports(
    alloc: Global,
    config: &Config,
    service: &Service,
    four: &Sources<'_>,
    six: &Sources<'_>,
) -> Result<Items<Items<Candidate>>, NoMemory>
    ensures { IfOk result (λ per_port. per_port ≡ map (λ p. entries_of_sources config.now.node
        four.now six.now (info.port_key_of service.now p)) service.now.ports) }
{
    let mut per_port = Vec::new(alloc);
    for port in service.ports.as_slice() {
        per_port.push(entries_of(alloc, config, service, four, six, port)?)?;
    }
    Ok(Items::from_vec(per_port))
}

/// The endpoints of a port, by what they are taken from in each family.
fn entries_of(
    alloc: Global,
    config: &Config,
    service: &Service,
    four: &Sources<'_>,
    six: &Sources<'_>,
    port: &ServicePort,
) -> Result<Items<Candidate>, NoMemory>
    ensures { IfOk result (λ cs. cs ≡ entries_of_sources config.now.node four.now six.now
        (info.port_key_of service.now port.now)) }
{
    let key = port_key_of(alloc, service, port)?;
    let slices = four.slices.as_slice();
    let node = &config.node;
    let first = candidates_of(alloc, Family::V4, &key, &four.wanted, slices, node)?;
    let slices = six.slices.as_slice();
    let second = candidates_of(alloc, Family::V6, &key, &six.wanted, slices, node)?;
    let mut both = first.into_vec();
    both.append(&mut second.into_vec())?;
    Ok(Items::from_vec(both))
}
