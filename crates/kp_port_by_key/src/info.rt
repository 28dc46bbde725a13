//! One port, found by its name.
ghost use Rattle.std.specs.Prelude.{◌≡◌, IfOk, option_copied};
ghost use Rattle.kp_types.specs.Ports as ports;
ghost use Rattle.kp_types.specs.Setting.{config_for};
ghost use Rattle.kp_object_defs.specs.PortByKey as spec;

use kp_base::{Config, Family, NoMemory, PortKey};
use kp_known_ports::{info_of, sources_of};
use kp_store::Objects;
use kp_types::{PortInfo, Service, ServicePort};
use std::alloc::Global;

/// What a family knows of the port of a name, if there is one that takes part.
pub fn info_at(
    alloc: Global,
    family: Family,
    config: &Config,
    objects: &Objects,
    key: &PortKey,
) -> Result<Option<PortInfo>, NoMemory>
    ensures { IfOk result (λ info. info
        ≡ spec.info_at family (config_for family config.now) objects.now key.now) }
{
    let Some(service) = objects.service(&key.object) else {
        return Ok(None);
    };
    let Some(port) = port_named(key, service) else {
        return Ok(None);
    };
    let sources = sources_of(alloc, family, objects, config, service)?;
    info_of(
        alloc,
        family,
        config,
        objects.zone_of(&config.node),
        &sources,
        port,
    )
}

/// The port of a Service that has this name and protocol.
pub fn port_named<'a>(key: &PortKey, service: &'a Service) -> Option<&'a ServicePort>
    ensures { option_copied result ≡ spec.port_named key.now service.now }
{
    service
        .ports
        .as_slice()
        .iter()
        .find(|port| is_port(key, port))
}

/// Whether a port has this name and protocol.
fn is_port(key: &PortKey, port: &ServicePort) -> bool
    ensures { result ≡ ports.is_port key.now.port_name key.now.proto port.now }
{
    port.name == key.port_name && port.proto == key.proto
}
