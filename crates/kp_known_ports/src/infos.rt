//! What the proxy knows of the ports of Services, in order of the ports' names.
ghost use Rattle.std.specs.Prelude.{◌≡◌, ◌+◌, ◌≤◌, ◌++◌, List, length, map, Some, IfOk, OnOk};
ghost use Rattle.std.specs.FinMap.{get};
ghost use Rattle.std.specs.List.{filter_map, flat_map};
ghost use Rattle.kp_base.specs.Keys.{port_key_cmp};
ghost use Rattle.kp_types.specs.Setting.{config_for};
ghost use Rattle.kp_types.specs.declared.info.ServiceSources.{ServiceSources};
ghost use Rattle.kp_types.specs.declared.service.ServicePort.{ServicePort};
ghost use Rattle.kp_object_defs.specs.Entries.{sources_of};
ghost use Rattle.kp_object_defs.specs.Objects.{zone_of};
ghost use Rattle.kp_object_defs.specs.Order.{distinct_in_order};
ghost use Rattle.kp_object_defs.specs.OwnKeys.{AreUnderOwnKeys};
ghost use Rattle.kp_object_defs.specs.PortByKey.{info_at, port_keys_of};
ghost use Rattle.kp_object_defs.specs.PortInfo as spec;
ghost use Rattle.kp_known_ports.specs.Known.{AreStored, known_ports, parts_of};
ghost use Rattle.kp_known_ports.specs.Known.{all_port_count, port_count};

use crate::ports::add_port;
use crate::sources::sources_of;
use kp_base::{Config, Family, NoMemory, PortKey, Steps};
use kp_port_info::cluster_address;
use kp_store::Objects;
use kp_types::{PortInfo, Service, ServicePort};
use std::alloc::Global;
use std::collections::BTreeMap;
use std::sync::ledger::Ledger;

/// What the proxy knows of all Service ports in a family, in order of their names (Kubernetes
/// documents on Services). A Service without a cluster address of the family takes no part. A step
/// is taken for each port that the objects are asked about.
pub fn port_infos<A: Ledger>(
    alloc: Global,
    family: Family,
    objects: &Objects,
    config: &Config,
    asked: &mut Steps<A>,
) -> Result<Vec<PortInfo>, NoMemory>
    ensures infos { IfOk result (λ is. is.items
        ≡ spec.port_infos family (config_for family config.now) objects.now) }
    ensures steps { OnOk result (asked.new ≡ asked.old + all_port_count objects.now) }
    ensures bound { asked.new ≤ asked.old + all_port_count objects.now }
{
    let services = objects.all_services(alloc)?;
    infos_of_services(alloc, family, objects, config, services.as_slice(), asked)
}

/// What the proxy knows of the ports of some Services of the objects in a family, in order of the
/// ports' names: what is found by these names. What a Service's endpoints are taken from is asked
/// of the objects once for all its ports, and not at all where the Service takes no part. A step is
/// taken for each of the ports.
pub fn infos_of_services<A: Ledger>(
    alloc: Global,
    family: Family,
    objects: &Objects,
    config: &Config,
    services: &[&Service],
    asked: &mut Steps<A>,
) -> Result<Vec<PortInfo>, NoMemory>
    requires own_keys { AreUnderOwnKeys objects.now }
    requires stored { AreStored objects.now (map (λ s. s.now) services.now) }
    ensures exact { IfOk result (λ is. is.items
        ≡ spec.infos_from family config.now.node (zone_of objects.now config.now.node)
        (map (sources_of family (config_for family config.now) objects.now)
        (map (λ s. s.now) services.now))) }
    ensures by_name { IfOk result (λ is. is.items
        ≡ filter_map (info_at family (config_for family config.now) objects.now)
        (distinct_in_order port_key_cmp (flat_map port_keys_of (map (λ s. s.now) services.now)))) }
    ensures steps { OnOk result (asked.new
        ≡ asked.old + port_count (map (λ s. s.now) services.now)) }
    ensures bound { asked.new ≤ asked.old + port_count (map (λ s. s.now) services.now) }
{
    let known = known_of_services(alloc, family, objects, config, services, asked)?;
    Ok(known.into_values().filter_map(|info| info).collect(alloc)?)
}

/// What is known of the ports of the Services that take part, by the ports' names.
fn known_of_services<A: Ledger>(
    alloc: Global,
    family: Family,
    objects: &Objects,
    config: &Config,
    services: &[&Service],
    asked: &mut Steps<A>,
) -> Result<BTreeMap<PortKey, Option<PortInfo>>, NoMemory>
    ensures known { IfOk result (λ known. known.entries
        ≡ known_ports family config.now.node (zone_of objects.now config.now.node)
        (flat_map (parts_of family (config_for family config.now) objects.now)
        (map (λ s. s.now) services.now))) }
    ensures steps { OnOk result (asked.new
        ≡ asked.old + port_count (map (λ s. s.now) services.now)) }
    ensures bound { asked.new ≤ asked.old + port_count (map (λ s. s.now) services.now) }
{
    let mut known = BTreeMap::new(alloc);
    for service in services {
        add_service(alloc, family, &mut known, objects, config, *service, asked)?;
    }
    Ok(known)
}

/// Adds what is known of the ports of a Service, where it takes part.
fn add_service<A: Ledger>(
    alloc: Global,
    family: Family,
    known: &mut BTreeMap<PortKey, Option<PortInfo>>,
    objects: &Objects,
    config: &Config,
    service: &Service,
    asked: &mut Steps<A>,
) -> Result<(), NoMemory>
    ensures known { (before : List (ServiceSources × ServicePort)) → known.old.entries
        ≡ known_ports family config.now.node (zone_of objects.now config.now.node) before →
        OnOk result (known.new.entries
        ≡ known_ports family config.now.node (zone_of objects.now config.now.node)
        (before ++ parts_of family (config_for family config.now) objects.now service.now)) }
    ensures steps { OnOk result (asked.new ≡ asked.old + length service.now.ports) }
    ensures bound { asked.new ≤ asked.old + length service.now.ports }
{
    match cluster_address(family, service) {
        Some(_) => add_ports(alloc, family, known, objects, config, service, asked),
        None => {
            count_ports(service.ports.as_slice(), asked);
            Ok(())
        }
    }
}

/// Takes a step for each port.
fn count_ports<A: Ledger>(ports: &[ServicePort], asked: &mut Steps<A>)
    ensures { asked.new ≡ asked.old + length ports.now }
{
    for port in ports {
        asked.tick();
    }
}

/// Adds what is known of the ports of a Service, by what its endpoints are taken from.
fn add_ports<A: Ledger>(
    alloc: Global,
    family: Family,
    known: &mut BTreeMap<PortKey, Option<PortInfo>>,
    objects: &Objects,
    config: &Config,
    service: &Service,
    asked: &mut Steps<A>,
) -> Result<(), NoMemory>
    ensures known { (before : List (ServiceSources × ServicePort)) → known.old.entries
        ≡ known_ports family config.now.node (zone_of objects.now config.now.node) before →
        OnOk result (known.new.entries
        ≡ known_ports family config.now.node (zone_of objects.now config.now.node)
        (before ++ spec.ports_of
        (sources_of family (config_for family config.now) objects.now service.now))) }
    ensures steps { OnOk result (asked.new ≡ asked.old + length service.now.ports) }
    ensures bound { asked.new ≤ asked.old + length service.now.ports }
{
    let sources = sources_of(alloc, family, objects, config, service)?;
    let zone = objects.zone_of(&config.node);
    for port in service.ports.as_slice() {
        asked.tick();
        add_port(alloc, family, known, config, zone, &sources, port)?;
    }
    Ok(())
}
