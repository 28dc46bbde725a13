//! Ports whose inputs differ between two states of the cluster, told port by port.
ghost use Rattle.std.specs.Prelude.{◌≡◌, ◌++◌, ◌∷◌, [], not, bytes_eq, filter, map, IfOk, OnOk};
ghost use Rattle.std.specs.Prelude.{option_copied, option_map};
ghost use Rattle.std.specs.List.{flat_map};
ghost use Rattle.kp_base.specs.Keys.{port_key_cmp};
ghost use Rattle.kp_types.specs.Setting.{config_for, node_config};
ghost use Rattle.kp_choice_defs.specs.Settings.{settings_of};
ghost use Rattle.kp_object_defs.specs.Entries as entries;
ghost use Rattle.kp_object_defs.specs.Entries.{entries_of_both};
ghost use Rattle.kp_object_defs.specs.Order.{distinct_in_order};
ghost use Rattle.kp_object_defs.specs.Packing.{same_option};
ghost use Rattle.kp_object_defs.specs.PortByKey.{port_keys_of};
ghost use Rattle.kp_object_defs.specs.PortInfo as ports;
ghost use Rattle.kp_history_defs.specs.Inputs as spec;
ghost use Rattle.kp_vmap.specs.Between.{found_port};

use kp_base::{Config, Copied, Family, Items, NoMemory, PortKey, Text};
use kp_category::candidates_of;
use kp_known_ports::sources_of;
use kp_port_by_key::port_named;
use kp_port_info::port_key_of;
use kp_store::Objects;
use kp_types::{Candidate, Service, ServicePort};
use std::alloc::Global;
use std::collections::BTreeSet;

/// The ports whose inputs differ between some objects and others, in order: their Service, their
/// endpoints of either family, or the zone of the node.
pub fn dirty_between(
    alloc: Global,
    before: &Objects,
    after: &Objects,
    config: &Config,
) -> Result<Items<PortKey>, NoMemory>
    ensures { IfOk result (λ keys. keys
        ≡ spec.changed_ports (settings_of config.now) before.now after.now) }
{
    let ports = ports_of_either(alloc, before, after)?;
    let mut changed = Vec::new(alloc);
    for key in &ports {
        add_changed(alloc, before, after, config, key, &mut changed)?;
    }
    Ok(Items::from_vec(changed))
}

/// Adds the name of a port, where its inputs differ.
fn add_changed(
    alloc: Global,
    before: &Objects,
    after: &Objects,
    config: &Config,
    key: &PortKey,
    changed: &mut Vec<PortKey>,
) -> Result<(), NoMemory>
    ensures { OnOk result (changed.new.items ≡ changed.old.items
        ++ filter (λ key. not (spec.keeps_inputs (settings_of config.now) before.now after.now
        key)) (key.now ∷ [])) }
{
    if !keeps_inputs(alloc, before, after, config, key)? {
        changed.push(key.copy(alloc)?)?;
    }
    Ok(())
}

/// Whether a port has the same inputs before and after.
fn keeps_inputs(
    alloc: Global,
    before: &Objects,
    after: &Objects,
    config: &Config,
    key: &PortKey,
) -> Result<bool, NoMemory>
    ensures { IfOk result (λ same. same
        ≡ spec.keeps_inputs (settings_of config.now) before.now after.now key.now) }
{
    match (port_found(before, key), port_found(after, key)) {
        (None, None) => Ok(true),
        (Some(found), Some(again)) => has_same_inputs(alloc, before, after, config, found, again),
        _ => Ok(false),
    }
}

/// Whether a port before and a port after have the same inputs.
fn has_same_inputs(
    alloc: Global,
    before: &Objects,
    after: &Objects,
    config: &Config,
    found: (&Service, &ServicePort),
    again: (&Service, &ServicePort),
) -> Result<bool, NoMemory>
    ensures { IfOk result (λ same. same ≡ spec.same_inputs
        (spec.inputs_in (settings_of config.now) before.now found.entry.0.now found.entry.1.now)
        (spec.inputs_in (settings_of config.now) after.now again.entry.0.now again.entry.1.now)) }
{
    let (service, port) = found;
    let (other, same) = again;
    let entries = entries_of(alloc, config, before, service, port)?;
    let others = entries_of(alloc, config, after, other, same)?;
    let zones = is_same_zone(before.zone_of(&config.node), after.zone_of(&config.node));
    let services = *service == *other;
    Ok(services && entries == others && zones)
}

/// Whether two zones are one, or there is neither.
fn is_same_zone(zone: Option<&Text>, other: Option<&Text>) -> bool
    ensures { result
        ≡ same_option bytes_eq (option_copied zone.entry) (option_copied other.entry) }
{
    match (zone, other) {
        (None, None) => true,
        (Some(zone), Some(other)) => *zone == *other,
        _ => false,
    }
}

/// The port of a name, with its Service, if there is one.
fn port_found<'a>(objects: &'a Objects, key: &PortKey) -> Option<(&'a Service, &'a ServicePort)>
    ensures { option_map (λ found. (found.0.now, found.1.now)) result
        ≡ found_port objects.now key.now }
{
    let service = objects.service(&key.object)?;
    Some((service, port_named(key, service)?))
}

/// The endpoints of a port of a Service in both families, on this node and elsewhere.
fn entries_of(
    alloc: Global,
    config: &Config,
    objects: &Objects,
    service: &Service,
    port: &ServicePort,
) -> Result<Vec<Candidate>, NoMemory>
    ensures { IfOk result (λ cs. cs.items ≡ entries_of_both (node_config config.now) objects.now
        service.now (ports.port_key_of service.now port.now)) }
{
    let four = entries_in(alloc, Family::V4, config, objects, service, port)?;
    let six = entries_in(alloc, Family::V6, config, objects, service, port)?;
    let mut both = four.into_vec();
    both.append(&mut six.into_vec())?;
    Ok(both)
}

/// Those in one family.
fn entries_in(
    alloc: Global,
    family: Family,
    config: &Config,
    objects: &Objects,
    service: &Service,
    port: &ServicePort,
) -> Result<Items<Candidate>, NoMemory>
    ensures { IfOk result (λ cs. cs ≡ entries.entries_of family (config_for family config.now)
        objects.now service.now (ports.port_key_of service.now port.now)) }
{
    let key = port_key_of(alloc, service, port)?;
    let from = sources_of(alloc, family, objects, config, service)?;
    candidates_of(
        alloc,
        family,
        &key,
        &from.wanted,
        from.slices.as_slice(),
        &config.node,
    )
}

/// The names of the ports of Services before or after, in order.
fn ports_of_either(
    alloc: Global,
    before: &Objects,
    after: &Objects,
) -> Result<Vec<PortKey>, NoMemory>
    ensures { IfOk result (λ keys. keys.items ≡ spec.ports_of_either before.now after.now) }
{
    let mut keys = Vec::new(alloc);
    add_ports(alloc, &mut keys, before.all_services(alloc)?.as_slice())?;
    add_ports(alloc, &mut keys, after.all_services(alloc)?.as_slice())?;
    let set = set_of(alloc, &keys)?;
    Ok(set.into_iter().collect(alloc)?)
}

/// Names once each, in order.
fn set_of(alloc: Global, keys: &[PortKey]) -> Result<BTreeSet<PortKey>, NoMemory>
    ensures { IfOk result (λ s. s.keys ≡ distinct_in_order port_key_cmp keys.now) }
{
    let mut seen = BTreeSet::new(alloc);
    for place in (0..keys.len()).rev() {
        seen.insert(keys[place].copy(alloc)?)?;
    }
    Ok(seen)
}

/// Adds the names of the ports of Services.
fn add_ports(alloc: Global, keys: &mut Vec<PortKey>, services: &[&Service]) -> Result<(), NoMemory>
    ensures { OnOk result (keys.new.items ≡ keys.old.items
        ++ flat_map port_keys_of (map (λ s. s.now) services.now)) }
{
    for service in services {
        add_ports_of(alloc, keys, *service)?;
    }
    Ok(())
}

/// Adds the names of a Service's ports.
fn add_ports_of(alloc: Global, keys: &mut Vec<PortKey>, service: &Service) -> Result<(), NoMemory>
    ensures { OnOk result (keys.new.items ≡ keys.old.items ++ port_keys_of service.now) }
{
    for port in service.ports.as_slice() {
        keys.push(port_key_of(alloc, service, port)?)?;
    }
    Ok(())
}
