//! The ports of a Service, as a pod resolves them.
ghost use Rattle.std.specs.Prelude.{◌≡◌, ◌++◌, ℕ, List, IfOk, OnOk};
ghost use Rattle.std.specs.FinMap.{find};
ghost use Rattle.std.specs.Option.{option_to_list};
ghost use Rattle.kp_base.specs.declared.port.Proto.{Proto};
ghost use Rattle.kp_desired.specs.Numbers.{port_name_cmp, named, with_number};
ghost use Rattle.kp_desired.specs.Numbers.{number_among, target_in, resolved_in};
ghost use Rattle.kp_object_defs.specs.Desired as spec;

use kp_base::{Copied, NoMemory, PortNo, Proto, Text};
use kp_types::{ContainerPort, Pod, Service, ServicePort, SlicePort, TargetPort};
use std::alloc::Global;
use std::collections::BTreeMap;

/// The Service's ports that a pod resolves, in their order.
pub fn resolved_ports(
    alloc: Global,
    service: &Service,
    pod: &Pod,
) -> Result<Vec<SlicePort>, NoMemory>
    ensures { IfOk result (λ ps. ps.items ≡ spec.resolved_ports service.now pod.now) }
{
    let numbers = numbers_by_name(alloc, pod.ports.as_slice())?;
    let mut found = Vec::new(alloc);
    for port in service.ports.as_slice() {
        add_resolved(alloc, &mut found, &numbers, port)?;
    }
    Ok(found)
}

/// Adds a port, where its target has a number.
fn add_resolved<'a>(
    alloc: Global,
    found: &mut Vec<SlicePort>,
    numbers: &BTreeMap<(&'a Text, Proto), PortNo>,
    port: &'a ServicePort,
) -> Result<(), NoMemory>
    ensures { OnOk result (found.new.items
        ≡ found.old.items ++ option_to_list (resolved_in (named numbers.now.entries) port.now)) }
{
    if let Some(number) = target_number(numbers, port.proto, &port.target) {
        found.push(SlicePort {
            name: port.name.copy(alloc)?,
            proto: port.proto,
            port: Some(number),
        })?;
    }
    Ok(())
}

/// The number of a target: itself, or that of the container port of the name and protocol.
fn target_number<'a>(
    numbers: &BTreeMap<(&'a Text, Proto), PortNo>,
    proto: Proto,
    target: &'a TargetPort,
) -> Option<PortNo>
    ensures { result ≡ target_in (named numbers.now.entries) proto target.now }
{
    match target {
        TargetPort::Number(number) => Some(*number),
        TargetPort::Named(name) => numbers.get(&(name, proto)).copied(),
    }
}

/// The numbers of container ports by their names and protocols. Of ports of one name and protocol
/// the first counts.
fn numbers_by_name<'a>(
    alloc: Global,
    ports: &'a [ContainerPort],
) -> Result<BTreeMap<(&'a Text, Proto), PortNo>, NoMemory>
    ensures { IfOk result (λ numbers. (name : List ℕ × Proto) →
        find port_name_cmp name (named numbers.entries) ≡ number_among ports.now name) }
{
    let mut numbers = BTreeMap::new(alloc);
    for port in ports {
        add_number(&mut numbers, port)?;
    }
    Ok(numbers)
}

/// Adds the number of a port, where there is none of its name and protocol.
fn add_number<'a>(
    numbers: &mut BTreeMap<(&'a Text, Proto), PortNo>,
    port: &'a ContainerPort,
) -> Result<(), NoMemory>
    ensures { OnOk result (named numbers.new.entries
        ≡ with_number (named numbers.old.entries) port.now) }
{
    let name = (&port.name, port.proto);
    if numbers.contains_key(&name) {
        return Ok(());
    }
    // The refusal holds a borrowed name beside what it owns, which no call can take.
    match numbers.insert(name, port.port) {
        Ok(_) => Ok(()),
        Err(_) => Err(NoMemory::told_by_library()),
    }
}
