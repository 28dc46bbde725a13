//! The ports of a Service.
ghost use Rattle.std.specs.Prelude.{◌≡◌, codes, map, option_and_then, true, IfOk};
ghost use Rattle.kp_json.specs.Places.{elements_of, member_at};
ghost use Rattle.kp_json.specs.Views.{place_of};
ghost use Rattle.kp_row_defs.specs.Fields.{items_in, whole_in};
ghost use Rattle.kp_row_defs.specs.Reads.{Reads};
ghost use Rattle.kp_row_defs.specs.Rows.{optional, whole, whole_or_text, field_fault, row_fault, rows_fault, port_list_fault};
ghost use Rattle.kp_event_defs.specs.ServiceText.{ports_row, service_port_rows, service_port, target_of, not_zero};
ghost use Rattle.kp_types.specs.Ports.{distinct_ports};

use crate::service::seen::SeenPorts;
use kp_base::{Items, PortNo};
use kp_fields::{copied_text, needed_port, port_name_field, proto_field, whole_field};
use kp_json::{FieldFault, Spot, Why};
use kp_types::{ServicePort, TargetPort};
use std::alloc::Global;

/// The ports, no two of one name and protocol.
pub(crate) fn ports_field<'a>(
    alloc: Global,
    spec: &'a Spot<'a>,
) -> Result<Items<ServicePort>, FieldFault>
    ensures ports { Reads (λ v. v) result (row_fault ports_row (place_of spec.now))
        (map service_port (items_in (codes "ports") (place_of spec.now))) }
    ensures distinct { IfOk result (λ ports. distinct_ports ports ≡ true) }
{
    match spec.field(alloc, "ports")? {
        None => Ok(Items::new(alloc)),
        Some(list) => ports_here(alloc, &list),
    }
}

fn ports_here<'a>(alloc: Global, list: &'a Spot<'a>) -> Result<Items<ServicePort>, FieldFault>
    ensures ports { Reads (λ v. v) result
        (port_list_fault (rows_fault service_port_rows) (place_of list.now))
        (map service_port (elements_of (place_of list.now))) }
    ensures distinct { IfOk result (λ ports. distinct_ports ports ≡ true) }
{
    let mut ports = Vec::new(alloc);
    let mut seen = SeenPorts::new(alloc);
    for element in list.elements(alloc)? {
        let port = port_of(alloc, &element)?;
        if !seen.add(alloc, &port)? {
            return Err(element.bad(alloc, Why::DuplicatePort));
        }
        ports.push(port)?;
    }
    Ok(Items::from_vec(ports))
}

fn port_of<'a>(alloc: Global, spot: &'a Spot<'a>) -> Result<ServicePort, FieldFault>
    ensures { Reads (λ p. p) result (rows_fault service_port_rows (place_of spot.now))
        (service_port (place_of spot.now)) }
{
    let name = port_name_field(alloc, spot)?;
    let proto = proto_field(alloc, spot, "protocol")?;
    let port = needed_port(alloc, spot, "port")?;
    let target = target_field(alloc, spot, port)?;
    let node_port = node_port_field(alloc, spot, "nodePort")?;
    Ok(ServicePort {
        name,
        proto,
        port,
        target,
        node_port,
    })
}

/// The target of a port. It is the port's own number where none is given.
fn target_field<'a>(
    alloc: Global,
    spot: &'a Spot<'a>,
    port: PortNo,
) -> Result<TargetPort, FieldFault>
    ensures { Reads (λ t. t) result
        (field_fault (codes "targetPort") optional (whole_or_text 0 65535) (place_of spot.now))
        (target_of port (member_at (place_of spot.now) (codes "targetPort"))) }
{
    match spot.field(alloc, "targetPort")? {
        None => Ok(TargetPort::Number(port)),
        Some(member) => match member.as_text() {
            Some(text) if text.is_empty() => Ok(TargetPort::Number(port)),
            Some(text) => Ok(TargetPort::Named(copied_text(alloc, text)?)),
            None => {
                let number = member.whole_at(alloc, 0, 65535)?;
                Ok(TargetPort::Number(PortNo::new(number).unwrap_or(port)))
            }
        },
    }
}

/// A port of the node that may be absent; 0 counts as absent.
pub(crate) fn node_port_field<'a>(
    alloc: Global,
    spot: &'a Spot<'a>,
    name: &'a str,
) -> Result<Option<PortNo>, FieldFault>
    ensures { Reads (λ p. p) result
        (field_fault name.now optional (whole 0 65535) (place_of spot.now))
        (option_and_then not_zero (whole_in name.now (place_of spot.now))) }
{
    match whole_field(alloc, spot, name, 0, 65535)? {
        None => Ok(None),
        Some(number) => Ok(PortNo::new(number)),
    }
}
