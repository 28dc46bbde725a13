//! The specification of a Pod.
ghost use Rattle.std.specs.Prelude.{◌≡◌, ◌++◌, codes, map, OnOk, IfErr};
ghost use Rattle.std.specs.List.{flat_map};
ghost use Rattle.kp_json.specs.Places.{elements_of};
ghost use Rattle.kp_json.specs.Views.{place_of};
ghost use Rattle.kp_row_defs.specs.Fields.{inner, items_in};
ghost use Rattle.kp_row_defs.specs.Reads.{Reads};
ghost use Rattle.kp_row_defs.specs.Rows.{each, list_fault, row_fault, rows_fault};
ghost use Rattle.kp_event_defs.specs.PodText.{pod_spec_row, pod_spec_rows, container_rows, container_port_rows, container_port, container_ports};
ghost use Rattle.kp_objects.specs.PodParts.{spec_from, ReadsInto};

use kp_base::{Items, Text};
use kp_fields::{TextForm, copied_option, needed_port, port_name_field, proto_field, text_field};
use kp_json::{FieldFault, Spot};
use kp_types::ContainerPort;
use std::alloc::Global;

/// What is read of a Pod's specification.
#[derive(Drop)]
pub(crate) struct PodSpec {
    pub(crate) node: Option<Text>,
    pub(crate) ports: Items<ContainerPort>,
}

pub(crate) fn spec_field<'a>(alloc: Global, spot: &'a Spot<'a>) -> Result<PodSpec, FieldFault>
    ensures { Reads (λ s. s) result (row_fault pod_spec_row (place_of spot.now))
        (spec_from (inner (codes "spec") (place_of spot.now))) }
{
    match spot.field(alloc, "spec")? {
        None => Ok(PodSpec {
            node: None,
            ports: Items::new(alloc),
        }),
        Some(spec) => spec_here(alloc, &spec),
    }
}

fn spec_here<'a>(alloc: Global, spec: &'a Spot<'a>) -> Result<PodSpec, FieldFault>
    ensures { Reads (λ s. s) result (rows_fault pod_spec_rows (place_of spec.now))
        (spec_from (place_of spec.now)) }
{
    let node = text_field(alloc, spec, "nodeName", TextForm::Name)?;
    let ports = containers_field(alloc, spec)?;
    Ok(PodSpec {
        node: copied_option(alloc, node)?,
        ports,
    })
}

/// The ports of all containers.
fn containers_field<'a>(
    alloc: Global,
    spec: &'a Spot<'a>,
) -> Result<Items<ContainerPort>, FieldFault>
    ensures { Reads (λ v. v) result
        (row_fault (each (codes "containers") container_rows) (place_of spec.now))
        (flat_map container_ports (items_in (codes "containers") (place_of spec.now))) }
{
    match spec.field(alloc, "containers")? {
        None => Ok(Items::new(alloc)),
        Some(list) => containers_here(alloc, &list),
    }
}

fn containers_here<'a>(
    alloc: Global,
    list: &'a Spot<'a>,
) -> Result<Items<ContainerPort>, FieldFault>
    ensures { Reads (λ v. v) result (list_fault (rows_fault container_rows) (place_of list.now))
        (flat_map container_ports (elements_of (place_of list.now))) }
{
    let mut ports = Vec::new(alloc);
    for element in list.elements(alloc)? {
        add_ports(alloc, &element, &mut ports)?;
    }
    Ok(Items::from_vec(ports))
}

/// Adds the ports of a container.
fn add_ports<'a>(
    alloc: Global,
    container: &'a Spot<'a>,
    ports: &mut Vec<ContainerPort>,
) -> Result<(), FieldFault>
    ensures { ReadsInto result ports.old.items ports.new.items
        (rows_fault container_rows (place_of container.now))
        (container_ports (place_of container.now)) }
{
    match container.field(alloc, "ports")? {
        None => Ok(()),
        Some(list) => add_listed(alloc, &list, ports),
    }
}

fn add_listed<'a>(
    alloc: Global,
    list: &'a Spot<'a>,
    ports: &mut Vec<ContainerPort>,
) -> Result<(), FieldFault>
    ensures { ReadsInto result ports.old.items ports.new.items
        (list_fault (rows_fault container_port_rows) (place_of list.now))
        (map container_port (elements_of (place_of list.now))) }
{
    for element in list.elements(alloc)? {
        ports.push(port_of(alloc, &element)?)?;
    }
    Ok(())
}

fn port_of<'a>(alloc: Global, spot: &'a Spot<'a>) -> Result<ContainerPort, FieldFault>
    ensures { Reads (λ p. p) result (rows_fault container_port_rows (place_of spot.now))
        (container_port (place_of spot.now)) }
{
    let name = port_name_field(alloc, spot)?;
    let proto = proto_field(alloc, spot, "protocol")?;
    let port = needed_port(alloc, spot, "containerPort")?;
    Ok(ContainerPort { name, proto, port })
}
