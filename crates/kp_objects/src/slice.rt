//! EndpointSlices.
ghost use Rattle.std.specs.Prelude.{◌≡◌, codes, map, option_map, Some};
ghost use Rattle.kp_json.specs.Answers.{Gives};
ghost use Rattle.kp_json.specs.Places.{elements_of};
ghost use Rattle.kp_json.specs.Views.{place_of};
ghost use Rattle.kp_row_defs.specs.Fields.{items_in, texts_of};
ghost use Rattle.kp_row_defs.specs.Reads.{Reads};
ghost use Rattle.kp_row_defs.specs.Rows.{needed, choice, done, ◌▸◌, field_fault, list_fault, row_fault, rows_fault};
ghost use Rattle.kp_event_defs.specs.SliceText.{address_types, address_type_of, address_type_in, endpoints_row, endpoint_from, ports_row, slice_port_rows, slice_port, read_slice};
ghost use Rattle.kp_objects.specs.SliceMetadata.{slice_with};

mod endpoint;
mod metadata;

use crate::slice::endpoint::endpoints_here;
use crate::slice::metadata::{Metadata, metadata_field};
use kp_base::{Items, Text};
use kp_fields::{needed_choice, port_field, port_name_field, proto_field};
use kp_json::{FieldFault, Spot};
use kp_types::{AddressType, Slice, SliceEndpoint, SlicePort};
use std::alloc::Global;

/// The most endpoints of a slice.
const MAX_ENDPOINTS: u64 = 1000;

/// The most ports of a slice.
const MAX_PORTS: u64 = 100;

/// The EndpointSlice here, or the first fault of its rows.
pub fn slice_of<'a>(alloc: Global, spot: &'a Spot<'a>) -> Result<Slice, FieldFault>
    ensures { Gives (λ s. s) result (read_slice (place_of spot.now)) }
{
    let metadata = metadata_field(alloc, spot)?;
    let family = address_type_field(alloc, spot)?;
    slice_with(alloc, spot, metadata, family)
}

/// The slice with this metadata, whose addresses are of this type.
fn slice_with<'a>(
    alloc: Global,
    spot: &'a Spot<'a>,
    metadata: Metadata,
    family: AddressType,
) -> Result<Slice, FieldFault>
    ensures { Reads (λ s. s) result
        (rows_fault (endpoints_row family ▸ ports_row ▸ done) (place_of spot.now))
        (slice_with metadata family (place_of spot.now)) }
{
    let endpoints = endpoints_field(alloc, spot, family, &metadata.key.namespace)?;
    let ports = ports_field(alloc, spot)?;
    Ok(metadata.into_slice(family, endpoints, ports))
}

fn address_type_field<'a>(alloc: Global, spot: &'a Spot<'a>) -> Result<AddressType, FieldFault>
    ensures { Reads (λ t. t) result
        (field_fault (codes "addressType") needed (choice (texts_of address_types))
        (place_of spot.now))
        (address_type_in (place_of spot.now)) }
{
    let text = needed_choice(alloc, spot, "addressType", &["IPv4", "IPv6", "FQDN"])?;
    Ok(address_type(text))
}

fn address_type(text: &str) -> AddressType
    ensures { result ≡ address_type_of (Some text.now) }
{
    match text {
        "IPv6" => AddressType::Ipv6,
        "FQDN" => AddressType::Fqdn,
        _ => AddressType::Ipv4,
    }
}

fn endpoints_field<'a>(
    alloc: Global,
    spot: &'a Spot<'a>,
    family: AddressType,
    namespace: &Text,
) -> Result<Items<SliceEndpoint>, FieldFault>
    ensures { Reads (λ v. v) result (row_fault (endpoints_row family) (place_of spot.now))
        (map (endpoint_from family namespace.now)
        (items_in (codes "endpoints") (place_of spot.now))) }
{
    match spot.field(alloc, "endpoints")? {
        None => Ok(Items::new(alloc)),
        Some(list) => {
            let count = list.list_len(alloc)?;
            if count > MAX_ENDPOINTS {
                return Err(list.too_many(alloc, count));
            }
            endpoints_here(alloc, &list, family, namespace)
        }
    }
}

fn ports_field<'a>(alloc: Global, spot: &'a Spot<'a>) -> Result<Items<SlicePort>, FieldFault>
    ensures { Reads (λ v. v) result (row_fault ports_row (place_of spot.now))
        (map slice_port (items_in (codes "ports") (place_of spot.now))) }
{
    match spot.field(alloc, "ports")? {
        None => Ok(Items::new(alloc)),
        Some(list) => {
            let count = list.list_len(alloc)?;
            if count > MAX_PORTS {
                return Err(list.too_many(alloc, count));
            }
            ports_here(alloc, &list)
        }
    }
}

fn ports_here<'a>(alloc: Global, list: &'a Spot<'a>) -> Result<Items<SlicePort>, FieldFault>
    ensures { Reads (λ v. v) result (list_fault (rows_fault slice_port_rows) (place_of list.now))
        (map slice_port (elements_of (place_of list.now))) }
{
    let mut ports = Vec::new(alloc);
    for element in list.elements(alloc)? {
        ports.push(port_of(alloc, &element)?)?;
    }
    Ok(Items::from_vec(ports))
}

fn port_of<'a>(alloc: Global, spot: &'a Spot<'a>) -> Result<SlicePort, FieldFault>
    ensures { Reads (λ p. p) result (rows_fault slice_port_rows (place_of spot.now))
        (slice_port (place_of spot.now)) }
{
    let name = port_name_field(alloc, spot)?;
    let proto = proto_field(alloc, spot, "protocol")?;
    let port = port_field(alloc, spot, "port")?;
    Ok(SlicePort { name, proto, port })
}
