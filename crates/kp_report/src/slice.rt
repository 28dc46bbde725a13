//! EndpointSlices.
ghost use Rattle.std.specs.Prelude.{◌≡◌, ◌++◌, IfOk, OnErr, OnOk, string_bytes, option_map, true, false};
ghost use Rattle.std.specs.List.{flat_map};
ghost use Rattle.kp_text_defs.specs.Slices as spec;
ghost use Rattle.kp_print.specs.Fronts.{HasFront};

use crate::entry::push_slice_entries;
use crate::key::{proto_word, push_object};
use kp_base::{Items, NoMemory, PortNo, Text};
use kp_print::{push, push_labelled, push_number};
use kp_types::{AddressType, Slice, SlicePort};
use std::alloc::Global;

/// The lines of slices, or of their endpoints where `entries` is set, in the order of the slices.
pub fn slices_text(alloc: Global, slices: &Items<Slice>, entries: bool) -> Result<Text, NoMemory>
    ensures { IfOk result (λ t. t ≡ spec.slices_text slices.now entries) }
{
    let mut text = String::new(alloc);
    push_slices(&mut text, slices.as_slice(), entries)?;
    Text::from_string(text)
}

/// Adds the lines of slices, or of their endpoints.
pub fn push_slices(text: &mut String, slices: &[Slice], entries: bool) -> Result<(), NoMemory>
    ensures added { OnOk result (string_bytes text.new
        ≡ string_bytes text.old ++ spec.slices_text slices.now entries) }
    ensures front { OnErr result (HasFront text.new text.old) }
{
    if entries {
        push_all_entries(text, slices)
    } else {
        push_all_slices(text, slices)
    }
}

fn push_all_entries(text: &mut String, slices: &[Slice]) -> Result<(), NoMemory>
    ensures added { OnOk result (string_bytes text.new
        ≡ string_bytes text.old ++ spec.slices_text slices.now true) }
    ensures front { OnErr result (HasFront text.new text.old) }
{
    for slice in slices {
        push_slice_entries(text, slice)?;
    }
    Ok(())
}

fn push_all_slices(text: &mut String, slices: &[Slice]) -> Result<(), NoMemory>
    ensures added { OnOk result (string_bytes text.new
        ≡ string_bytes text.old ++ spec.slices_text slices.now false) }
    ensures front { OnErr result (HasFront text.new text.old) }
{
    for slice in slices {
        push_slice(text, slice)?;
    }
    Ok(())
}

/// Adds the line of a slice.
fn push_slice(text: &mut String, slice: &Slice) -> Result<(), NoMemory>
    ensures added { OnOk result (string_bytes text.new
        ≡ string_bytes text.old ++ spec.slice_text slice.now) }
    ensures front { OnErr result (HasFront text.new text.old) }
{
    push_head(text, slice)?;
    push_tail(text, slice)
}

/// Adds what a slice has.
fn push_tail(text: &mut String, slice: &Slice) -> Result<(), NoMemory>
    ensures added { OnOk result (string_bytes text.new
        ≡ string_bytes text.old ++ spec.slice_tail_text slice.now) }
    ensures front { OnErr result (HasFront text.new text.old) }
{
    push(text, ", ports ")?;
    push_ports(text, slice.ports.as_slice())?;
    push_labelled(
        text,
        ", endpoints ",
        slice.endpoints.as_slice().len() as u64,
    )?;
    push(text, "\n")
}

/// Adds what a slice is of.
fn push_head(text: &mut String, slice: &Slice) -> Result<(), NoMemory>
    ensures added { OnOk result (string_bytes text.new
        ≡ string_bytes text.old ++ spec.slice_head_text slice.now) }
    ensures front { OnErr result (HasFront text.new text.old) }
{
    push(text, "slice ")?;
    push_object(text, &slice.key)?;
    push(text, ": ")?;
    push(text, address_type_word(slice.family))?;
    push(text, ", ")?;
    push(text, managed_word(slice.managed))?;
    push(text, ", service ")?;
    push(text, text_or_dash(slice.service.as_ref()))
}

fn address_type_word(family: AddressType) -> &'static str
    ensures { result.now ≡ spec.address_type_text family }
{
    match family {
        AddressType::Ipv4 => "IPv4",
        AddressType::Ipv6 => "IPv6",
        AddressType::Fqdn => "FQDN",
    }
}

fn managed_word(managed: bool) -> &'static str
    ensures { result.now ≡ spec.managed_text managed }
{
    if managed { "managed" } else { "own" }
}

/// A text, or a dash where there is none.
pub(crate) fn text_or_dash(text: Option<&Text>) -> &str
    ensures { result.now ≡ spec.text_or_dash (option_map (λ t. t.now) text.entry) }
{
    match text {
        Some(text) => text.as_str(),
        None => "-",
    }
}

/// Adds ports with commas between them, or a dash where there are none.
fn push_ports(text: &mut String, ports: &[SlicePort]) -> Result<(), NoMemory>
    ensures added { OnOk result (string_bytes text.new
        ≡ string_bytes text.old ++ spec.slice_ports_text ports.now) }
    ensures front { OnErr result (HasFront text.new text.old) }
{
    let Some((first, rest)) = ports.split_first() else {
        return push(text, "-");
    };
    push_port(text, first)?;
    push_more_ports(text, rest)
}

fn push_more_ports(text: &mut String, ports: &[SlicePort]) -> Result<(), NoMemory>
    ensures added { OnOk result (string_bytes text.new
        ≡ string_bytes text.old ++ flat_map spec.next_port_text ports.now) }
    ensures front { OnErr result (HasFront text.new text.old) }
{
    for port in ports {
        push(text, ",")?;
        push_port(text, port)?;
    }
    Ok(())
}

/// Adds a port of a slice.
fn push_port(text: &mut String, port: &SlicePort) -> Result<(), NoMemory>
    ensures added { OnOk result (string_bytes text.new
        ≡ string_bytes text.old ++ spec.slice_port_text port.now) }
    ensures front { OnErr result (HasFront text.new text.old) }
{
    push(text, port.name.as_str())?;
    push(text, ":")?;
    push_number_or_star(text, port.port)?;
    push(text, "/")?;
    push(text, proto_word(port.proto))
}

fn push_number_or_star(text: &mut String, port: Option<PortNo>) -> Result<(), NoMemory>
    ensures added { OnOk result (string_bytes text.new
        ≡ string_bytes text.old ++ spec.number_or_star port) }
    ensures front { OnErr result (HasFront text.new text.old) }
{
    match port {
        Some(port) => push_number(text, port.get() as u64),
        None => push(text, "*"),
    }
}
