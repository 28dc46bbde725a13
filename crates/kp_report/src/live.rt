//! The lines of a live run.
ghost use Rattle.std.specs.Prelude.{◌≡◌, ◌++◌, IfOk, OnErr, OnOk, string_bytes, option_map, codes};
ghost use Rattle.kp_text_defs.specs.Keys.{object_text};
ghost use Rattle.kp_text_defs.specs.Live as spec;
ghost use Rattle.kp_print.specs.Fronts.{HasFront};

use crate::key::{push_chain_key, push_object};
use crate::sync::push_counts;
use kp_base::{NoMemory, ObjectKey, Text};
use kp_print::{push, push_labelled};
use kp_types::{Clash, Event, Kind, Object};
use std::alloc::Global;

/// The line of an event of the journal: its place from 1, its stream, and its number in that
/// stream.
pub fn event_text(
    alloc: Global,
    place: u64,
    stream: &Text,
    number: u64,
    event: &Event,
) -> Result<Text, NoMemory>
    ensures { IfOk result (λ t. t ≡ spec.event_text place stream.now number event.now) }
{
    let mut text = String::new(alloc);
    push_event(&mut text, place, stream.as_str(), number, event)?;
    Text::from_string(text)
}

/// Adds the line of an event of the journal.
pub fn push_event(
    text: &mut String,
    place: u64,
    stream: &str,
    number: u64,
    event: &Event,
) -> Result<(), NoMemory>
    ensures added { OnOk result (string_bytes text.new
        ≡ string_bytes text.old ++ spec.event_text place stream.now number event.now) }
    ensures front { OnErr result (HasFront text.new text.old) }
{
    push_labelled(text, "event ", place)?;
    push(text, ": ")?;
    push(text, stream)?;
    push_labelled(text, " ", number)?;
    push(text, " ")?;
    push_change(text, event)?;
    push(text, "\n")
}

/// Adds a change.
fn push_change(text: &mut String, event: &Event) -> Result<(), NoMemory>
    ensures added { OnOk result (string_bytes text.new
        ≡ string_bytes text.old ++ spec.change_text event.now) }
    ensures front { OnErr result (HasFront text.new text.old) }
{
    match event {
        Event::Apply(object) => {
            push(text, "apply ")?;
            push_applied(text, object)
        }
        Event::Delete { kind, key } => {
            push(text, "delete ")?;
            push_named(text, *kind, key)
        }
    }
}

/// Adds the object that is applied.
fn push_applied(text: &mut String, object: &Object) -> Result<(), NoMemory>
    ensures added { OnOk result (string_bytes text.new
        ≡ string_bytes text.old ++ spec.applied_text object.now) }
    ensures front { OnErr result (HasFront text.new text.old) }
{
    match object {
        Object::Service(service) => push_named(text, Kind::Service, &service.get().key),
        Object::EndpointSlice(slice) => push_named(text, Kind::EndpointSlice, &slice.get().key),
        Object::Pod(pod) => push_named(text, Kind::Pod, &pod.get().key),
        Object::Node(node) => push_node(text, node.get().name.as_str()),
    }
}

/// Adds an object by its kind and key.
fn push_named(text: &mut String, kind: Kind, key: &ObjectKey) -> Result<(), NoMemory>
    ensures added { OnOk result (string_bytes text.new
        ≡ string_bytes text.old ++ spec.named_text kind key.now) }
    ensures front { OnErr result (HasFront text.new text.old) }
{
    match kind {
        Kind::Service => push_namespaced(text, "Service ", key),
        Kind::EndpointSlice => push_namespaced(text, "EndpointSlice ", key),
        Kind::Pod => push_namespaced(text, "Pod ", key),
        Kind::Node => push_node(text, key.name.as_str()),
    }
}

fn push_namespaced(text: &mut String, kind: &str, key: &ObjectKey) -> Result<(), NoMemory>
    ensures added { OnOk result (string_bytes text.new
        ≡ string_bytes text.old ++ (kind.now ++ object_text key.now)) }
    ensures front { OnErr result (HasFront text.new text.old) }
{
    push(text, kind)?;
    push_object(text, key)
}

fn push_node(text: &mut String, name: &str) -> Result<(), NoMemory>
    ensures added { OnOk result (string_bytes text.new
        ≡ string_bytes text.old ++ (codes "Node " ++ name.now)) }
    ensures front { OnErr result (HasFront text.new text.old) }
{
    push(text, "Node ")?;
    push(text, name)
}

/// The line of a record: its number, the events since the last one, and the chains written and
/// removed.
pub fn record_text(
    alloc: Global,
    number: u64,
    events: u64,
    written: u64,
    removed: u64,
) -> Result<Text, NoMemory>
    ensures { IfOk result (λ t. t ≡ spec.record_text number events written removed) }
{
    let mut text = String::new(alloc);
    push_record(&mut text, number, events, written, removed)?;
    Text::from_string(text)
}

/// Adds the line of a record.
pub fn push_record(
    text: &mut String,
    number: u64,
    events: u64,
    written: u64,
    removed: u64,
) -> Result<(), NoMemory>
    ensures added { OnOk result (string_bytes text.new
        ≡ string_bytes text.old ++ spec.record_text number events written removed) }
    ensures front { OnErr result (HasFront text.new text.old) }
{
    push_labelled(text, "record ", number)?;
    push_counts(text, events, written, removed)
}

/// The line of a sync of a live run: its number and its record.
pub fn live_sync_text(alloc: Global, number: u64, sync: u64) -> Result<Text, NoMemory>
    ensures { IfOk result (λ t. t ≡ spec.live_sync_text number sync) }
{
    let mut text = String::new(alloc);
    push_live_sync(&mut text, number, sync)?;
    Text::from_string(text)
}

/// Adds the line of a sync of a live run.
pub fn push_live_sync(text: &mut String, number: u64, sync: u64) -> Result<(), NoMemory>
    ensures added { OnOk result (string_bytes text.new
        ≡ string_bytes text.old ++ spec.live_sync_text number sync) }
    ensures front { OnErr result (HasFront text.new text.old) }
{
    push_labelled(text, "sync ", number)?;
    push_labelled(text, ": record ", sync)?;
    push(text, "\n")
}

/// The last line of a live run before its table: the last record, or the clash that the last sync
/// met.
pub fn final_text(alloc: Global, sync: u64, clash: Option<&Clash>) -> Result<Text, NoMemory>
    ensures { IfOk result (λ t. t ≡ spec.final_text sync (option_map (λ c. c.now) clash.entry)) }
{
    let mut text = String::new(alloc);
    push_final(&mut text, sync, clash)?;
    Text::from_string(text)
}

/// Adds the last line of a live run before its table.
pub fn push_final(text: &mut String, sync: u64, clash: Option<&Clash>) -> Result<(), NoMemory>
    ensures added { OnOk result (string_bytes text.new
        ≡ string_bytes text.old ++ spec.final_text sync (option_map (λ c. c.now) clash.entry)) }
    ensures front { OnErr result (HasFront text.new text.old) }
{
    push(text, "final: ")?;
    push_end(text, sync, clash)?;
    push(text, "\n")
}

/// Adds how a live run ended.
fn push_end(text: &mut String, sync: u64, clash: Option<&Clash>) -> Result<(), NoMemory>
    ensures added { OnOk result (string_bytes text.new
        ≡ string_bytes text.old ++ spec.end_text sync (option_map (λ c. c.now) clash.entry)) }
    ensures front { OnErr result (HasFront text.new text.old) }
{
    match clash {
        Some(clash) => {
            push(text, "refused: ")?;
            push_clash(text, clash)
        }
        None => push_labelled(text, "record ", sync),
    }
}

/// Adds two chains that have one name.
pub(crate) fn push_clash(text: &mut String, clash: &Clash) -> Result<(), NoMemory>
    ensures added { OnOk result (string_bytes text.new
        ≡ string_bytes text.old ++ spec.clash_text clash.now) }
    ensures front { OnErr result (HasFront text.new text.old) }
{
    push(text, "chain name ")?;
    push(text, clash.name.as_str())?;
    push(text, " of ")?;
    push_chain_key(text, &clash.first)?;
    push(text, " and of ")?;
    push_chain_key(text, &clash.second)
}
