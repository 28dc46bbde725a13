//! Decisions with their reasons.
ghost use Rattle.std.specs.Prelude.{◌≡◌, ◌++◌, IfOk, OnErr, OnOk, string_bytes, codes};
ghost use Rattle.kp_text_defs.specs.Answers as spec;
ghost use Rattle.kp_print.specs.Fronts.{HasFront};

use crate::answer::push_verdict;
use crate::key::push_port;
use kp_base::{NoMemory, PortKey, Text};
use kp_print::{push, push_labelled};
use kp_types::{ChosenBy, Decision, DoorKind, ListKind, Reason};
use std::alloc::Global;

/// The line that explains a packet: its number, the sync that it is answered from, what the objects
/// decide, and why.
pub fn explain_text(
    alloc: Global,
    number: u64,
    sync: u64,
    decision: &Decision,
) -> Result<Text, NoMemory>
    ensures { IfOk result (λ t. t ≡ spec.explain_text number sync decision.now) }
{
    let mut text = String::new(alloc);
    push_explain(&mut text, number, sync, decision)?;
    Text::from_string(text)
}

/// Adds the line that explains a packet.
pub fn push_explain(
    text: &mut String,
    number: u64,
    sync: u64,
    decision: &Decision,
) -> Result<(), NoMemory>
    ensures added { OnOk result (string_bytes text.new
        ≡ string_bytes text.old ++ spec.explain_text number sync decision.now) }
    ensures front { OnErr result (HasFront text.new text.old) }
{
    push_labelled(text, "explain ", number)?;
    push_labelled(text, " at ", sync)?;
    push(text, ": ")?;
    push_verdict(text, &decision.verdict)?;
    push(text, "; ")?;
    push_reason(text, &decision.reason)?;
    push(text, "\n")
}

/// Adds a reason.
fn push_reason(text: &mut String, reason: &Reason) -> Result<(), NoMemory>
    ensures added { OnOk result (string_bytes text.new
        ≡ string_bytes text.old ++ spec.reason_text reason.now) }
    ensures front { OnErr result (HasFront text.new text.old) }
{
    match reason {
        Reason::Door {
            kind,
            port,
            list,
            size,
            by,
            place,
        } => {
            push_door(text, *kind, port)?;
            push_choice(text, *list, *size, *by, *place)
        }
        Reason::NoEndpoints { kind, port } => push_shut(text, *kind, port, " has no endpoints"),
        Reason::NoLocal { kind, port } => push_shut(text, *kind, port, " has no local endpoints"),
        Reason::Closed { kind, port } => push_shut(text, *kind, port, " is closed to the source"),
        Reason::NoDoor => push(text, "no door decides"),
    }
}

/// Adds a door, and what keeps a packet from its endpoints.
fn push_shut(text: &mut String, kind: DoorKind, port: &PortKey, words: &str) -> Result<(), NoMemory>
    ensures added { OnOk result (string_bytes text.new
        ≡ string_bytes text.old ++ (spec.door_text kind port.now ++ words.now)) }
    ensures front { OnErr result (HasFront text.new text.old) }
{
    push_door(text, kind, port)?;
    push(text, words)
}

/// Adds a door of a Service port.
fn push_door(text: &mut String, kind: DoorKind, port: &PortKey) -> Result<(), NoMemory>
    ensures added { OnOk result (string_bytes text.new
        ≡ string_bytes text.old ++ spec.door_text kind port.now) }
    ensures front { OnErr result (HasFront text.new text.old) }
{
    push(text, "door ")?;
    push(text, door_word(kind))?;
    push(text, " ")?;
    push_port(text, port)
}

/// Adds the choice in a door's list.
fn push_choice(
    text: &mut String,
    list: ListKind,
    size: u64,
    by: ChosenBy,
    place: u64,
) -> Result<(), NoMemory>
    ensures added { OnOk result (string_bytes text.new
        ≡ string_bytes text.old ++ spec.choice_text list size by place) }
    ensures front { OnErr result (HasFront text.new text.old) }
{
    push(text, " list ")?;
    push(text, list_word(list))?;
    push_labelled(text, " size ", size)?;
    push(text, " by ")?;
    push(text, chosen_by_word(by))?;
    push_labelled(text, " place ", place)
}

/// The word for a kind of door.
pub fn door_word(kind: DoorKind) -> &'static str
    ensures { result.now ≡ spec.door_kind_text kind }
{
    match kind {
        DoorKind::Cluster => "cluster",
        DoorKind::External => "external",
        DoorKind::Balancer => "balancer",
        DoorKind::Node => "node",
    }
}

fn list_word(list: ListKind) -> &'static str
    ensures { result.now ≡ spec.list_kind_text list }
{
    match list {
        ListKind::Cluster => "cluster",
        ListKind::Local => "local",
    }
}

fn chosen_by_word(by: ChosenBy) -> &'static str
    ensures { result.now ≡ spec.chosen_by_text by }
{
    match by {
        ChosenBy::Affinity => "affinity",
        ChosenBy::Draws => "draws",
    }
}
