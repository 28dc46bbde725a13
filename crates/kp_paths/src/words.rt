//! Doors, choices and refusals in the words of an explanation.
ghost use Rattle.std.specs.Prelude.{◌≡◌, ◌++◌, OnErr, OnOk, length, option_map, string_bytes};
ghost use Rattle.kp_decide.specs.Shown.{shown_refusal};
ghost use Rattle.kp_text_defs.specs.Answers.{chosen_by_text, door_text, list_kind_text};
ghost use Rattle.kp_text_defs.specs.Printed.{masked_text};
ghost use Rattle.kp_print.specs.Fronts.{HasFront};
ghost use Rattle.kp_paths.specs.Words as spec;

use kp_base::{NoMemory, PortKey};
use kp_decide::{Choice, ChosenBy, Door, DoorKind, Line, ListKind, Offer, Refusal, Translation};
use kp_print::{push, push_endpoint, push_labelled};
use kp_report::{door_word, push_port};

/// Adds what becomes of a packet, and why: what the filter's line says, and where the packet was
/// sent, or else its translation.
pub(crate) fn push_decided(
    text: &mut String,
    line: Option<&Line<'_>>,
    translation: Option<&Translation<'_>>,
    masked: bool,
) -> Result<(), NoMemory>
    ensures added { OnOk result (string_bytes text.new ≡ string_bytes text.old
        ++ spec.decided_words (option_map (λ l. l.now) line.entry)
        (option_map (λ t. t.now) translation.entry) masked) }
    ensures front { OnErr result (HasFront text.new text.old) }
{
    match (line, translation) {
        (Some(line), translation) => {
            push_refused(text, line)?;
            push_sent(text, translation)
        }
        (None, Some(translation)) => push_passed(text, translation, masked),
        (None, None) => push(text, "left alone; no door decides"),
    }
}

/// Adds the verdict and the reason of a line of the filter.
fn push_refused(text: &mut String, line: &Line<'_>) -> Result<(), NoMemory>
    ensures added { OnOk result (string_bytes text.new
        ≡ string_bytes text.old ++ spec.refused_words line.now) }
    ensures front { OnErr result (HasFront text.new text.old) }
{
    push(text, refusal_word(line.refusal))?;
    push(text, "; ")?;
    push_door(text, line.door.kind, &line.door.info.key)?;
    push(text, refusal_cause(line.refusal))
}

/// Adds where a packet was sent that the filter refuses after its translation.
fn push_sent(text: &mut String, translation: Option<&Translation<'_>>) -> Result<(), NoMemory>
    ensures added { OnOk result (string_bytes text.new ≡ string_bytes text.old
        ++ spec.sent_words (option_map (λ t. t.now) translation.entry)) }
    ensures front { OnErr result (HasFront text.new text.old) }
{
    match translation {
        Some(translation) => push_sent_to(text, translation),
        None => Ok(()),
    }
}

/// Adds where a translation sends a packet.
fn push_sent_to(text: &mut String, translation: &Translation<'_>) -> Result<(), NoMemory>
    ensures added { OnOk result (string_bytes text.new
        ≡ string_bytes text.old ++ spec.sent_to_words translation.now) }
    ensures front { OnErr result (HasFront text.new text.old) }
{
    push(text, "; sent to ")?;
    push_endpoint(text, &translation.choice.endpoint)?;
    push(text, "; ")?;
    push_chosen(text, translation)
}

/// Adds the verdict and the reason of a translation that the filter lets pass.
fn push_passed(
    text: &mut String,
    translation: &Translation<'_>,
    masked: bool,
) -> Result<(), NoMemory>
    ensures added { OnOk result (string_bytes text.new
        ≡ string_bytes text.old ++ spec.passed_words translation.now masked) }
    ensures front { OnErr result (HasFront text.new text.old) }
{
    push(text, "to ")?;
    push_endpoint(text, &translation.choice.endpoint)?;
    push(text, masked_word(masked))?;
    push(text, "; ")?;
    push_chosen(text, translation)
}

/// Adds the door of a translation, and the choice in its list.
fn push_chosen(text: &mut String, translation: &Translation<'_>) -> Result<(), NoMemory>
    ensures added { OnOk result (string_bytes text.new
        ≡ string_bytes text.old ++ spec.chosen_words translation.now) }
    ensures front { OnErr result (HasFront text.new text.old) }
{
    push_door(text, translation.door.kind, &translation.door.info.key)?;
    push_choice(text, &translation.offer, &translation.choice)
}

/// Adds a door of a Service port.
pub(crate) fn push_door(text: &mut String, kind: DoorKind, port: &PortKey) -> Result<(), NoMemory>
    ensures added { OnOk result (string_bytes text.new
        ≡ string_bytes text.old ++ door_text kind port.now) }
    ensures front { OnErr result (HasFront text.new text.old) }
{
    push(text, "door ")?;
    push(text, door_word(kind))?;
    push(text, " ")?;
    push_port(text, port)
}

/// Adds the choice in a list.
fn push_choice(text: &mut String, offer: &Offer<'_>, choice: &Choice) -> Result<(), NoMemory>
    ensures added { OnOk result (string_bytes text.new
        ≡ string_bytes text.old ++ spec.choice_words offer.now choice.now) }
    ensures front { OnErr result (HasFront text.new text.old) }
{
    push(text, " list ")?;
    push(text, list_word(offer.kind))?;
    push_labelled(text, " size ", offer.endpoints.len() as u64)?;
    push(text, " by ")?;
    push(text, chosen_by_word(choice.by))?;
    push_labelled(text, " place ", choice.place)
}

/// The verdict of a refusal.
fn refusal_word(refusal: Refusal) -> &'static str
    ensures { result.now ≡ spec.refusal_word (shown_refusal refusal) }
{
    match refusal {
        Refusal::Rejects => "rejected",
        Refusal::DropsClosed | Refusal::DropsNoLocal => "dropped",
    }
}

/// What keeps a packet from the endpoints of the door that refuses it.
fn refusal_cause(refusal: Refusal) -> &'static str
    ensures { result.now ≡ spec.refusal_cause (shown_refusal refusal) }
{
    match refusal {
        Refusal::Rejects => " has no endpoints",
        Refusal::DropsClosed => " is closed to the source",
        Refusal::DropsNoLocal => " has no local endpoints",
    }
}

fn masked_word(masked: bool) -> &'static str
    ensures { result.now ≡ masked_text masked }
{
    if masked { " masked" } else { "" }
}

pub(crate) fn list_word(list: ListKind) -> &'static str
    ensures { result.now ≡ list_kind_text list }
{
    match list {
        ListKind::Cluster => "cluster",
        ListKind::Local => "local",
    }
}

fn chosen_by_word(by: ChosenBy) -> &'static str
    ensures { result.now ≡ chosen_by_text by }
{
    match by {
        ChosenBy::Affinity => "affinity",
        ChosenBy::Draws => "draws",
    }
}
