//! Endpoints of slices.
ghost use Rattle.std.specs.Prelude.{◌≡◌, ◌++◌, OnErr, OnOk, string_bytes};
ghost use Rattle.std.specs.List.{flat_map};
ghost use Rattle.kp_text_defs.specs.Slices as spec;
ghost use Rattle.kp_print.specs.Fronts.{HasFront};

use crate::key::push_object;
use crate::slice::text_or_dash;
use kp_base::{Address, NoMemory, ObjectKey, Text};
use kp_print::{push, push_address, push_labelled};
use kp_types::{Slice, SliceEndpoint};

/// Adds the lines of a slice's endpoints.
pub(crate) fn push_slice_entries(text: &mut String, slice: &Slice) -> Result<(), NoMemory>
    ensures added { OnOk result (string_bytes text.new
        ≡ string_bytes text.old ++ spec.slice_entries_text slice.now) }
    ensures front { OnErr result (HasFront text.new text.old) }
{
    let mut place = 0;
    for entry in slice.endpoints.as_slice() {
        place += 1;
        push_entry(text, &slice.key, place, entry)?;
    }
    Ok(())
}

/// Adds the line of an endpoint of a slice, by its place from 1.
fn push_entry(
    text: &mut String,
    key: &ObjectKey,
    place: u64,
    entry: &SliceEndpoint,
) -> Result<(), NoMemory>
    ensures added { OnOk result (string_bytes text.new
        ≡ string_bytes text.old ++ spec.entry_text key.now place entry.now) }
    ensures front { OnErr result (HasFront text.new text.old) }
{
    push(text, "endpoint ")?;
    push_object(text, key)?;
    push_labelled(text, " ", place)?;
    push(text, ": ")?;
    push_address_or_dash(text, entry.address)?;
    push(text, " ")?;
    push_state(text, entry)?;
    push_place(text, entry)?;
    push(text, "\n")
}

fn push_address_or_dash(text: &mut String, address: Option<Address>) -> Result<(), NoMemory>
    ensures added { OnOk result (string_bytes text.new
        ≡ string_bytes text.old ++ spec.address_or_dash address) }
    ensures front { OnErr result (HasFront text.new text.old) }
{
    match address {
        Some(address) => push_address(text, &address),
        None => push(text, "-"),
    }
}

/// Adds the conditions of an endpoint.
fn push_state(text: &mut String, entry: &SliceEndpoint) -> Result<(), NoMemory>
    ensures added { OnOk result (string_bytes text.new
        ≡ string_bytes text.old ++ spec.state_text entry.now) }
    ensures front { OnErr result (HasFront text.new text.old) }
{
    push(text, letter_if(entry.ready, "r"))?;
    push(text, letter_if(entry.serving, "s"))?;
    push(text, letter_if(entry.terminating, "t"))
}

fn letter_if(holds: bool, letter: &'static str) -> &'static str
    ensures { result.now ≡ spec.letter_if holds letter.now }
{
    if holds { letter } else { "-" }
}

/// Adds where an endpoint is, and the zones that it is meant for.
fn push_place(text: &mut String, entry: &SliceEndpoint) -> Result<(), NoMemory>
    ensures added { OnOk result (string_bytes text.new
        ≡ string_bytes text.old ++ spec.place_text entry.now) }
    ensures front { OnErr result (HasFront text.new text.old) }
{
    push(text, " node ")?;
    push(text, text_or_dash(entry.node.as_ref()))?;
    push(text, " zone ")?;
    push(text, text_or_dash(entry.zone.as_ref()))?;
    push(text, " hints ")?;
    push_hints(text, entry.hints.as_slice())
}

/// Adds texts with commas between them, or a dash where there are none.
fn push_hints(text: &mut String, hints: &[Text]) -> Result<(), NoMemory>
    ensures added { OnOk result (string_bytes text.new
        ≡ string_bytes text.old ++ spec.texts_or_dash hints.now) }
    ensures front { OnErr result (HasFront text.new text.old) }
{
    let Some((first, rest)) = hints.split_first() else {
        return push(text, "-");
    };
    push(text, first.as_str())?;
    push_more_hints(text, rest)
}

fn push_more_hints(text: &mut String, hints: &[Text]) -> Result<(), NoMemory>
    ensures added { OnOk result (string_bytes text.new
        ≡ string_bytes text.old ++ flat_map spec.next_text hints.now) }
    ensures front { OnErr result (HasFront text.new text.old) }
{
    for hint in hints {
        push(text, ",")?;
        push(text, hint.as_str())?;
    }
    Ok(())
}
