//! Answers to packets.
ghost use Rattle.std.specs.Prelude.{◌≡◌, ◌++◌, IfOk, OnErr, OnOk, string_bytes};
ghost use Rattle.kp_types.specs.declared.verdict.Verdict.TheVariants.{To};
ghost use Rattle.kp_text_defs.specs.Printed as spec;
ghost use Rattle.kp_print.specs.Fronts.{HasFront};

use kp_base::{Endpoint, NoMemory, Text};
use kp_print::{push, push_endpoint, push_labelled};
use kp_types::Verdict;
use std::alloc::Global;

/// The line of a packet: its number, the sync that it is answered from, and its verdict.
pub fn answer_text(
    alloc: Global,
    number: u64,
    sync: u64,
    verdict: &Verdict,
) -> Result<Text, NoMemory>
    ensures { IfOk result (λ t. t ≡ spec.packet_text number sync verdict.now) }
{
    let mut text = String::new(alloc);
    push_answer(&mut text, number, sync, verdict)?;
    Text::from_string(text)
}

/// Adds the line of a packet.
pub fn push_answer(
    text: &mut String,
    number: u64,
    sync: u64,
    verdict: &Verdict,
) -> Result<(), NoMemory>
    ensures added { OnOk result (string_bytes text.new
        ≡ string_bytes text.old ++ spec.packet_text number sync verdict.now) }
    ensures front { OnErr result (HasFront text.new text.old) }
{
    push_labelled(text, "packet ", number)?;
    push_labelled(text, " at ", sync)?;
    push(text, ": ")?;
    push_verdict(text, verdict)?;
    push(text, "\n")
}

/// Adds a verdict.
pub(crate) fn push_verdict(text: &mut String, verdict: &Verdict) -> Result<(), NoMemory>
    ensures added { OnOk result (string_bytes text.new
        ≡ string_bytes text.old ++ spec.verdict_text verdict.now) }
    ensures front { OnErr result (HasFront text.new text.old) }
{
    match verdict {
        Verdict::To { endpoint, masked } => push_to(text, endpoint, *masked),
        Verdict::Rejected => push(text, "rejected"),
        Verdict::Dropped => push(text, "dropped"),
        Verdict::LeftAlone => push(text, "left alone"),
    }
}

fn push_to(text: &mut String, endpoint: &Endpoint, masked: bool) -> Result<(), NoMemory>
    ensures added { OnOk result (string_bytes text.new
        ≡ string_bytes text.old ++ spec.verdict_text (To endpoint.now masked)) }
    ensures front { OnErr result (HasFront text.new text.old) }
{
    push(text, "to ")?;
    push_endpoint(text, endpoint)?;
    push(text, masked_words(masked))
}

fn masked_words(masked: bool) -> &'static str
    ensures { result.now ≡ spec.masked_text masked }
{
    if masked { " masked" } else { "" }
}
