//! Lines of flows.
ghost use Rattle.std.specs.Prelude.{◌≡◌, ◌++◌, [], OnErr, OnOk, codes, decimal, string_bytes};
ghost use Rattle.kp_choice_defs.specs.AddressText.{endpoint_text};
ghost use Rattle.kp_print.specs.Fronts.{HasFront};
ghost use Rattle.kp_run_defs.specs.AnswerText.{trail_if};
ghost use Rattle.kp_text_defs.specs.Printed.{masked_text};
ghost use Rattle.kp_track_mode_defs.specs.FlowText as spec;

use kp_base::{Endpoint, NoMemory};
use kp_conntrack::Owned;
use kp_print::{push, push_endpoint, push_labelled};
use kp_report::push_answer;
use kp_types::Verdict;

/// Adds the line of a flow of an open connection, and that it has no trail where one is asked for.
pub(crate) fn push_owned(
    text: &mut String,
    number: u64,
    sync: u64,
    trail: bool,
    owned: &Owned,
) -> Result<(), NoMemory>
    ensures added { OnOk result (string_bytes text.new ≡ string_bytes text.old
        ++ (spec.flow_text number sync (spec.owned_words owned.now) ++ trail_if trail number [])) }
    ensures front { OnErr result (HasFront text.new text.old) }
{
    push_head(text, number, sync)?;
    push_words(text, owned)?;
    push(text, "\n")?;
    push_no_trail(text, number, trail)
}

/// Adds the line of a flow that opens, with this verdict, and that it isn't kept where it was sent to
/// an endpoint.
pub(crate) fn push_opened(
    text: &mut String,
    number: u64,
    sync: u64,
    verdict: &Verdict,
    kept: bool,
) -> Result<(), NoMemory>
    ensures added { OnOk result (string_bytes text.new ≡ string_bytes text.old
        ++ spec.opening_text number sync verdict.now kept) }
    ensures front { OnErr result (HasFront text.new text.old) }
{
    match verdict {
        Verdict::To { endpoint, masked } if !kept => {
            push_head(text, number, sync)?;
            push_to(text, "to ", endpoint, *masked)?;
            push(text, " untracked\n")
        }
        _ => push_answer(text, number, sync, verdict),
    }
}

/// Adds how the line of a packet begins.
fn push_head(text: &mut String, number: u64, sync: u64) -> Result<(), NoMemory>
    ensures added { OnOk result (string_bytes text.new ≡ string_bytes text.old
        ++ (codes "packet " ++ decimal number ++ codes " at " ++ decimal sync ++ codes ": ")) }
    ensures front { OnErr result (HasFront text.new text.old) }
{
    push_labelled(text, "packet ", number)?;
    push_labelled(text, " at ", sync)?;
    push(text, ": ")
}

/// Adds what a flow of an open connection is answered.
fn push_words(text: &mut String, owned: &Owned) -> Result<(), NoMemory>
    ensures added { OnOk result (string_bytes text.new
        ≡ string_bytes text.old ++ spec.owned_words owned.now) }
    ensures front { OnErr result (HasFront text.new text.old) }
{
    match owned {
        Owned::Later { endpoint, masked } => push_to(text, "later to ", endpoint, *masked),
        Owned::Reply { door } => {
            push(text, "reply as ")?;
            push_endpoint(text, door)
        }
    }
}

/// Adds where a flow goes, behind some words.
fn push_to(
    text: &mut String,
    words: &str,
    endpoint: &Endpoint,
    masked: bool,
) -> Result<(), NoMemory>
    ensures added { OnOk result (string_bytes text.new ≡ string_bytes text.old
        ++ (words.now ++ endpoint_text endpoint.now ++ masked_text masked)) }
    ensures front { OnErr result (HasFront text.new text.old) }
{
    push(text, words)?;
    push_endpoint(text, endpoint)?;
    push(text, masked_words(masked))
}

fn masked_words(masked: bool) -> &'static str
    ensures { result.now ≡ masked_text masked }
{
    if masked { " masked" } else { "" }
}

/// Adds that a packet passed no rule, where its trail is asked for.
pub(crate) fn push_no_trail(text: &mut String, number: u64, trail: bool) -> Result<(), NoMemory>
    ensures added { OnOk result (string_bytes text.new
        ≡ string_bytes text.old ++ trail_if trail number []) }
    ensures front { OnErr result (HasFront text.new text.old) }
{
    if !trail {
        return Ok(());
    }
    push_labelled(text, "trail ", number)?;
    push(text, ": none\n")
}
