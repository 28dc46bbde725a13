//! Syncs, and the line where the words don't fit.
ghost use Rattle.std.specs.Prelude.{◌≡◌, ◌++◌, IfOk, OnErr, OnOk, string_bytes};
ghost use Rattle.kp_text_defs.specs.Printed as spec;
ghost use Rattle.kp_print.specs.Fronts.{HasFront};

use kp_base::{NoMemory, Text};
use kp_print::{push, push_labelled};
use std::alloc::Global;

/// The line of a sync: its number, the events that it took, and the chains written and removed.
pub fn sync_text(
    alloc: Global,
    number: u64,
    events: u64,
    written: u64,
    removed: u64,
) -> Result<Text, NoMemory>
    ensures { IfOk result (λ t. t ≡ spec.sync_text number events written removed) }
{
    let mut text = String::new(alloc);
    push_sync(&mut text, number, events, written, removed)?;
    Text::from_string(text)
}

/// Adds the line of a sync.
pub fn push_sync(
    text: &mut String,
    number: u64,
    events: u64,
    written: u64,
    removed: u64,
) -> Result<(), NoMemory>
    ensures added { OnOk result (string_bytes text.new
        ≡ string_bytes text.old ++ spec.sync_text number events written removed) }
    ensures front { OnErr result (HasFront text.new text.old) }
{
    push_labelled(text, "sync ", number)?;
    push_counts(text, events, written, removed)
}

/// Adds what a sync did, with the end of its line.
pub(crate) fn push_counts(
    text: &mut String,
    events: u64,
    written: u64,
    removed: u64,
) -> Result<(), NoMemory>
    ensures added { OnOk result (string_bytes text.new
        ≡ string_bytes text.old ++ spec.counts_text events written removed) }
    ensures front { OnErr result (HasFront text.new text.old) }
{
    push_labelled(text, ": events ", events)?;
    push_labelled(text, ", written ", written)?;
    push_labelled(text, ", removed ", removed)?;
    push(text, "\n")
}

/// The line that is printed where the words don't fit.
pub fn usage_text() -> &'static str
    ensures { result.now ≡ spec.usage_text }
{
    "usage: kproxy replay [--workers N] | kproxy live | kproxy gen SEED SERVICES PODS\n"
}
