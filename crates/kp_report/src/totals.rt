//! The line of the generator.
ghost use Rattle.std.specs.Prelude.{◌≡◌, ◌++◌, IfOk, OnErr, OnOk, string_bytes};
ghost use Rattle.kp_text_defs.specs.Live as spec;
ghost use Rattle.kp_print.specs.Fronts.{HasFront};

use kp_base::{NoMemory, Text};
use kp_print::{push, push_labelled};
use kp_text_defs::Totals;
use std::alloc::Global;

/// The one line of the generator.
pub fn totals_text(alloc: Global, totals: &Totals) -> Result<Text, NoMemory>
    ensures { IfOk result (λ t. t ≡ spec.totals_text totals.now) }
{
    let mut text = String::new(alloc);
    push_totals(&mut text, totals)?;
    Text::from_string(text)
}

/// Adds the line of the generator.
pub fn push_totals(text: &mut String, totals: &Totals) -> Result<(), NoMemory>
    ensures added { OnOk result (string_bytes text.new
        ≡ string_bytes text.old ++ spec.totals_text totals.now) }
    ensures front { OnErr result (HasFront text.new text.old) }
{
    push_run(text, totals)?;
    push_verdicts(text, totals)?;
    push_changes(text, totals)
}

/// Adds what was run.
fn push_run(text: &mut String, totals: &Totals) -> Result<(), NoMemory>
    ensures added { OnOk result (string_bytes text.new
        ≡ string_bytes text.old ++ spec.run_text totals.now) }
    ensures front { OnErr result (HasFront text.new text.old) }
{
    push_labelled(text, "gen: events ", totals.events)?;
    push_labelled(text, ", syncs ", totals.syncs)?;
    push_labelled(text, ", packets ", totals.packets)
}

/// Adds what became of the packets.
fn push_verdicts(text: &mut String, totals: &Totals) -> Result<(), NoMemory>
    ensures added { OnOk result (string_bytes text.new
        ≡ string_bytes text.old ++ spec.verdicts_text totals.now) }
    ensures front { OnErr result (HasFront text.new text.old) }
{
    push_answered(text, totals)?;
    push_unanswered(text, totals)
}

fn push_answered(text: &mut String, totals: &Totals) -> Result<(), NoMemory>
    ensures added { OnOk result (string_bytes text.new
        ≡ string_bytes text.old ++ spec.answered_text totals.now) }
    ensures front { OnErr result (HasFront text.new text.old) }
{
    push_labelled(text, ", to ", totals.to)?;
    push_labelled(text, ", rejected ", totals.rejected)
}

fn push_unanswered(text: &mut String, totals: &Totals) -> Result<(), NoMemory>
    ensures added { OnOk result (string_bytes text.new
        ≡ string_bytes text.old ++ spec.unanswered_text totals.now) }
    ensures front { OnErr result (HasFront text.new text.old) }
{
    push_labelled(text, ", dropped ", totals.dropped)?;
    push_labelled(text, ", left alone ", totals.left_alone)
}

/// Adds the chains that were written and removed, with the end of the line.
fn push_changes(text: &mut String, totals: &Totals) -> Result<(), NoMemory>
    ensures added { OnOk result (string_bytes text.new
        ≡ string_bytes text.old ++ spec.changes_text totals.now) }
    ensures front { OnErr result (HasFront text.new text.old) }
{
    push_labelled(text, ", written ", totals.written)?;
    push_labelled(text, ", removed ", totals.removed)?;
    push(text, "\n")
}
