//! Texts that are read line by line.
ghost use Rattle.std.specs.Prelude.{◌≡◌, ℕ, [], List, Option, IfOk, IfSome, Err, None, true};
ghost use Rattle.kp_restore.specs.Reading.{IsRead, IsRefused, IsStuck, IsTaken};
ghost use Rattle.kp_restore.specs.Steps as spec;
ghost use Rattle.kp_restore.specs.declared.fault.TextFault.TheVariants.{BadText};
ghost use Rattle.kp_restore.specs.declared.so_far.SoFar as so_far_row;

use crate::fault::TextFault;
use crate::line::read_line;
use crate::pieces::first_line;
use crate::section::{Form, Section};
use crate::so_far::{Phase, SoFar};
use crate::step::{start, step};
use kp_base::{Family, Items, NoMemory};
use kp_types::TableName;
use std::alloc::Global;

/// The sections of a family's text in a form, or the first line that none has there.
pub(crate) fn read_text(
    alloc: Global,
    form: Form,
    family: Family,
    bytes: &[u8],
) -> Result<Items<Section>, TextFault>
    ensures ok { IfOk result (λ done. (s : so_far_row.SoFar) × (n : ℕ)
        × IsRead family (spec.step form) spec.start bytes.now s [] n × spec.IsEnd form s
        × (done ≡ s.done)) }
    ensures bad { (n : ℕ) → result ≡ Err (BadText n) → (s : so_far_row.SoFar) × (rest : List ℕ)
        × IsRead family (spec.step form) spec.start bytes.now s rest n
        × IsStuck family (spec.step form) (spec.IsEnd form) s rest }
{
    let mut so_far = start(alloc);
    let mut rest = bytes;
    let mut number = 1;
    while let Some((line, behind)) = first_line(rest) {
        so_far = match after_line(alloc, form, family, so_far, line)? {
            Some(next) => next,
            None => return Err(TextFault::BadText { line: number }),
        };
        rest = behind;
        number += 1;
    }
    finished(form, so_far, rest).ok_or(TextFault::BadText { line: number })
}

/// What is read with the line of these bytes, or nothing where it isn't taken.
fn after_line(
    alloc: Global,
    form: Form,
    family: Family,
    so_far: SoFar,
    bytes: &[u8],
) -> Result<Option<SoFar>, NoMemory>
    ensures taken { IfOk result
        (λ next. IfSome next (IsTaken family (spec.step form) so_far bytes.now)) }
    ensures refused { IfOk result
        (λ next. next ≡ None → IsRefused family (spec.step form) so_far bytes.now) }
{
    match read_line(family, bytes) {
        Some(line) => step(alloc, form, so_far, line),
        None => Ok(None),
    }
}

/// The sections of the text, where nothing stands behind the last line and nothing is owed.
fn finished(form: Form, so_far: SoFar, rest: &[u8]) -> Option<Items<Section>>
    ensures value { IfSome result (λ done. (rest.now ≡ []) × spec.IsEnd form so_far
        × (done ≡ so_far.done)) }
    ensures none { result ≡ None → rest.now ≡ [] → spec.IsEnd form so_far → ⊥ }
{
    if rest.is_empty() && may_end(form, &so_far.phase) {
        Some(so_far.done)
    } else {
        None
    }
}

/// Whether the text may end here: whole tables owe both sections.
fn may_end(form: Form, phase: &Phase) -> bool
    ensures { result ≡ spec.may_end_in form phase.now }
{
    match (form, phase) {
        (Form::Changes, Phase::Between { .. }) => true,
        (
            Form::Whole,
            Phase::Between {
                last: Some(TableName::Filter | TableName::Filter6),
            },
        ) => { true }
        _ => false,
    }
}
