//! Refusals of lines.
ghost use Rattle.std.specs.Prelude.{◌≡◌, ◌++◌, IfOk, OnErr, OnOk, string_bytes, codes, decimal};
ghost use Rattle.kp_text_defs.specs.Keys.{json_text};
ghost use Rattle.kp_text_defs.specs.Refusals as spec;
ghost use Rattle.kp_print.specs.Fronts.{HasFront};

use crate::key::push_quoted;
use crate::live::push_clash;
use kp_base::{NoMemory, Text};
use kp_json::{BadField, Why};
use kp_print::{push, push_labelled};
use kp_text_defs::LineRefusal;
use std::alloc::Global;

/// The line of a refusal, by the number of the refused line.
pub fn refusal_text(alloc: Global, number: u64, refusal: &LineRefusal) -> Result<Text, NoMemory>
    ensures { IfOk result (λ t. t ≡ spec.refusal_text number refusal.now) }
{
    let mut text = String::new(alloc);
    push_refusal(alloc, &mut text, number, refusal)?;
    Text::from_string(text)
}

/// Adds the line of a refusal. Texts in quotes take memory of their own.
pub fn push_refusal(
    alloc: Global,
    text: &mut String,
    number: u64,
    refusal: &LineRefusal,
) -> Result<(), NoMemory>
    ensures added { OnOk result (string_bytes text.new
        ≡ string_bytes text.old ++ spec.refusal_text number refusal.now) }
    ensures front { OnErr result (HasFront text.new text.old) }
{
    push_labelled(text, "line ", number)?;
    push(text, ": refused: ")?;
    push_words(alloc, text, refusal)?;
    push(text, "\n")
}

/// Adds why a line is refused.
fn push_words(alloc: Global, text: &mut String, refusal: &LineRefusal) -> Result<(), NoMemory>
    ensures added { OnOk result (string_bytes text.new
        ≡ string_bytes text.old ++ spec.refusal_words refusal.now) }
    ensures front { OnErr result (HasFront text.new text.old) }
{
    match refusal {
        LineRefusal::BadJson => push(text, "bad json"),
        LineRefusal::NotEvent => push(text, "not an event"),
        LineRefusal::UnsupportedKind { kind } => {
            push_around(alloc, text, "kind ", kind, " is not supported")
        }
        LineRefusal::Bad(bad) => push_bad_field(alloc, text, bad),
        LineRefusal::UnknownOp { op } => push_around(alloc, text, "op ", op, " is not known"),
        LineRefusal::ConfigLate => push(text, "config is not the first line"),
        LineRefusal::TooLongLine => push(text, "longer than 16777216 bytes"),
        LineRefusal::JournalFull { count } => push_full(text, *count),
        LineRefusal::ChainClash(clash) => push_clash(text, clash),
        LineRefusal::NotLive { op } => push_around(alloc, text, "op ", op, " is not for live"),
        LineRefusal::StreamsFull => push(text, "more than 64 streams"),
    }
}

/// Adds a text in quotes, with words before and behind it.
fn push_around(
    alloc: Global,
    text: &mut String,
    before: &str,
    quoted: &Text,
    behind: &str,
) -> Result<(), NoMemory>
    ensures added { OnOk result (string_bytes text.new ≡ string_bytes text.old
        ++ (before.now ++ json_text quoted.now ++ behind.now)) }
    ensures front { OnErr result (HasFront text.new text.old) }
{
    push(text, before)?;
    push_quoted(alloc, text, quoted.as_str())?;
    push(text, behind)
}

fn push_full(text: &mut String, count: u64) -> Result<(), NoMemory>
    ensures added { OnOk result (string_bytes text.new
        ≡ string_bytes text.old ++ (codes "journal full at " ++ decimal count)) }
    ensures front { OnErr result (HasFront text.new text.old) }
{
    push_labelled(text, "journal full at ", count)
}

/// Adds a member that is refused.
fn push_bad_field(alloc: Global, text: &mut String, bad: &BadField) -> Result<(), NoMemory>
    ensures added { OnOk result (string_bytes text.new
        ≡ string_bytes text.old ++ spec.bad_field_text bad.now) }
    ensures front { OnErr result (HasFront text.new text.old) }
{
    push(text, why_words(bad.why))?;
    push_quoted(alloc, text, bad.path.as_str())?;
    push_count(text, bad.why, bad.count)
}

fn why_words(why: Why) -> &'static str
    ensures { result.now ≡ spec.why_text why }
{
    match why {
        Why::Missing => "missing ",
        Why::WrongType => "wrong type at ",
        Why::OutOfRange => "out of range at ",
        Why::BadName => "bad name at ",
        Why::BadAddress => "bad address at ",
        Why::BadCidr => "bad range at ",
        Why::DuplicatePort => "duplicate port at ",
        Why::TooMany => "too many at ",
    }
}

/// Adds how many elements there are, where they are too many.
fn push_count(text: &mut String, why: Why, count: u64) -> Result<(), NoMemory>
    ensures added { OnOk result (string_bytes text.new
        ≡ string_bytes text.old ++ spec.count_text why count) }
    ensures front { OnErr result (HasFront text.new text.old) }
{
    match why {
        Why::TooMany => push_behind_colon(text, count),
        Why::Missing
        | Why::WrongType
        | Why::OutOfRange
        | Why::BadName
        | Why::BadAddress
        | Why::BadCidr
        | Why::DuplicatePort => Ok(()),
    }
}

fn push_behind_colon(text: &mut String, count: u64) -> Result<(), NoMemory>
    ensures added { OnOk result (string_bytes text.new
        ≡ string_bytes text.old ++ (codes ": " ++ decimal count)) }
    ensures front { OnErr result (HasFront text.new text.old) }
{
    push_labelled(text, ": ", count)
}
