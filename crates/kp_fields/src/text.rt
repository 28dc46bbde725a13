//! Texts.
ghost use Rattle.std.specs.Prelude.{◌≡◌, bytes_eq, map, option_map, unwrap_or, [], None, Some};
ghost use Rattle.std.specs.List.{list_any};
ghost use Rattle.kp_json.specs.Views.{place_of};
ghost use Rattle.kp_row_defs.specs.Fields.{is_text, text_in};
ghost use Rattle.kp_row_defs.specs.Reads.{Reads};
ghost use Rattle.kp_row_defs.specs.Rows.{optional, needed, choice, field_fault, is_one_of};
ghost use Rattle.kp_fields.specs.TextForms.{form_of, accepts};

use kp_base::{Text, is_label_value, is_name, is_port_name};
use kp_json::{FieldFault, Spot, Why};
use std::alloc::Global;

/// The form of a text.
#[derive(Clone, Copy)]
pub enum TextForm {
    Any,
    Name,
    PortName,
    Label,
}

impl TextForm {
    fn accepts(self, text: &str) -> bool
        ensures { result ≡ accepts self text.now }
    {
        match self {
            TextForm::Any => true,
            TextForm::Name => is_name(text.as_bytes()),
            TextForm::PortName => is_port_name(text.as_bytes()),
            TextForm::Label => is_label_value(text.as_bytes()),
        }
    }
}

/// The text of a member that may be absent. The empty text counts as absent.
pub fn text_field<'a>(
    alloc: Global,
    spot: &'a Spot<'a>,
    name: &'a str,
    form: TextForm,
) -> Result<Option<&'a str>, FieldFault>
    ensures { Reads (option_map (λ t. t.now)) result
        (field_fault name.now optional (form_of form) (place_of spot.now))
        (text_in name.now (place_of spot.now)) }
{
    match spot.field(alloc, name)? {
        None => Ok(None),
        Some(member) => match member.as_text() {
            Some(text) if text.is_empty() => Ok(None),
            Some(text) if form.accepts(text) => Ok(Some(text)),
            Some(_) => Err(member.bad(alloc, Why::BadName)),
            None => Err(member.bad(alloc, Why::WrongType)),
        },
    }
}

/// The text of a member that has to be there.
pub fn needed_text<'a>(
    alloc: Global,
    spot: &'a Spot<'a>,
    name: &'a str,
    form: TextForm,
) -> Result<&'a str, FieldFault>
    ensures { Reads (λ t. t.now) result
        (field_fault name.now needed (form_of form) (place_of spot.now))
        (unwrap_or (text_in name.now (place_of spot.now)) []) }
{
    let member = spot.needed(alloc, name)?;
    match member.as_text() {
        Some(text) if form.accepts(text) => Ok(text),
        Some(_) => Err(member.bad(alloc, Why::BadName)),
        None => Err(member.bad(alloc, Why::WrongType)),
    }
}

/// One of some texts. The empty text counts as absent.
pub fn choice_field<'a>(
    alloc: Global,
    spot: &'a Spot<'a>,
    name: &'a str,
    choices: &[&str],
) -> Result<Option<&'a str>, FieldFault>
    ensures { Reads (option_map (λ t. t.now)) result
        (field_fault name.now optional (choice (map (λ c. c.now) choices.now)) (place_of spot.now))
        (text_in name.now (place_of spot.now)) }
{
    match spot.field(alloc, name)? {
        None => Ok(None),
        Some(member) => match member.as_text() {
            Some(text) if text.is_empty() => Ok(None),
            Some(text) if is_one_of(text, choices) => Ok(Some(text)),
            Some(_) => Err(member.bad(alloc, Why::OutOfRange)),
            None => Err(member.bad(alloc, Why::WrongType)),
        },
    }
}

/// One of some texts, which has to be there. The empty text counts as absent.
pub fn needed_choice<'a>(
    alloc: Global,
    spot: &'a Spot<'a>,
    name: &'a str,
    choices: &[&str],
) -> Result<&'a str, FieldFault>
    ensures { Reads (λ t. Some t.now) result
        (field_fault name.now needed (choice (map (λ c. c.now) choices.now)) (place_of spot.now))
        (text_in name.now (place_of spot.now)) }
{
    match spot.field(alloc, name)? {
        None => Err(spot.missing(alloc, name)),
        Some(member) => match member.as_text() {
            Some(text) if text.is_empty() => Err(spot.missing(alloc, name)),
            Some(text) if is_one_of(text, choices) => Ok(text),
            Some(_) => Err(member.bad(alloc, Why::OutOfRange)),
            None => Err(member.bad(alloc, Why::WrongType)),
        },
    }
}

#[tactic(auto, using(crate::proofs::Tests::list_any_of_map))]
fn is_one_of(text: &str, choices: &[&str]) -> bool
    ensures { result ≡ is_one_of (map (λ c. c.now) choices.now) text.now }
{
    equals_any(text, choices)
}

fn equals_any(text: &str, choices: &[&str]) -> bool
    ensures { result ≡ list_any (λ c. bytes_eq text.now c.now) choices.now }
{
    choices.iter().any(|choice| text == *choice)
}

/// Whether a text is there, and it is this one.
pub fn is_text(text: Option<&str>, wanted: &str) -> bool
    ensures { result ≡ is_text wanted.now (option_map (λ t. t.now) text.entry) }
{
    matches!(text, Some(text) if text == wanted)
}

/// A copy of a text.
pub fn copied_text(alloc: Global, text: &str) -> Result<Text, FieldFault>
    ensures { Reads (λ t. t) result None text.now }
{
    Ok(Text::of(alloc, text)?)
}

/// A copy of a text, if there is one.
pub fn copied_option(alloc: Global, text: Option<&str>) -> Result<Option<Text>, FieldFault>
    ensures { Reads (λ t. t) result None (option_map (λ t. t.now) text.entry) }
{
    match text {
        None => Ok(None),
        Some(text) => Ok(Some(copied_text(alloc, text)?)),
    }
}
