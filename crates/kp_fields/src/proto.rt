//! Names and protocols of ports.
ghost use Rattle.std.specs.Prelude.{◌≡◌, codes, option_map};
ghost use Rattle.kp_json.specs.Views.{place_of};
ghost use Rattle.kp_row_defs.specs.Fields.{port_name_in, protocols, text_in, texts_of, chosen};
ghost use Rattle.kp_row_defs.specs.Reads.{Reads};
ghost use Rattle.kp_row_defs.specs.Rows.{optional, port_name_text, choice, field_fault};

use crate::text::{TextForm, choice_field, copied_text, text_field};
use kp_base::{Proto, Text};
use kp_json::{FieldFault, Spot};
use std::alloc::Global;

/// The protocol of a port, or of a packet. It is TCP where none is given.
pub fn proto_field<'a>(
    alloc: Global,
    spot: &'a Spot<'a>,
    name: &'a str,
) -> Result<Proto, FieldFault>
    ensures { Reads (λ p. p) result
        (field_fault name.now optional (choice (texts_of protocols)) (place_of spot.now))
        (chosen protocols Proto.Tcp (text_in name.now (place_of spot.now))) }
{
    let text = choice_field(alloc, spot, name, &["TCP", "UDP", "SCTP"])?;
    Ok(proto_of(text))
}

fn proto_of(text: Option<&str>) -> Proto
    ensures { result ≡ chosen protocols Proto.Tcp (option_map (λ t. t.now) text.entry) }
{
    match text {
        Some("UDP") => Proto::Udp,
        Some("SCTP") => Proto::Sctp,
        _ => Proto::Tcp,
    }
}

/// The name of a port. It is empty where none is given.
pub fn port_name_field<'a>(alloc: Global, spot: &'a Spot<'a>) -> Result<Text, FieldFault>
    ensures { Reads (λ t. t) result
        (field_fault (codes "name") optional port_name_text (place_of spot.now))
        (port_name_in (place_of spot.now)) }
{
    match text_field(alloc, spot, "name", TextForm::PortName)? {
        Some(name) => copied_text(alloc, name),
        None => copied_text(alloc, ""),
    }
}
