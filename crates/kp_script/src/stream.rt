//! The stream of a line.
ghost use Rattle.std.specs.Prelude.{◌≡◌, None, Some};
ghost use Rattle.kp_json.specs.Views.{place_of};
ghost use Rattle.kp_row_defs.specs.Reads.{Reads};
ghost use Rattle.kp_row_defs.specs.Rows.{row_fault};
ghost use Rattle.kp_text_defs.specs.ScriptLines.{stream_row, stream_from};
ghost use Rattle.kp_text_defs.specs.StreamNames.{stream_of};

use kp_base::is_port_name;
use kp_fields::copied_text;
use kp_json::{FieldFault, Spot, Why};
use kp_text_defs::Stream;
use std::alloc::Global;

/// The stream that a line names.
pub(crate) fn stream_field<'a>(alloc: Global, spot: &'a Spot<'a>) -> Result<Stream, FieldFault>
    ensures { Reads (λ s. s) result (row_fault stream_row (place_of spot.now))
        (stream_from (place_of spot.now)) }
{
    match spot.field(alloc, "by")? {
        None => Ok(Stream::Main),
        Some(member) => match member.as_text() {
            Some(text) if !text.is_empty() && is_port_name(text.as_bytes()) => {
                stream_of(alloc, text)
            }
            Some(_) => Err(member.bad(alloc, Why::BadName)),
            None => Err(member.bad(alloc, Why::WrongType)),
        },
    }
}

fn stream_of(alloc: Global, name: &str) -> Result<Stream, FieldFault>
    ensures { Reads (λ s. s) result None (stream_of (Some name.now)) }
{
    if name == "main" {
        return Ok(Stream::Main);
    }
    Ok(Stream::Named(copied_text(alloc, name)?))
}
