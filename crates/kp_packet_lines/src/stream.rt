//! The stream of a packet's line.
ghost use Rattle.std.specs.Prelude.{◌≡◌, ◌<◌, cond, length, Some, None};
ghost use Rattle.kp_row_defs.specs.Rows.{row_fault};
ghost use Rattle.kp_text_defs.specs.ScriptLines.{stream_from, stream_row};
ghost use Rattle.kp_text_defs.specs.StreamNames.{stream_of};
ghost use Rattle.kp_packet_lines.specs.Taken.{Takes, place_of};

use crate::fields::text_field;
use crate::object::PlainObject;
use crate::untaken::{Untaken, refused};
use kp_base::{Text, is_port_name};
use kp_json::Why;
use kp_text_defs::Stream;
use std::alloc::Global;

/// The stream that a line names, which is the main one where it names none.
pub(crate) fn stream(alloc: Global, object: &PlainObject<'_>) -> Result<Stream, Untaken>
    ensures { Takes (λ s. s) result (row_fault stream_row (place_of object.now))
        (stream_from (place_of object.now)) }
{
    match text_field(object, "by")? {
        None => Ok(Stream::Main),
        Some(name) if is_port_name(name.as_bytes()) => stream_of(alloc, name),
        Some(_) => Err(refused(alloc, Why::BadName, "by")),
    }
}

fn stream_of(alloc: Global, name: &str) -> Result<Stream, Untaken>
    ensures { Takes (λ s. s) result None (stream_of (Some name.now)) }
{
    if name == "main" {
        return Ok(Stream::Main);
    }
    match Text::of(alloc, name) {
        Ok(name) => Ok(Stream::Named(name)),
        Err(_) => Err(Untaken::Unread),
    }
}
