//! A packet's line.
ghost use Rattle.std.specs.Prelude.{◌≡◌, Bool, codes, IfSome};
ghost use Rattle.kp_json.specs.Places.{member_at};
ghost use Rattle.kp_row_defs.specs.Rows.{rows_fault};
ghost use Rattle.kp_text_defs.specs.PacketText.{packet_line_from, packet_rows};
ghost use Rattle.kp_text_defs.specs.ScriptLines.{line_of, op_at, read_script};
ghost use Rattle.kp_packet_lines.specs.Taken.{Gives, Takes, place_of};

use crate::draws::{draws_of, listed_draws};
use crate::fields::{
    moment, origin, proto, seed, source_address, source_port, target_address, target_port,
    text_field, trail,
};
use crate::object::PlainObject;
use crate::reading::plain_object;
use crate::stream::stream;
use crate::untaken::Untaken;
use json::Scratch;
use kp_text_defs::{LineRefusal, Op, PacketLine, ScriptLine};
use kp_types::Packet;
use std::alloc::Global;

/// The longest line that is read here, so that no more memory is kept for the next one.
const LONGEST: usize = 16384;

/// Reads a line that sends or explains a packet in the plain way: an object of at most 16,384 bytes
/// whose members are texts that aren't empty, whole numbers, truth values and lists of draws. Where
/// an address or the port is missing or bad, or the stream has a bad name, the line is refused.
/// Anything else is not taken, and neither is a line for which memory runs out.
pub fn packet_line(
    alloc: Global,
    bytes: &[u8],
    scratch: &mut Scratch,
) -> Option<Result<ScriptLine, LineRefusal>>
    ensures { IfSome result (λ read. (first : Bool) → line_of bytes.now first ≡ read) }
{
    if bytes.len() > LONGEST {
        return None;
    }
    let text = simdutf8::basic::from_utf8(bytes).ok()?;
    let object = plain_object(alloc, text, scratch)?;
    match line_in(alloc, object) {
        Ok(line) => Some(Ok(line)),
        Err(Untaken::Refused(field)) => Some(Err(LineRefusal::Bad(field))),
        Err(Untaken::Unread) => None,
    }
}

fn line_in(alloc: Global, object: PlainObject<'_>) -> Result<ScriptLine, Untaken>
    ensures { (first : Bool) → Gives result (read_script first (place_of object.entry)) }
{
    let by = stream(alloc, &object)?;
    let op = op_in(alloc, object)?;
    Ok(ScriptLine { by, op })
}

/// The packet that is sent or explained.
fn op_in(alloc: Global, object: PlainObject<'_>) -> Result<Op, Untaken>
    ensures { (first : Bool) → Gives result (op_at first (place_of object.entry)
        (member_at (place_of object.entry) (codes "op"))) }
{
    match text_field(&object, "op")? {
        Some("packet") => Ok(Op::Packet(packet_in(alloc, object)?)),
        Some("explain") => Ok(Op::Explain(packet_in(alloc, object)?)),
        _ => Err(Untaken::Unread),
    }
}

/// A packet and what stands beside it.
#[tactic(auto, using(crate::proofs::Refusals::first_fault, crate::proofs::Refusals::later_fault))]
fn packet_in(alloc: Global, object: PlainObject<'_>) -> Result<PacketLine, Untaken>
    ensures { Takes (λ p. p) result (rows_fault packet_rows (place_of object.entry))
        (packet_line_from (place_of object.entry)) }
{
    let from = origin(&object)?;
    let source = source_address(alloc, &object)?;
    let target = target_address(alloc, &object, source)?;
    let protocol = proto(&object)?;
    let from_port = source_port(&object)?;
    let port = target_port(alloc, &object)?;
    let now = moment(&object)?;
    let drawn = seed(&object)?;
    let has_trail = trail(&object)?;
    let list = listed_draws(object)?;
    let draws = draws_of(alloc, list, drawn);
    Ok(PacketLine {
        packet: Packet {
            from,
            source,
            target,
            proto: protocol,
            port,
            now,
        },
        source_port: from_port,
        draws,
        trail: has_trail,
    })
}
