//! Reading a line of a script.
ghost use Rattle.std.specs.Prelude.{◌≡◌, codes, Some, Err};
ghost use Rattle.kp_json.specs.Places.{member_at};
ghost use Rattle.kp_json.specs.Views.{data_of, place_of};
ghost use Rattle.kp_row_defs.specs.Reads.{Reads};
ghost use Rattle.kp_row_defs.specs.Rows.{row_fault};
ghost use Rattle.kp_row_defs.specs.Fields.{chosen, text_in};
ghost use Rattle.kp_text_defs.specs.declared.line_refusal.LineRefusal.TheVariants.{BadJson, UnknownOp};
ghost use Rattle.kp_text_defs.specs.declared.script.Op.{Op as SpecOp};
ghost use Rattle.kp_text_defs.specs.JsonText.{json_of};
ghost use Rattle.kp_text_defs.specs.ScriptLines.{config_op, event_op, line_of, op_at, op_named, or_refusal, read_script, show_row, shows};
ghost use Rattle.kp_script.specs.ScriptAnswers.{GivesScript, Told, of_json_fault};

use crate::config::config_of;
use crate::fault::ScriptFault;
use crate::packet::packet_of;
use crate::stream::stream_field;
use kp_base::Text;
use kp_events::event_of;
use kp_fields::needed_choice;
use kp_json::{FieldFault, JsonFault, Spot, Tree, read_tree};
use kp_packet_lines::{Scratch, packet_line};
use kp_text_defs::{LineRefusal, Op, ScriptLine, Shown};
use std::alloc::Global;

/// Reads a line that isn't blank. It may be the first of a script or a later one.
pub fn line_of(alloc: Global, bytes: &[u8], first: bool) -> Result<ScriptLine, ScriptFault>
    ensures { GivesScript (λ line. line) result (line_of bytes.now first) }
{
    let tree = tree_of(alloc, bytes)?;
    script_of(alloc, &tree.root(), first)
}

/// The same with memory that is kept from line to line, so that a plain packet line is read without
/// a tree. No line makes the scratch larger than some 32 KB.
pub fn line_with(
    alloc: Global,
    bytes: &[u8],
    first: bool,
    scratch: &mut Scratch,
) -> Result<ScriptLine, ScriptFault>
    ensures { GivesScript (λ line. line) result (line_of bytes.now first) }
{
    match packet_line(alloc, bytes, scratch) {
        Some(Ok(line)) => Ok(line),
        Some(Err(refusal)) => Err(ScriptFault::Refused(refusal)),
        None => line_of(alloc, bytes, first),
    }
}

fn tree_of(alloc: Global, bytes: &[u8]) -> Result<Tree, ScriptFault>
    ensures { GivesScript data_of result (or_refusal BadJson (json_of bytes.now)) }
{
    match read_tree(alloc, bytes) {
        Ok(tree) => Ok(tree),
        Err(fault) => Err(json_fault(fault)),
    }
}

fn json_fault(fault: JsonFault) -> ScriptFault
    ensures { result ≡ of_json_fault fault }
{
    match fault {
        JsonFault::BadJson => ScriptFault::Refused(LineRefusal::BadJson),
        JsonFault::NoMemory(refused) => ScriptFault::NoMemory(refused),
    }
}

fn script_of<'a>(alloc: Global, spot: &'a Spot<'a>, first: bool) -> Result<ScriptLine, ScriptFault>
    ensures { GivesScript (λ line. line) result (read_script first (place_of spot.now)) }
{
    if !spot.is_object() {
        return Err(ScriptFault::Refused(LineRefusal::NotEvent));
    }
    let by = stream_field(alloc, spot)?;
    let op = op_of(alloc, spot, first)?;
    Ok(ScriptLine { by, op })
}

/// The operation of a line. Without a command's name it is an event text.
fn op_of<'a>(alloc: Global, spot: &'a Spot<'a>, first: bool) -> Result<Op, ScriptFault>
    ensures { GivesScript (λ op. op) result
        (op_at first (place_of spot.now) (member_at (place_of spot.now) (codes "op"))) }
{
    match spot.get("op") {
        None => Ok(Op::Events(event_of(alloc, spot)?)),
        Some(op) => {
            let name = op.str_at(alloc)?;
            op_named(alloc, spot, first, name)
        }
    }
}

/// The operation of the command of this name.
fn op_named<'a>(
    alloc: Global,
    spot: &'a Spot<'a>,
    first: bool,
    name: &str,
) -> Result<Op, ScriptFault>
    ensures { GivesScript (λ op. op) result (op_named first (place_of spot.now) name.now) }
{
    match name {
        "packet" => Ok(Op::Packet(packet_of(alloc, spot)?)),
        "explain" => Ok(Op::Explain(packet_of(alloc, spot)?)),
        "sync" => Ok(Op::Sync),
        "event" => event_op(alloc, spot),
        "show" => Ok(Op::Show(shown_field(alloc, spot)?)),
        "config" => config_op(alloc, spot, first),
        _ => Err(unknown_op(alloc, name)),
    }
}

fn config_op<'a>(alloc: Global, spot: &'a Spot<'a>, first: bool) -> Result<Op, ScriptFault>
    ensures { GivesScript (λ op. op) result (config_op first (place_of spot.now)) }
{
    if !first {
        return Err(ScriptFault::Refused(LineRefusal::ConfigLate));
    }
    Ok(Op::Config(config_of(alloc, spot)?))
}

fn event_op<'a>(alloc: Global, spot: &'a Spot<'a>) -> Result<Op, ScriptFault>
    ensures { GivesScript (λ op. op) result (event_op (place_of spot.now)) }
{
    let event = spot.needed(alloc, "event")?;
    Ok(Op::Events(event_of(alloc, &event)?))
}

/// What a line shows.
fn shown_field<'a>(alloc: Global, spot: &'a Spot<'a>) -> Result<Shown, FieldFault>
    ensures { Reads (λ s. s) result (row_fault show_row (place_of spot.now))
        (chosen shows Shown.Slices (text_in (codes "what") (place_of spot.now))) }
{
    let choices = [
        "slices",
        "endpoints",
        "nat",
        "filter",
        "batch",
        "nat6",
        "filter6",
        "batch6",
    ];
    let text = needed_choice(alloc, spot, "what", &choices)?;
    Ok(shown_of(text))
}

fn shown_of(text: &str) -> Shown
    ensures { result ≡ chosen shows Shown.Slices (Some text.now) }
{
    match text {
        "endpoints" => Shown::Endpoints,
        "nat" => Shown::Nat,
        "filter" => Shown::Filter,
        "batch" => Shown::Batch,
        "nat6" => Shown::Nat6,
        "filter6" => Shown::Filter6,
        "batch6" => Shown::Batch6,
        _ => Shown::Slices,
    }
}

fn unknown_op(alloc: Global, name: &str) -> ScriptFault
    ensures { Told {Y = SpecOp} result (Err (UnknownOp name.now)) }
{
    match Text::of(alloc, name) {
        Ok(op) => ScriptFault::Refused(LineRefusal::UnknownOp { op }),
        Err(refused) => ScriptFault::NoMemory(refused),
    }
}
