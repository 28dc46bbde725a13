//! The parts of a script, and their lines.
ghost use Rattle.std.specs.Prelude.{◌≡◌, ◌≤◌, ◌<◌, ◌++◌, OnErr, OnOk, string_bytes};
ghost use Rattle.kp_gen_defs.specs.Script as spec;
ghost use Rattle.kp_print.specs.Fronts.{HasFront};

use crate::objects::{push_node, push_service};
use crate::operations::{push_config, push_packet, push_sync};
use crate::pods::{push_delete, push_pod};
use kp_base::NoMemory;
use kp_gen_defs::{ScriptPart, ScriptPlan};

/// The parts of a script in their order.
pub fn script_parts() -> [ScriptPart; 9]
    ensures { result ≡ spec.script_parts }
{
    [
        ScriptPart::Config,
        ScriptPart::Nodes,
        ScriptPart::Services,
        ScriptPart::Pods,
        ScriptPart::Sync,
        ScriptPart::Packets,
        ScriptPart::Deletes,
        ScriptPart::Sync,
        ScriptPart::LaterPackets,
    ]
}

/// How many lines a part has.
pub fn lines_in(plan: ScriptPlan, part: ScriptPart) -> u64
    requires { spec.IsPlan plan }
    ensures value { result ≡ spec.lines_in plan part }
    ensures few { result ≤ 60000 }
{
    match part {
        ScriptPart::Config | ScriptPart::Sync => 1,
        ScriptPart::Nodes => 3,
        ScriptPart::Services => plan.services,
        ScriptPart::Pods => plan.pods,
        ScriptPart::Packets | ScriptPart::LaterPackets => 4 * plan.services,
        ScriptPart::Deletes => plan.pods / 10,
    }
}

/// Adds the line at a place of a part, from 0, without a line feed.
pub fn push_line(
    text: &mut String,
    plan: ScriptPlan,
    part: ScriptPart,
    place: u64,
) -> Result<(), NoMemory>
    requires plan { spec.IsPlan plan }
    requires within { place < spec.lines_in plan part }
    ensures added { OnOk result (string_bytes text.new
        ≡ string_bytes text.old ++ spec.line_in plan part place) }
    ensures front { OnErr result (HasFront text.new text.old) }
{
    match part {
        ScriptPart::Config => push_config(text),
        ScriptPart::Nodes => push_node(text, place),
        ScriptPart::Services => push_service(text, place),
        ScriptPart::Pods => push_pod(text, plan, place),
        ScriptPart::Sync => push_sync(text),
        ScriptPart::Packets => push_packet(text, plan, 0, place),
        ScriptPart::Deletes => push_delete(text, 10 * place + 9),
        ScriptPart::LaterPackets => push_packet(text, plan, 20_000, place),
    }
}
