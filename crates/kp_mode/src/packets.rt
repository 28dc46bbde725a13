//! Packets that are answered, and explained, as a replay does.
ghost use Rattle.std.specs.Prelude.{◌≡◌, ◌<◌, ◌^◌, ◌++◌, ℕ, true, string_bytes, IfOk, OnErr, OnOk};
ghost use Rattle.kp_answers.specs.Walks.{walk_in};
ghost use Rattle.kp_choice_defs.specs.Recent.{RecentParts};
ghost use Rattle.kp_mode.specs.Calls as calls;
ghost use Rattle.kp_mode_defs.specs.Mode as modes;
ghost use Rattle.kp_plane.specs.Parts as parts;
ghost use Rattle.kp_plane.specs.Parts.{decided_in, explained_in, walked_in};
ghost use Rattle.kp_print.specs.Fronts.{HasFront};
ghost use Rattle.kp_run_defs.specs.ReplayText as spec;
ghost use Rattle.kp_table_defs.specs.Ranks.{is_ranked};
ghost use Rattle.kp_text_defs.specs.declared.packet.PacketLine.{PacketLine};
ghost use Rattle.kp_walk_laws.specs.Laws.{Agree};

use kp_answers::laws::draws_are_low;
use kp_answers::{Snapshot, draw_at};
use kp_base::NoMemory;
use kp_draws::DrawSource;
use kp_plane::Plane;
use kp_recent::RecentLists;
use kp_report::push_explain;
use kp_text_defs::PacketLine;
use kp_types::Decision;
use kp_workers::PartLists;
use std::alloc::Global;

/// Answers a packet by where the rules send it, which is where the objects say that it goes, and
/// tells its trail where the line asks for it. Its source may be remembered.
pub fn answered(
    plane: &Plane,
    number: u64,
    line: &PacketLine,
    lists: &mut PartLists,
    text: &mut String,
) -> Result<(), NoMemory>
    ensures text { OnOk result (string_bytes text.new ≡ string_bytes text.old
        ++ (spec.packet_line number line.now
        (modes.standing_at (calls.covered_by plane.now) lists.old)).text) }
    ensures lists { OnOk result (lists.new ≡ (spec.packet_line number line.now
        (modes.standing_at (calls.covered_by plane.now) lists.old)).next.lists) }
    ensures front { OnErr result (HasFront text.new text.old) }
{
    lists.answer(&snapshot_of(plane), number, line, text)
}

/// Tells where the objects say that a packet goes, and why. Nothing is remembered.
pub fn explained(
    alloc: Global,
    plane: &mut Plane,
    number: u64,
    line: &PacketLine,
    lists: &PartLists,
    text: &mut String,
) -> Result<(), NoMemory>
    ensures plane { plane.new ≡ plane.old }
    ensures text { OnOk result (string_bytes text.new ≡ string_bytes text.old
        ++ (spec.explain_line number line.now
        (modes.standing_at (calls.covered_by plane.old) lists.now)).text) }
    ensures front { OnErr result (HasFront text.new text.old) }
{
    let sync = plane.syncs();
    let own = lists.own(&line.packet.source);
    let decision = decision_on(alloc, plane, number, line, own)?;
    push_explain(text, number, sync, &decision)
}

/// What packets are answered from: the table as the last sync left it, where each packet goes as
/// the objects say.
pub fn snapshot_of(plane: &Plane) -> Snapshot<'_>
    ensures sync { result.sync ≡ parts.syncs_in plane.now }
    ensures ranked { is_ranked result.table.now.chains ≡ true }
    ensures walked { (number : ℕ) (line : PacketLine) (lists : RecentParts)
        → walk_in result number line lists
        ≡ walked_in plane.now line.packet (spec.draws_at number line.draws) lists }
    ensures decided { (number : ℕ) (line : PacketLine) (lists : RecentParts)
        → Agree (walk_in result number line lists)
        (decided_in plane.now line.packet (spec.draws_at number line.draws) lists) }
{
    Snapshot {
        table: plane.table(),
        node: &plane.config().addresses,
        sync: plane.syncs(),
    }
}

/// The decision on a line's packet, with its reason.
fn decision_on(
    alloc: Global,
    plane: &mut Plane,
    number: u64,
    line: &PacketLine,
    lists: &RecentLists,
) -> Result<Decision, NoMemory>
    ensures decided { IfOk result (λ d. d ≡ explained_in plane.old line.now.packet
        (spec.draws_at number line.now.draws) lists.now) }
    ensures stays { plane.new ≡ plane.old }
{
    let source = DrawSource::new(
        |number: u64, k: u32| -> u32
            ensures value { result ≡ spec.draws_at number line.entry.now.draws k }
            ensures low { result < 2 ^ 31 }
        { draw_at(line, number, k) },
    );
    draws_are_low();
    plane.explain(alloc, number, &line.packet, &source, lists)
}
