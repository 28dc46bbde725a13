//! Syncs of a replay.
ghost use Rattle.std.specs.Prelude.{◌≡◌, ◌<◌, None, IfOk, IfErr, OnOk, OnErr};
ghost use Rattle.kp_full_table.specs.Faults.{TellsClash};
ghost use Rattle.kp_object_defs.specs.Objects.{objects_after};
ghost use Rattle.kp_table_defs.specs.Rebuild.{clash_of};
ghost use Rattle.kp_plane.specs.Notes.{last_note};
ghost use Rattle.kp_plane.specs.Parts as parts;

use kp_base::Steps;
use kp_plane::{Plane, SyncNote, TableFault};
use std::alloc::Global;
use std::sync::ledger::{Blank, Ledger};

/// Brings a plane's table up to all its events, and answers the counts of that. Its steps are
/// counted for nobody.
pub(crate) fn noted<L: Ledger, A: Ledger>(
    alloc: Global,
    plane: &mut Plane,
    rules: Blank,
    ports: Blank,
) -> Result<SyncNote, TableFault>
    requires rules_name { rules.name ≡ L.name }
    requires rules_parts { rules.parts ≡ L.parts }
    requires some_rules { 0 < rules.parts }
    requires ports_name { ports.name ≡ A.name }
    requires ports_parts { ports.parts ≡ A.parts }
    requires some_ports { 0 < ports.parts }
    ensures note { IfOk result (λ n. n ≡ last_note (parts.uncovered_in plane.old) plane.new) }
    ensures no_clash { OnOk result (
        clash_of (parts.settings_in plane.old) (objects_after plane.old.events) ≡ None) }
    ensures ok { OnOk result (plane.new ≡ parts.synced plane.old) }
    ensures clash { IfErr result (TellsClash
        (clash_of (parts.settings_in plane.old) (objects_after plane.old.events))) }
    ensures covers { OnOk result (parts.uncovered_in plane.new ≡ 0) }
    ensures err { OnErr result (plane.new ≡ plane.old) }
{
    let mut steps = Steps::<L>::new(rules);
    let mut asked = Steps::<A>::new(ports);
    // The syncs cover events that there are, and so this one covers all.
    let _syncs = plane.syncs();
    plane.sync_noted(alloc, &mut steps, &mut asked)
}
