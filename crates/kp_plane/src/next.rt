//! What one more sync keeps.
ghost use Rattle.std.specs.Prelude.{◌≡◌, ◌+◌, ◌++◌, ◌≤◌, [], length, IfOk, IfErr, OnOk, OnErr};
ghost use Rattle.std.specs.List.{flat_map, sum_by};
ghost use Rattle.kp_choice_defs.specs.Settings.{settings_of};
ghost use Rattle.kp_full_table.specs.Faults.{TellsClash};
ghost use Rattle.kp_object_defs.specs.Objects.{objects_after};
ghost use Rattle.kp_table_defs.specs.Rebuild.{clash_of};
ghost use Rattle.kp_writer.specs.Batch.{own_rules_written};
ghost use Rattle.kp_writer.specs.Known.{pending_ports};
ghost use Rattle.kp_writer.specs.Written as written;
ghost use Rattle.kp_plane.specs.Counts.{IsCounted};
ghost use Rattle.kp_plane.specs.Families.{Both, HasNoClash, Stands, listed, map_both};
ghost use Rattle.kp_plane.specs.Families.{newest_clash, own_dirty_rules, per_family};
ghost use Rattle.kp_plane.specs.Invariant.{Holds, IsMade, IsNext, IsPortsAt, parts_of};
ghost use Rattle.kp_plane.specs.Parts as parts;
ghost use Rattle.kp_plane.specs.Parts.{PlaneParts as Parts};

use crate::per_family::PerFamily;
use crate::ports_at::{PortsAt, none_dirty};
use kp_base::{Config, Items, NoMemory, Steps};
use kp_events::Journal;
use kp_full_table::TableFault;
use kp_history::History;
use kp_rules::Table;
use kp_types::Batch;
use kp_writer::{Pending, Writer};
use std::alloc::Global;
use std::mem::replace;
use std::sync::ledger::Ledger;

/// The batch of a sync, and the ports of which each family that the node has tables of knows
/// something else after it than before.
#[derive(Drop)]
pub(crate) struct Next {
    pub(crate) batch: Batch,
    pub(crate) dirty: PerFamily<Items<Pending>>,
}

/// What a sync of all events keeps. Where no event came since the last sync it is nothing, and
/// nothing is looked at or made. Else it costs what these events changed.
pub(crate) fn next_sync<L: Ledger, A: Ledger>(
    alloc: Global,
    config: &Config,
    journal: &Journal,
    history: &History,
    ports: &mut PortsAt,
    steps: &mut Steps<L>,
    asked: &mut Steps<A>,
) -> Result<Next, TableFault>
    requires { Holds (parts_of config.now journal.now history.now) history.now ports.old }
    ensures ports { IsPortsAt (parts_of config.now journal.now history.now) ports.new }
    ensures next { IfOk result (IsNext (parts_of config.now journal.now history.now) ports.new) }
    ensures clash { IfErr result (TellsClash
        (clash_of (settings_of config.now) (objects_after journal.now.events))) }
    ensures steps { IsCounted
        (parts.uncovered_in (parts_of config.now journal.now history.now))
        (parts.most_steps (parts_of config.now journal.now history.now)) steps.old steps.new }
    ensures asked { IsCounted
        (parts.uncovered_in (parts_of config.now journal.now history.now))
        (parts.most_asked (parts_of config.now journal.now history.now)) asked.old asked.new }
    ensures made { IfOk result (λ n. steps.old + own_rules_written n.batch.edits ≤ steps.new) }
{
    kp_object_laws::own_keys();
    kp_rules::laws::same_rules_are_equal();
    kp_history_laws::dirty_ports();
    kp_table_laws::family_stands_alone();
    kp_table_laws::no_clash_in_families();
    kp_table_laws::changes_of_node();
    kp_writer::known_ports();
    kp_writer::known_dirty_ports();
    let events = journal.events();
    if events.len() as u64 == history.covered {
        return Ok(nothing(alloc, config));
    }
    ports.bring_on(alloc, config, events, steps, asked)?;
    made(alloc, &ports.writers, &history.table, steps)
}

/// No edit and no dirty port.
fn nothing(alloc: Global, config: &Config) -> Next
    ensures edits { result.batch.edits ≡ [] }
    ensures dirty { result.dirty ≡ per_family config.now (λ family. []) }
{
    Next {
        batch: Batch {
            edits: Items::new(alloc),
        },
        dirty: none_dirty(alloc, config),
    }
}

/// What all writers make of a sync, where the table of what they have written is given. Nothing is
/// kept, so that where one is refused all stay as they were.
fn made<L: Ledger>(
    alloc: Global,
    writers: &PerFamily<Writer>,
    table: &Table,
    steps: &mut Steps<L>,
) -> Result<Next, TableFault>
    requires { Both (Stands table.now.chains) writers.now }
    ensures next { IfOk result (IsMade writers.now) }
    ensures clash { IfErr result (TellsClash (newest_clash writers.now)) }
    ensures made { IfOk result (λ n. steps.old + own_rules_written n.batch.edits ≤ steps.new) }
    ensures steps { steps.new ≤ steps.old + sum_by own_dirty_rules (listed writers.now) }
{
    let dirty = all_dirty(alloc, writers)?;
    let batch = all_edits(alloc, writers, table, steps)?;
    Ok(Next { batch, dirty })
}

/// The ports of which each writer knows something else than it has written.
fn all_dirty(
    alloc: Global,
    writers: &PerFamily<Writer>,
) -> Result<PerFamily<Items<Pending>>, NoMemory>
    ensures { IfOk result (λ dirty. dirty ≡ map_both pending_ports writers.now) }
{
    let four = writers.four.dirty(alloc)?;
    match &writers.six {
        Some(six) => Ok(PerFamily {
            four,
            six: Some(six.dirty(alloc)?),
        }),
        None => Ok(PerFamily { four, six: None }),
    }
}

/// The edits of each writer, which lead from what it has written to what it knows now: those of
/// IPv4, and then those of IPv6.
fn all_edits<L: Ledger>(
    alloc: Global,
    writers: &PerFamily<Writer>,
    table: &Table,
    steps: &mut Steps<L>,
) -> Result<Batch, TableFault>
    requires { Both (Stands table.now.chains) writers.now }
    ensures edits { IfOk result
        (λ b. b.edits ≡ flat_map written.next_edits (listed writers.now)) }
    ensures no_clash { OnOk result (Both HasNoClash writers.now) }
    ensures clash { IfErr result (TellsClash (newest_clash writers.now)) }
    ensures made { IfOk result (λ b. steps.old + own_rules_written b.edits ≤ steps.new) }
    ensures steps { steps.new ≤ steps.old + sum_by own_dirty_rules (listed writers.now) }
{
    let four = writers.four.edits(alloc, table, steps)?;
    let Some(six) = &writers.six else {
        return Ok(four);
    };
    let six = six.edits(alloc, table, steps)?;
    Ok(joined(alloc, four, six)?)
}

/// Edits and then others.
fn joined(alloc: Global, mut first: Batch, mut more: Batch) -> Result<Batch, NoMemory>
    ensures { IfOk result (λ all. all.edits ≡ first.edits ++ more.edits) }
{
    let mut edits = replace(&mut first.edits, Items::new(alloc)).into_vec();
    let more = replace(&mut more.edits, Items::new(alloc));
    edits.append(&mut more.into_vec())?;
    Ok(Batch {
        edits: Items::from_vec(edits),
    })
}

/// Keeps what a sync of all events keeps. Where memory is out, all stays.
pub(crate) fn keep(
    alloc: Global,
    journal: &Journal,
    history: &mut History,
    ports: &mut PortsAt,
    next: Next,
) -> Result<(), NoMemory>
    requires { history.old.covered ≤ length journal.now.events }
    ensures ok { (p : Parts) → p.events ≡ journal.now.events → Holds p history.old ports.old
        → IsNext p ports.old next
        → OnOk result (Holds (parts.synced p) history.new ports.new) }
    ensures err { (p : Parts) → Holds p history.old ports.old
        → OnErr result (Holds p history.new ports.new) }
{
    let Next { batch, dirty } = next;
    let covered = journal.events().len() as u64;
    let is_new = history.covered < covered;
    history.record(alloc, covered, batch)?;
    ports.settle(alloc, is_new, dirty);
    Ok(())
}
