//! One more sync, and what is made of its batch.
ghost use Rattle.std.specs.Prelude.{◌≡◌, ◌+◌, ◌≤◌, List, not, None, count_by, ⊤};
ghost use Rattle.std.specs.Prelude.{IfOk, IfErr, OnOk, OnErr};
ghost use Rattle.kp_choice_defs.specs.Settings.{settings_of};
ghost use Rattle.kp_full_table.specs.Faults.{TellsClash};
ghost use Rattle.kp_object_defs.specs.Objects.{objects_after};
ghost use Rattle.kp_table_defs.specs.Edits.{is_write};
ghost use Rattle.kp_table_defs.specs.Rebuild.{clash_of};
ghost use Rattle.kp_types.specs.declared.rule.Edit.{Edit as OneEdit};
ghost use Rattle.kp_writer.specs.Batch.{own_rules_written};
ghost use Rattle.kp_plane.specs.Counts.{IsCounted};
ghost use Rattle.kp_plane.specs.Invariant.{Holds, parts_of};
ghost use Rattle.kp_plane.specs.Parts as parts;

use crate::next::{keep, next_sync};
use crate::ports_at::PortsAt;
use kp_base::{Config, Copied, NoMemory, Steps};
use kp_events::Journal;
use kp_full_table::TableFault;
use kp_history::History;
use kp_types::{Batch, Edit};
use std::alloc::Global;
use std::sync::ledger::Ledger;

/// What is made of a sync's batch before it is kept.
pub trait OfBatch: Drop {
    /// What it tells of the edits.
    ghost told: { List OneEdit → Self → Type 0 };

    /// It, of a batch.
    fn of_batch(alloc: Global, batch: &Batch) -> Result<Self, NoMemory>
        ensures { IfOk result (told batch.now.edits) };
}

/// A copy.
impl OfBatch for Batch {
    ghost told = { λ edits batch. batch.edits ≡ edits };

    fn of_batch(alloc: Global, batch: &Batch) -> Result<Batch, NoMemory> {
        batch.copy(alloc)
    }
}

/// Nothing.
impl OfBatch for () {
    ghost told = { λ edits none. ⊤ };

    fn of_batch(_alloc: Global, _batch: &Batch) -> Result<(), NoMemory> {
        Ok(())
    }
}

/// Makes and keeps a sync of all events, and answers how many chains it wrote and removed, and
/// what was made of its batch.
pub(crate) fn sync_as<T: OfBatch, L: Ledger, A: Ledger>(
    alloc: Global,
    config: &Config,
    journal: &Journal,
    history: &mut History,
    ports: &mut PortsAt,
    steps: &mut Steps<L>,
    asked: &mut Steps<A>,
) -> Result<(u64, u64, T), TableFault>
    requires { Holds (parts_of config.now journal.now history.old) history.old ports.old }
    ensures ok { OnOk result (Holds
        (parts.synced (parts_of config.now journal.now history.old)) history.new ports.new) }
    ensures err { OnErr result
        (Holds (parts_of config.now journal.now history.old) history.new ports.new) }
    ensures written { IfOk result (λ (written, _, _). written ≡ count_by is_write
        (parts.next_edits (parts_of config.now journal.now history.old))) }
    ensures removed { IfOk result (λ (_, removed, _). removed ≡ count_by (λ e. not (is_write e))
        (parts.next_edits (parts_of config.now journal.now history.old))) }
    ensures told { IfOk result (λ (_, _, made). T.told
        (parts.next_edits (parts_of config.now journal.now history.old)) made) }
    ensures no_clash { OnOk result (
        clash_of (settings_of config.now) (objects_after journal.now.events) ≡ None) }
    ensures clash { IfErr result (TellsClash
        (clash_of (settings_of config.now) (objects_after journal.now.events))) }
    ensures steps { IsCounted
        (parts.uncovered_in (parts_of config.now journal.now history.old))
        (parts.most_steps (parts_of config.now journal.now history.old)) steps.old steps.new }
    ensures asked { IsCounted
        (parts.uncovered_in (parts_of config.now journal.now history.old))
        (parts.most_asked (parts_of config.now journal.now history.old)) asked.old asked.new }
    ensures made { OnOk result (steps.old + own_rules_written
        (parts.next_edits (parts_of config.now journal.now history.old)) ≤ steps.new) }
{
    let next = next_sync(alloc, config, journal, history, ports, steps, asked)?;
    let made = T::of_batch(alloc, &next.batch)?;
    let (written, removed) = counts(next.batch.edits.as_slice());
    keep(alloc, journal, history, ports, next)?;
    Ok((written, removed, made))
}

/// How many edits are writes, and how many are removes.
fn counts(edits: &[Edit]) -> (u64, u64)
    ensures written { result.0 ≡ count_by is_write edits.now }
    ensures removed { result.1 ≡ count_by (λ e. not (is_write e)) edits.now }
{
    let (mut written, mut removed) = (0, 0);
    for edit in edits {
        match edit {
            Edit::Write { .. } => written += 1,
            Edit::Remove { .. } => removed += 1,
        }
    }
    (written, removed)
}
