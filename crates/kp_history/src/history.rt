//! The syncs so far.
use crate::stale::Stale;
use kp_base::{Config, Items, NoMemory, fits_memory};
use kp_chains::fixed_chains;
use kp_rules::Table;
use kp_types::{Batch, Edit, table_families};
use std::alloc::Global;
use std::mem::replace;

/// How many events each sync covers more than the one before it, how many all of them cover, the
/// table after them, and the batch of the last.
pub struct History {
    pub counts: Vec<u64>,
    pub covered: u64,
    pub table: Table,
    pub last: Option<Batch>,
    /// Edits of batches before it.
    stale: Stale<Edit>,
}

impl Drop for History {
    fn drop(self) {
        let History {
            counts,
            covered,
            table,
            last,
            stale,
        } = self;
    }
}

impl History {
    ghost use Rattle.std.specs.Prelude.{◌≡◌, ◌≤◌, ◌-◌, List, [], length, sum, take, None};
    ghost use Rattle.std.specs.Prelude.{IfOk, OnOk, OnErr};
    ghost use Rattle.kp_types.specs.declared.event.Event.{Event};
    ghost use Rattle.kp_history.specs.Invariant.{IsHistory, LeadsToNext};
    ghost use Rattle.kp_history.specs.Parts.{PlaneParts, synced, syncs_in};

    /// Before the first sync of a node of this configuration.
    pub fn new(alloc: Global, config: &Config) -> Result<History, NoMemory>
        ensures { (events : List Event) → IfOk result
            (IsHistory (record { config = config.now; events = events; counts = [] })) }
    {
        kp_history_laws::exact_histories();
        Ok(History {
            counts: Vec::new(alloc),
            covered: 0,
            table: fixed_chains(alloc, table_families(config))?,
            last: None,
            stale: Stale::new(alloc),
        })
    }

    /// Makes the edits of a sync, after which so many events are covered, and keeps its batch. It
    /// costs what these edits do: no other chain is looked at, and of the batches before as many
    /// edits are let go. Where memory is out, all stays.
    pub fn record(&mut self, alloc: Global, covered: u64, batch: Batch) -> Result<(), NoMemory>
        requires { self.old.covered ≤ covered }
        ensures ok { (p : PlaneParts) → IsHistory p self.old → covered ≡ length p.events
            → LeadsToNext p batch → OnOk result (IsHistory (synced p) self.new) }
        ensures err { (p : PlaneParts) → IsHistory p self.old
            → OnErr result (IsHistory p self.new) }
    {
        kp_history_laws::exact_histories();
        kp_history_laws::sync_records();
        kp_rules::laws::changes_lead_over();
        self.counts.reserve(1)?;
        self.table.apply(&batch)?;
        self.counts.push_reserved(covered - self.covered);
        fits_memory(self.counts.as_slice());
        self.covered = covered;
        let made = batch.edits.as_slice().len();
        let before = replace(&mut self.last, Some(batch));
        // Where memory is out, these edits go at once.
        let _ = self.stale.take_in(made, edits_of(alloc, before));
        Ok(())
    }

    /// How many events the syncs before the last cover.
    pub fn covered_before(&self) -> u64
        ensures { (p : PlaneParts) → IsHistory p self.now
            → result ≡ sum (take (syncs_in p - 1) p.counts) }
    {
        match self.counts.as_slice().last() {
            Some(last) => self.covered.saturating_sub(*last),
            None => 0,
        }
    }

    /// The counts and the table, of a history that ends.
    pub fn into_parts(self) -> (Vec<u64>, Table)
        ensures counts { result.0 ≡ self.counts }
        ensures table { result.1 ≡ self.table }
    {
        let History {
            counts,
            covered,
            table,
            last,
            stale,
        } = self;
        (counts, table)
    }
}

/// The edits of a batch, if there is one.
fn edits_of(alloc: Global, batch: Option<Batch>) -> Items<Edit> {
    match batch {
        None => Items::new(alloc),
        Some(mut batch) => replace(&mut batch.edits, Items::new(alloc)),
    }
}
