//! Syncs: what each did to the table.
ghost use Rattle.std.specs.Prelude.{◌≡◌, IfOk};

use crate::rule::Batch;
use kp_base::{Copied, NoMemory};
use std::alloc::Global;

/// What one sync did: its number, how many events came since the sync before, and its edits.
#[derive(Drop)]
pub struct SyncRecord {
    pub sync: u64,
    pub events: u64,
    pub batch: Batch,
}

impl Copied for SyncRecord {
    fn copy(&self, alloc: Global) -> Result<SyncRecord, NoMemory> {
        Ok(SyncRecord {
            sync: self.sync,
            events: self.events,
            batch: self.batch.copy(alloc)?,
        })
    }
}
