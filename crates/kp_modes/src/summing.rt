//! The sums of a generated script.
ghost use Rattle.std.specs.Prelude.{◌≡◌, ⊤};
ghost use Rattle.kp_modes.specs.Modes as modes;
ghost use Rattle.kp_run_defs.specs.GenText as spec;

use crate::totals::{add_packet, add_sync, no_totals};
use kp_base::{Config, NoMemory};
use kp_mode::{Mode, snapshot_of};
use kp_plane::{Plane, SyncNote};
use kp_text_defs::{PacketLine, Totals};
use kp_workers::PartLists;
use std::alloc::Global;

/// The mode of the generator. Its state is the sums over syncs and packets, and it prints nothing of
/// its own.
#[derive(Drop)]
pub struct Summing {
    /// The sums by now.
    pub totals: Totals,
}

impl Summing {
    /// Before the first line.
    pub fn new() -> Summing
        ensures { result.totals ≡ spec.no_totals }
    {
        Summing {
            totals: no_totals(),
        }
    }
}

impl Mode for Summing {
    ghost use Rattle.kp_text_defs.specs.declared.totals.Totals.{Totals};

    ghost State = { Totals };

    ghost mode = { modes.summing };

    ghost stands = { λ kept config objects state. kept.totals ≡ state };

    ghost between = { λ kept config before now. ⊤ };

    fn configured(&mut self, _alloc: Global, _config: &Config) -> Result<(), NoMemory> {
        self.totals = no_totals();
        Ok(())
    }

    fn packet(
        &mut self,
        plane: &Plane,
        number: u64,
        line: &PacketLine,
        lists: &mut PartLists,
        _text: &mut String,
    ) -> Result<(), NoMemory> {
        let verdict = lists.verdict_of(&snapshot_of(plane), number, line)?;
        add_packet(&mut self.totals, &verdict);
        Ok(())
    }

    fn explain(
        &mut self,
        _alloc: Global,
        _plane: &mut Plane,
        _number: u64,
        _line: &PacketLine,
        _lists: &PartLists,
        _text: &mut String,
    ) -> Result<(), NoMemory> {
        Ok(())
    }

    fn synced(
        &mut self,
        _alloc: Global,
        _plane: &Plane,
        note: &SyncNote,
        _text: &mut String,
    ) -> Result<(), NoMemory> {
        add_sync(&mut self.totals, note);
        Ok(())
    }

    fn ending(&self, _alloc: Global, _config: &Config, _text: &mut String) -> Result<(), NoMemory> {
        Ok(())
    }
}
