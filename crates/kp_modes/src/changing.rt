//! What each sync changed for those who connect.
ghost use Rattle.std.specs.Prelude.{⊤};
ghost use Rattle.kp_modes.specs.Modes as modes;

use kp_base::{Config, Family, NoMemory};
use kp_changes::push_changes;
use kp_mode::{Mode, answered, explained};
use kp_plane::{Plane, SyncNote};
use kp_text_defs::PacketLine;
use kp_workers::PartLists;
use std::alloc::Global;

/// The mode `changes`. A plane tells which ports a sync changed, so nothing is kept.
#[derive(Drop)]
pub struct Changing;

impl Mode for Changing {
    ghost State = { Unit {0} };

    ghost mode = { modes.changing };

    ghost stands = { λ kept config objects state. ⊤ };

    ghost between = { λ kept config before now. ⊤ };

    fn configured(&mut self, _alloc: Global, _config: &Config) -> Result<(), NoMemory> {
        Ok(())
    }

    fn packet(
        &mut self,
        plane: &Plane,
        number: u64,
        line: &PacketLine,
        lists: &mut PartLists,
        text: &mut String,
    ) -> Result<(), NoMemory> {
        answered(plane, number, line, lists, text)
    }

    fn explain(
        &mut self,
        alloc: Global,
        plane: &mut Plane,
        number: u64,
        line: &PacketLine,
        lists: &PartLists,
        text: &mut String,
    ) -> Result<(), NoMemory> {
        explained(alloc, plane, number, line, lists, text)
    }

    fn synced(
        &mut self,
        alloc: Global,
        plane: &Plane,
        _note: &SyncNote,
        text: &mut String,
    ) -> Result<(), NoMemory> {
        kp_object_laws::own_keys();
        let four = plane.dirty(alloc, Family::V4)?;
        let six = plane.dirty(alloc, Family::V6)?;
        push_changes(
            alloc,
            plane.config(),
            plane.objects(),
            four.as_slice(),
            six.as_slice(),
            text,
        )
    }

    fn ending(&self, _alloc: Global, _config: &Config, _text: &mut String) -> Result<(), NoMemory> {
        Ok(())
    }
}
