//! Where the program answers otherwise than a replay, or adds to it.
ghost use Rattle.std.specs.Prelude.{◌≡◌, ◌++◌, ℕ, ⊤, string_bytes, OnOk, OnErr};
ghost use Rattle.kp_base.specs.declared.config.Config as config_row;
ghost use Rattle.kp_mode.specs.Calls as calls;
ghost use Rattle.kp_mode_defs.specs.Mode as modes;
ghost use Rattle.kp_object_defs.specs.Objects as objects;
ghost use Rattle.kp_plane.specs.Parts as parts;
ghost use Rattle.kp_print.specs.Fronts.{HasFront};

use crate::packets::{answered, explained};
use kp_base::{Config, NoMemory};
use kp_plane::{Plane, SyncNote};
use kp_text_defs::PacketLine;
use kp_workers::PartLists;
use std::alloc::Global;

/// A mode: what the program keeps beside a replay, and what it prints by that. What each call
/// promises holds for each state of the definition that stands for what is kept. Without memory a
/// text keeps what stood in it.
pub trait Mode {
    /// The state that the definition has.
    ghost State: { Type 0 };

    /// What the mode does.
    ghost mode: { modes.Mode State };

    /// What is kept stands for a state, under a configuration and with these objects, which the last
    /// sync covers.
    ghost stands: { Self → config_row.Config → objects.Objects → State → Type 0 };

    /// Each part of what is kept is of the first of these objects or of the second.
    ghost between: { Self → config_row.Config → objects.Objects → objects.Objects → Type 0 };

    /// Begins anew under a configuration, before any event: before the first line with the default
    /// one, and with that of the first line. Without memory all stays.
    fn configured(&mut self, alloc: Global, config: &Config) -> Result<(), NoMemory>
        ensures stands { OnOk result
            (stands self.new config.now objects.no_objects (mode.start config.now)) }
        ensures stays { OnErr result (self.new ≡ self.old) };

    /// Answers the packet of the line of this number by what the last sync covers, and leaves the
    /// recent lists as the mode does.
    fn packet(
        &mut self,
        plane: &Plane,
        number: u64,
        line: &PacketLine,
        lists: &mut PartLists,
        text: &mut String,
    ) -> Result<(), NoMemory>
        ensures { (state : State) → stands self.old plane.now.config (parts.objects_in plane.now) state
            → calls.Answers result (stands self.new plane.now.config (parts.objects_in plane.now))
            (between self.new plane.now.config (parts.objects_in plane.now)
            (parts.objects_in plane.now))
            (mode.packet (calls.covered_by plane.now) number line.now lists.old state)
            lists.new text.old text.new };

    /// Explains the packet of the line of this number. Nothing is remembered of it.
    fn explain(
        &mut self,
        alloc: Global,
        plane: &mut Plane,
        number: u64,
        line: &PacketLine,
        lists: &PartLists,
        text: &mut String,
    ) -> Result<(), NoMemory>
        ensures plane { plane.new ≡ plane.old }
        ensures explains { (state : State)
            → stands self.old plane.old.config (parts.objects_in plane.old) state
            → calls.Adds result (stands self.new plane.old.config (parts.objects_in plane.old))
            (between self.new plane.old.config (parts.objects_in plane.old)
            (parts.objects_in plane.old))
            (mode.explain (calls.covered_by plane.old) number line.now lists.now state) state
            text.old text.new };

    /// Adds what follows the line of a sync that was just accepted, of which the note is this.
    /// Without memory each part of what is kept is of the objects before that sync or of those that
    /// it covers.
    fn synced(
        &mut self,
        alloc: Global,
        plane: &Plane,
        note: &SyncNote,
        text: &mut String,
    ) -> Result<(), NoMemory>
        requires covered { parts.uncovered_in plane.now ≡ 0 }
        requires noted { note.now ≡ calls.note_of plane.now }
        ensures { (state : State) → stands self.old plane.now.config
            (parts.objects_before plane.now) state
            → calls.Adds result (stands self.new plane.now.config (parts.objects_in plane.now))
            (between self.new plane.now.config (parts.objects_before plane.now)
            (parts.objects_in plane.now))
            (mode.synced (calls.covered_by (calls.before_sync plane.now))
            (calls.covered_by plane.now) state).0
            (mode.synced (calls.covered_by (calls.before_sync plane.now))
            (calls.covered_by plane.now) state).1
            text.old text.new };

    /// Adds what stands at the end of an input.
    fn ending(&self, alloc: Global, config: &Config, text: &mut String) -> Result<(), NoMemory>
        ensures text { (covered : modes.Covered) (state : State) → covered.config ≡ config.now
            → stands self.now config.now (modes.objects_at covered) state
            → OnOk result (string_bytes text.new
            ≡ string_bytes text.old ++ mode.ending covered state) }
        ensures front { OnErr result (HasFront text.new text.old) };
}

/// A replay: nothing is added, and nothing kept.
#[derive(Drop)]
pub struct Replaying;

impl Mode for Replaying {
    ghost State = { Unit {0} };

    ghost mode = { modes.replaying };

    ghost stands = { λ kept config objects state. ⊤ };

    ghost between = { λ kept config before now. ⊤ };

    fn configured(&mut self, _alloc: Global, _config: &Config) -> Result<(), NoMemory> {
        Ok(())
    }

    fn packet(
        &mut self,
        plane: &Plane,
        number: u64,
        line: &PacketLine,
        lists: &mut PartLists,
        text: &mut String,
    ) -> Result<(), NoMemory> {
        answered(plane, number, line, lists, text)
    }

    fn explain(
        &mut self,
        alloc: Global,
        plane: &mut Plane,
        number: u64,
        line: &PacketLine,
        lists: &PartLists,
        text: &mut String,
    ) -> Result<(), NoMemory> {
        explained(alloc, plane, number, line, lists, text)
    }

    fn synced(
        &mut self,
        _alloc: Global,
        _plane: &Plane,
        _note: &SyncNote,
        _text: &mut String,
    ) -> Result<(), NoMemory> {
        Ok(())
    }

    fn ending(&self, _alloc: Global, _config: &Config, _text: &mut String) -> Result<(), NoMemory> {
        Ok(())
    }
}
