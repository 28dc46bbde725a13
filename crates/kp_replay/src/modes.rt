//! Lines of a replay in a mode.
ghost use Rattle.std.specs.Prelude.{◌≡◌, ◌++◌, string_bytes, OnErr, OnOk};
ghost use Rattle.std.specs.Option.{option_copied};
ghost use Rattle.kp_mode_defs.specs.Mode as modes;
ghost use Rattle.kp_object_defs.specs.Objects.{no_objects};
ghost use Rattle.kp_print.specs.Fronts.{HasFront};
ghost use Rattle.kp_run_defs.specs.ReplayText as spec;

use crate::replay::Replay;
use crate::syncs::noted;
use kp_base::{Config, NoMemory};
use kp_mode::Mode;
use kp_plane::{Plane, TableFault};
use kp_report::push_sync;
use kp_script::{LineRefusal, Op, Said, said_by};
use kp_workers::PartLists;
use std::alloc::Global;
use std::marker::Brand;
use std::sync::ledger::Blank;

impl Replay {
    ghost use Rattle.kp_replay.specs.Steps.{standing_of, place_of, Follows, StaysOrBetween, TookIn};
    ghost use Rattle.kp_replay.specs.Steps.{HasNoEvents, IsReady, LosesNothing, MaySay, MayTake};

    /// Before the first line a mode begins with the default configuration. Without memory it stays
    /// as it was.
    pub fn begin_in<M: Mode>(&self, alloc: Global, mode: &mut M) -> Result<(), NoMemory>
        requires { standing_of self.now ≡ spec.beginning }
        ensures follows { OnOk result (Follows (M.stands mode.new) (modes.place_at_start M.mode)) }
        ensures stays { OnErr result (mode.new ≡ mode.old) }
    {
        mode.configured(alloc, self.plane.config())
    }

    /// Takes the line of this number in a mode, or refuses it as too long where nothing of it is
    /// given, and adds what it prints to the text. Without memory no event and no record is lost,
    /// some of what it prints may stand in the text, and the mode is as before or in between.
    pub fn take_line_in<M: Mode>(
        &mut self,
        alloc: Global,
        number: u64,
        given: Option<&[u8]>,
        mode: &mut M,
        text: &mut String,
    ) -> Result<(), NoMemory>
        requires { IsReady (standing_of self.old) }
        ensures { (state : M.State) → Follows (M.stands mode.old) (place_of self.old state)
            → TookIn result (M.stands mode.new)
            (StaysOrBetween M.between mode.old mode.new (standing_of self.new))
            (modes.given_in M.mode number (option_copied given.entry) (place_of self.old state))
            (standing_of self.old) (standing_of self.new) (string_bytes text.old) (string_bytes text.new) }
    {
        let said = said_by(alloc, given, self.fresh, &mut self.scratch)?;
        self.take_said_in(alloc, number, said, mode, text)
    }

    /// Does what a line says. One that isn't blank is no longer the first.
    fn take_said_in<M: Mode>(
        &mut self,
        alloc: Global,
        number: u64,
        said: Said,
        mode: &mut M,
        text: &mut String,
    ) -> Result<(), NoMemory>
        requires { MaySay (standing_of self.old) said }
        ensures { (state : M.State) → Follows (M.stands mode.old) (place_of self.old state)
            → TookIn result (M.stands mode.new)
            (StaysOrBetween M.between mode.old mode.new (standing_of self.new))
            (modes.said_in M.mode number said (place_of self.old state))
            (standing_of self.old) (standing_of self.new) (string_bytes text.old) (string_bytes text.new) }
    {
        match said {
            Said::Nothing => Ok(()),
            Said::Asks(line) => {
                self.fresh = false;
                self.take_op_in(alloc, number, line.op, mode, text)
            }
            Said::Refuses(refusal) => {
                self.fresh = false;
                self.refuse(alloc, number, &refusal, text)
            }
        }
    }

    /// Does what a line asks for.
    pub(crate) fn take_op_in<M: Mode>(
        &mut self,
        alloc: Global,
        number: u64,
        op: Op,
        mode: &mut M,
        text: &mut String,
    ) -> Result<(), NoMemory>
        requires { MayTake (standing_of self.old) op }
        ensures { (state : M.State) → Follows (M.stands mode.old) (place_of self.old state)
            → TookIn result (M.stands mode.new)
            (StaysOrBetween M.between mode.old mode.new (standing_of self.new))
            (modes.op_in M.mode number op (place_of self.old state))
            (standing_of self.old) (standing_of self.new) (string_bytes text.old) (string_bytes text.new) }
    {
        // The syncs cover events that there are, so more events leave what they cover.
        let _syncs = self.plane.syncs();
        match op {
            Op::Config(config) => self.take_config(alloc, config, mode),
            Op::Events(events) => self.take_events(alloc, number, events, text),
            Op::Sync => self.sync_in(alloc, number, mode, text),
            Op::Packet(packet) => {
                mode.packet(&self.plane, number, &packet, &mut self.lists, text)
            }
            Op::Explain(packet) => {
                mode.explain(alloc, &mut self.plane, number, &packet, &self.lists, text)
            }
            Op::Show(what) => self.show(alloc, what, text),
        }
    }

    /// Takes a configuration, which stands before all events.
    fn take_config<M: Mode>(
        &mut self,
        alloc: Global,
        config: Config,
        mode: &mut M,
    ) -> Result<(), NoMemory>
        requires { HasNoEvents (standing_of self.old) }
        ensures stands { OnOk result (standing_of self.new
            ≡ (spec.config_line config (standing_of self.old)).next) }
        ensures mode { OnOk result (M.stands mode.new config no_objects ((M.mode).start config)) }
        ensures kept { OnErr result (LosesNothing (standing_of self.old) (standing_of self.new)) }
        ensures stays { OnErr result (mode.new ≡ mode.old) }
    {
        let lists = PartLists::new(alloc, config.recent_size, self.lists.workers())?;
        let plane = Plane::new(alloc, config)?;
        mode.configured(alloc, plane.config())?;
        self.plane = plane;
        self.lists = lists;
        Ok(())
    }

    /// Makes the tables of the events by now, and tells the mode, or tells which two chains have one
    /// name.
    fn sync_in<M: Mode>(
        &mut self,
        alloc: Global,
        number: u64,
        mode: &mut M,
        text: &mut String,
    ) -> Result<(), NoMemory>
        ensures { (state : M.State) → Follows (M.stands mode.old) (place_of self.old state)
            → TookIn result (M.stands mode.new)
            (StaysOrBetween M.between mode.old mode.new (standing_of self.new))
            (modes.op_in M.mode number Op.Sync (place_of self.old state))
            (standing_of self.old) (standing_of self.new) (string_bytes text.old) (string_bytes text.new) }
    {
        match noted::<Brand, Brand>(alloc, &mut self.plane, Blank::new(1), Blank::new(1)) {
            Ok(note) => {
                push_sync(text, note.sync, note.events, note.written, note.removed)?;
                mode.synced(alloc, &self.plane, &note, text)
            }
            Err(TableFault::ChainClash(clash)) => {
                self.refuse(alloc, number, &LineRefusal::ChainClash(clash), text)
            }
            Err(TableFault::NoMemory(refused)) => Err(refused),
        }
    }

    /// Adds what a mode adds where an input ends. Without memory some of that may stand.
    pub fn end_in<M: Mode>(
        &self,
        alloc: Global,
        mode: &M,
        text: &mut String,
    ) -> Result<(), NoMemory>
        ensures text { (state : M.State) → Follows (M.stands mode.now) (place_of self.now state)
            → OnOk result (string_bytes text.new ≡ string_bytes text.old
            ++ modes.ended M.mode (place_of self.now state)) }
        ensures front { OnErr result (HasFront text.new text.old) }
    {
        mode.ending(alloc, self.plane.config(), text)
    }
}
