//! Where a replay stands, and the lines that it takes.
ghost use Rattle.std.specs.Prelude.{◌≡◌, ◌<◌, length, string_bytes, IfOk, OnErr, OnOk};
ghost use Rattle.kp_print.specs.Fronts.{HasFront};
ghost use Rattle.std.specs.Option.{option_copied};
ghost use Rattle.kp_run_defs.specs.ReplayText as spec;

use kp_base::{Items, NoMemory};
use kp_interner::Interner;
use kp_mode::Replaying;
use kp_plane::{JournalFault, Plane};
use kp_report::push_refusal;
use kp_script::{LineRefusal, Scratch, default_config};
use kp_types::Event;
use kp_workers::PartLists;
use std::alloc::Global;

/// Where a replay of lines stands: its events, records and tables, the sources that packets came
/// from of late, and whether a line was refused.
pub struct Replay {
    /// Whether no line but blank ones was read.
    pub(crate) fresh: bool,
    pub(crate) plane: Plane,
    pub(crate) lists: PartLists,
    pub(crate) refused: bool,
    /// What lines are read with, one after another.
    pub(crate) scratch: Scratch,
    /// The texts that objects share.
    pub(crate) interner: Interner,
}

/// One call on each way out of what owns a replay.
impl Drop for Replay {
    fn drop(self) {
        let Replay {
            fresh,
            plane,
            lists,
            refused,
            scratch,
            interner,
        } = self;
    }
}

impl Replay {
    ghost use Rattle.kp_replay.specs.Steps.{standing_of, IsReady, LosesNothing, Takes, Took};

    /// Before the first line, with so many workers for groups of lines.
    pub fn new(alloc: Global, workers: usize) -> Result<Replay, NoMemory>
        requires { 0 < workers }
        ensures { IfOk result (λ r. standing_of r ≡ spec.beginning) }
    {
        let config = default_config(alloc)?;
        let lists = PartLists::new(alloc, config.recent_size, workers)?;
        Ok(Replay {
            fresh: true,
            plane: Plane::new(alloc, config)?,
            lists,
            refused: false,
            scratch: Scratch::new(alloc),
            interner: Interner::new(alloc),
        })
    }

    /// Lets the replay go, and tells whether a line was refused.
    pub fn end(self) -> bool
        ensures { result ≡ (standing_of self).refused }
    {
        self.refused
    }

    /// Takes the line of this number, or refuses it as too long where nothing of it is given, and
    /// adds what it prints to the text. Without memory no event and no record is lost, and some of
    /// what it prints may stand in the text.
    pub fn take_line(
        &mut self,
        alloc: Global,
        number: u64,
        given: Option<&[u8]>,
        text: &mut String,
    ) -> Result<(), NoMemory>
        requires { IsReady (standing_of self.old) }
        ensures { Took result (spec.given_line number (option_copied given.entry)
            (standing_of self.old)) (standing_of self.old)
            (standing_of self.new) (string_bytes text.old) (string_bytes text.new) }
    {
        self.take_line_in(alloc, number, given, &mut Replaying, text)
    }

    /// Tells that the line is refused.
    pub(crate) fn refuse(
        &mut self,
        alloc: Global,
        number: u64,
        refusal: &LineRefusal,
        text: &mut String,
    ) -> Result<(), NoMemory>
        ensures takes { OnOk result (Takes (spec.refuse number refusal.now (standing_of self.old))
            (standing_of self.new) (string_bytes text.old) (string_bytes text.new)) }
        ensures kept { OnErr result (LosesNothing (standing_of self.old) (standing_of self.new)) }
        ensures front { OnErr result (HasFront text.new text.old) }
    {
        self.refused = true;
        push_refusal(alloc, text, number, refusal)
    }

    /// Accepts events, all of them or none.
    pub(crate) fn take_events(
        &mut self,
        alloc: Global,
        number: u64,
        events: Items<Event>,
        text: &mut String,
    ) -> Result<(), NoMemory>
        ensures takes { OnOk result (Takes (spec.events_line number events
            (spec.has_room (standing_of self.old) (length events)) (standing_of self.old))
            (standing_of self.new) (string_bytes text.old) (string_bytes text.new)) }
        ensures kept { OnErr result (LosesNothing (standing_of self.old) (standing_of self.new)) }
        ensures front { OnErr result (HasFront text.new text.old) }
    {
        let events = self.interner.events(alloc, &events)?;
        match self.plane.accept(events) {
            Ok(()) => Ok(()),
            Err((JournalFault::JournalFull { count }, _)) => {
                self.refuse(alloc, number, &LineRefusal::JournalFull { count }, text)
            }
            Err((JournalFault::NoMemory(refused), _)) => Err(refused),
        }
    }
}
