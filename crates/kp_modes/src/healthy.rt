//! What the node's health ports answer after each sync.
ghost use Rattle.kp_base.specs.declared.config.Config.{Config as OneConfig};
ghost use Rattle.kp_object_defs.specs.Objects.{no_objects};
ghost use Rattle.kp_health.specs.Known.{AreBetween, AreKnown};
ghost use Rattle.kp_modes.specs.Modes as modes;

use kp_base::{Config, NoMemory};
use kp_health::HealthCounts;
use kp_mode::{Mode, answered, explained};
use kp_plane::{Plane, SyncNote};
use kp_print::push;
use kp_restore_text::batch_text;
use kp_text_defs::PacketLine;
use kp_workers::PartLists;
use std::alloc::Global;
use std::marker::Model;

/// The mode `health`. It keeps what the health ports answered at the last sync, and makes anew what
/// those of touched Services do. Contracts see the answers.
#[derive(Drop)]
pub struct Healthy {
    answers: HealthCounts,
}

impl Model for Healthy {
    ghost use Rattle.kp_health.specs.Known.{Answers, answers_code};

    ghost Value = { Answers };

    ghost coded = { answers_code };

    ghost view = { λ h. h.answers };
}

impl Healthy {
    /// Before any sync there is no health port.
    pub fn new(alloc: Global) -> Healthy
        ensures { (config : OneConfig) → AreKnown config no_objects result }
    {
        Healthy {
            answers: HealthCounts::new(alloc),
        }
    }
}

impl Mode for Healthy {
    ghost State = { Unit {0} };

    ghost mode = { modes.healthy };

    ghost stands = { λ kept config objects state. AreKnown config objects kept };

    ghost between = { λ kept config before now. AreBetween config before now kept };

    fn configured(&mut self, alloc: Global, _config: &Config) -> Result<(), NoMemory> {
        self.answers = HealthCounts::new(alloc);
        Ok(())
    }

    fn packet(
        &mut self,
        plane: &Plane,
        number: u64,
        line: &PacketLine,
        lists: &mut PartLists,
        text: &mut String,
    ) -> Result<(), NoMemory> {
        answered(plane, number, line, lists, text)
    }

    fn explain(
        &mut self,
        alloc: Global,
        plane: &mut Plane,
        number: u64,
        line: &PacketLine,
        lists: &PartLists,
        text: &mut String,
    ) -> Result<(), NoMemory> {
        explained(alloc, plane, number, line, lists, text)
    }

    fn synced(
        &mut self,
        alloc: Global,
        plane: &Plane,
        _note: &SyncNote,
        text: &mut String,
    ) -> Result<(), NoMemory> {
        kp_object_laws::own_keys();
        kp_health_laws::untouched_health();
        self.answers
            .update(alloc, plane.config(), plane.objects(), plane.touched())?;
        self.answers.push_lines(alloc, text)
    }

    fn ending(&self, alloc: Global, _config: &Config, text: &mut String) -> Result<(), NoMemory> {
        let batch = self.answers.batch(alloc)?;
        let batch = batch_text(alloc, &batch)?;
        push(text, batch.as_str())
    }
}
