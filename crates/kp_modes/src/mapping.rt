//! A map of verdicts that answers packets beside the tables.
ghost use Rattle.std.specs.Prelude.{◌≡◌, ◌⊎◌, ◌<◌, ◌^◌, ℕ, true, IfOk, OnErr, OnOk};
ghost use Rattle.kp_base.specs.Keys.{port_key_cmp};
ghost use Rattle.kp_decide.specs.Told.{told};
ghost use Rattle.kp_modes.specs.Mapping as modes;
ghost use Rattle.kp_object_defs.specs.Order.{rises};
ghost use Rattle.kp_object_defs.specs.OwnKeys.{AreUnderOwnKeys};
ghost use Rattle.kp_run_defs.specs.AnswerText.{draws_at};
ghost use Rattle.kp_vmap.specs.Replaced.{HoldsChanges};
ghost use Rattle.kp_vmap_defs.specs.Remainder.{map_decision};
ghost use Rattle.kp_vmap_defs.specs.VerdictMap.{map_of};

use crate::dirty_names::names_of_dirty;
use crate::flow_lines::push_no_trail;
use kp_answers::draw_at;
use kp_answers::laws::draws_are_low;
use kp_base::{Config, Family, NoMemory, PortKey, Steps};
use kp_draws::DrawSource;
use kp_mode::Mode;
use kp_plane::{Plane, SyncNote};
use kp_recent::RecentLists;
use kp_report::{push_answer, push_explain};
use kp_script::default_config;
use kp_store::Objects;
use kp_text_defs::PacketLine;
use kp_types::{Decision, Verdict};
use kp_vmap::Vmap;
use kp_workers::{PartLists, Work, part_of};
use std::alloc::Global;
use std::marker::Brand;
use std::sync::ledger::{Blank, Ledger};

/// The mode `vmap`. It keeps the map of the objects that the last sync covers, and answers by it;
/// the plane keeps its tables.
#[derive(Drop)]
pub struct Mapping {
    map: Vmap,
}

impl Mapping {
    /// The map of no objects, under the default setting.
    pub fn new(alloc: Global) -> Result<Mapping, NoMemory> {
        let config = default_config(alloc)?;
        Ok(Mapping {
            map: Vmap::new(alloc, &config)?,
        })
    }
}

impl Mode for Mapping {
    ghost use Rattle.kp_vmap_defs.specs.VerdictMap.{map_of};

    ghost State = { Unit {0} };

    ghost mode = { modes.mapping };

    ghost stands = { λ kept config objects state. kept.map ≡ map_of config objects };

    ghost between = { λ kept config before now.
        (kept.map ≡ map_of config before) ⊎ (kept.map ≡ map_of config now) };

    fn configured(&mut self, alloc: Global, config: &Config) -> Result<(), NoMemory> {
        self.map = Vmap::new(alloc, config)?;
        Ok(())
    }

    fn packet(
        &mut self,
        plane: &Plane,
        number: u64,
        line: &PacketLine,
        lists: &mut PartLists,
        text: &mut String,
    ) -> Result<(), NoMemory> {
        let asked = Asked {
            map: &self.map,
            sync: plane.syncs(),
            number,
        };
        lists.take(&asked, line, text)
    }

    fn explain(
        &mut self,
        alloc: Global,
        plane: &mut Plane,
        number: u64,
        line: &PacketLine,
        lists: &PartLists,
        text: &mut String,
    ) -> Result<(), NoMemory> {
        let sync = plane.syncs();
        let own = lists.own(&line.packet.source);
        let decision = decision_on(alloc, &self.map, number, line, own)?;
        push_explain(text, number, sync, &decision)
    }

    fn synced(
        &mut self,
        alloc: Global,
        plane: &Plane,
        _note: &SyncNote,
        _text: &mut String,
    ) -> Result<(), NoMemory> {
        kp_object_laws::own_keys();
        kp_history_laws::dirty_ports();
        kp_history_laws::infos_by_name();
        let four = plane.dirty(alloc, Family::V4)?;
        let six = plane.dirty(alloc, Family::V6)?;
        let dirty = names_of_dirty(alloc, four.as_slice(), six.as_slice())?;
        let blank = Blank::new(1);
        follow::<Brand>(&mut self.map, alloc, plane.objects(), &dirty, blank)
    }

    fn ending(&self, _alloc: Global, _config: &Config, _text: &mut String) -> Result<(), NoMemory> {
        Ok(())
    }
}

/// A map becomes that of other objects, whose steps nobody counts.
fn follow<A: Ledger>(
    map: &mut Vmap,
    alloc: Global,
    objects: &Objects,
    dirty: &[PortKey],
    blank: Blank,
) -> Result<(), NoMemory>
    requires name { blank.name ≡ A.name }
    requires parts { blank.parts ≡ A.parts }
    requires some { 0 < blank.parts }
    requires own_keys { AreUnderOwnKeys objects.now }
    requires in_order { rises port_key_cmp dirty.now ≡ true }
    ensures ok { HoldsChanges map.old objects.now dirty.now →
        OnOk result (map.new ≡ map_of map.old.config objects.now) }
    ensures err { OnErr result (map.new ≡ map.old) }
{
    let mut steps = Steps::<A>::new(blank);
    map.replace(alloc, objects, dirty, &mut steps)
}

/// A packet that is asked for in a map, by the number of its line and of the last sync.
#[derive(Drop)]
struct Asked<'a> {
    map: &'a Vmap,
    sync: u64,
    number: u64,
}

impl<'a> Work<PacketLine> for Asked<'a> {
    ghost use Rattle.std.specs.Prelude.{◌%◌};

    ghost part = { λ work line. line.packet.source.number % 16 };

    ghost step = { λ work line. modes.map_step work.map.now work.number work.sync line };

    fn part(&self, line: &PacketLine) -> usize {
        part_of(&line.packet.source)
    }

    fn step(
        &self,
        line: &PacketLine,
        lists: &mut RecentLists,
        text: &mut String,
    ) -> Result<(), NoMemory> {
        let verdict = verdict_on(self.map, self.number, line, lists)?;
        push_answer(text, self.number, self.sync, &verdict)?;
        push_no_trail(text, self.number, line.trail)
    }
}

/// The verdict of a map on a line's packet. The lists keep their size.
fn verdict_on(
    map: &Vmap,
    number: u64,
    line: &PacketLine,
    lists: &mut RecentLists,
) -> Result<Verdict, NoMemory>
    ensures verdict { IfOk result (λ v. v ≡ (map_decision map.now line.now.packet
        (draws_at number line.now.draws) lists.old).verdict) }
    ensures lists { OnOk result (lists.new ≡ (map_decision map.now line.now.packet
        (draws_at number line.now.draws) lists.old).lists) }
    ensures size { lists.new.size ≡ lists.old.size }
{
    let source = DrawSource::new(
        |number: u64, k: u32| -> u32
            ensures value { result ≡ draws_at number line.entry.now.draws k }
            ensures low { result < 2 ^ 31 }
        { draw_at(line, number, k) },
    );
    draws_are_low();
    map.look(number, &line.packet, &source, lists)
}

/// The decision of a map on a line's packet, with its reason.
fn decision_on(
    alloc: Global,
    map: &Vmap,
    number: u64,
    line: &PacketLine,
    lists: &RecentLists,
) -> Result<Decision, NoMemory>
    ensures { IfOk result (λ d. d ≡ told (map_decision map.now line.now.packet
        (draws_at number line.now.draws) lists.now)) }
{
    let source = DrawSource::new(
        |number: u64, k: u32| -> u32
            ensures value { result ≡ draws_at number line.entry.now.draws k }
            ensures low { result < 2 ^ 31 }
        { draw_at(line, number, k) },
    );
    draws_are_low();
    map.explain(alloc, number, &line.packet, &source, lists)
}
