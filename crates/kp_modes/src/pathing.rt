//! All paths behind each explanation.
ghost use Rattle.std.specs.Prelude.{⊤};
ghost use Rattle.kp_modes.specs.Paths as modes;

use kp_base::{Config, NoMemory};
use kp_mode::{Mode, answered, explained};
use kp_paths::push_paths;
use kp_plane::{Objects, Plane, Question, SyncNote};
use kp_recent::RecentLists;
use kp_text_defs::PacketLine;
use kp_types::Packet;
use kp_workers::PartLists;
use std::alloc::Global;

/// The mode `paths`. What it tells is asked of the plane's objects, so nothing is kept.
#[derive(Drop)]
pub struct Pathing;

impl Mode for Pathing {
    ghost State = { Unit {0} };

    ghost mode = { modes.pathing };

    ghost stands = { λ kept config objects state. ⊤ };

    ghost between = { λ kept config before now. ⊤ };

    fn configured(&mut self, _alloc: Global, _config: &Config) -> Result<(), NoMemory> {
        Ok(())
    }

    fn packet(
        &mut self,
        plane: &Plane,
        number: u64,
        line: &PacketLine,
        lists: &mut PartLists,
        text: &mut String,
    ) -> Result<(), NoMemory> {
        answered(plane, number, line, lists, text)
    }

    fn explain(
        &mut self,
        alloc: Global,
        plane: &mut Plane,
        number: u64,
        line: &PacketLine,
        lists: &PartLists,
        text: &mut String,
    ) -> Result<(), NoMemory> {
        kp_path_laws::laws::lines_unseen();
        explained(alloc, plane, number, line, lists, text)?;
        let question = AllPaths {
            number,
            packet: &line.packet,
            lists: lists.own(&line.packet.source),
        };
        let lines = plane.ask(alloc, &question)?;
        text.push_str(&lines)?;
        Ok(())
    }

    fn synced(
        &mut self,
        _alloc: Global,
        _plane: &Plane,
        _note: &SyncNote,
        _text: &mut String,
    ) -> Result<(), NoMemory> {
        Ok(())
    }

    fn ending(&self, _alloc: Global, _config: &Config, _text: &mut String) -> Result<(), NoMemory> {
        Ok(())
    }
}

/// The lines behind the explanation of a packet, by the number of its line.
#[derive(Drop)]
struct AllPaths<'a> {
    number: u64,
    packet: &'a Packet,
    lists: &'a RecentLists,
}

impl<'a> Question for AllPaths<'a> {
    ghost use Rattle.std.specs.Prelude.{◌≡◌, string_bytes, ⊤};
    ghost use Rattle.kp_choice_defs.specs.Settings.{settings_of};
    ghost use Rattle.kp_path_defs.specs.PathText.{lines_of};

    type Answer = String;

    ghost may_ask = { λ q. ⊤ };

    ghost is_right = { λ q config objects text. string_bytes text
        ≡ lines_of (settings_of config) objects q.number q.packet.now q.lists.now };

    fn answer(
        &self,
        alloc: Global,
        config: &Config,
        objects: &Objects,
    ) -> Result<String, NoMemory> {
        let mut text = String::new(alloc);
        push_paths(
            alloc,
            objects,
            config,
            self.number,
            self.packet,
            self.lists,
            &mut text,
        )?;
        Ok(text)
    }
}
