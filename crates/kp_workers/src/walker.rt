//! What one worker does that walks packets.
ghost use Rattle.std.specs.Prelude.{◌≡◌, ◌<◌, ◌∷◌, [], ℕ, true, None, IfOk, OnOk};
ghost use Rattle.std.specs.FinMap.{get};
ghost use Rattle.kp_choice_defs.specs.Draws.{IsStated, AreDraws};
ghost use Rattle.kp_table_defs.specs.Ranks.{is_ranked};
ghost use Rattle.kp_workers.specs.Walks.{HasWalkedAny, HaveDraws, WalksOn, part_in, walk_step};
ghost use Rattle.kp_workers.specs.Workers.{done_own};
ghost use Rattle.kp_part_laws.specs.Beside as spec;

use crate::part_lists::part_of;
use crate::walks::Numbered;
use crate::worker::{Place, worker_of};
use kp_base::{Address, Items, NoMemory};
use kp_draws::DrawSource;
use kp_gate::Gate;
use kp_recent::RecentLists;
use kp_rules::Table;
use kp_types::Answer;
use std::alloc::Global;
use std::collections::VecDeque;

/// What packets are walked through: a table, on the node with these addresses, by these draws.
#[derive(Drop)]
pub(crate) struct Ground<'a, F> {
    pub(crate) table: &'a Table,
    pub(crate) node: &'a Items<Address>,
    pub(crate) draws: &'a DrawSource<F>,
}

/// A worker: its recent lists, the answers to its packets, how many they were, and what memory was
/// refused, if any.
#[derive(Drop)]
pub(crate) struct Walker {
    pub(crate) lists: RecentLists,
    pub(crate) answers: VecDeque<Answer>,
    calls: u64,
    pub(crate) refused: Option<NoMemory>,
}

impl Walker {
    /// A worker with these lists.
    pub(crate) fn new(alloc: Global, lists: RecentLists) -> Walker
        ensures { result.lists ≡ lists }
    {
        Walker {
            lists,
            answers: VecDeque::new(alloc),
            calls: 0,
            refused: None,
        }
    }

    /// Walks the packets that are its own, one after the other, until memory runs out.
    pub(crate) fn run<F: Fn(u64, u32) -> u32, R, G: Gate<R>>(
        &mut self,
        rt: &R,
        gate: &G,
        ground: &Ground<'_, F>,
        packets: &[Numbered],
        place: Place,
    )
        requires count { 0 < place.count }
        requires ranked { is_ranked ground.now.table.now.chains ≡ true }
        requires stated { IsStated (F.pre ground.now.draws.now) (F.post ground.now.draws.now) }
        ensures walked { self.new.refused ≡ None → HasWalkedAny (F.post ground.now.draws.now)
            (get ground.now.table.now.chains) ground.now.node.now packets.now place.count place.own
            self.old.lists self.new }
        ensures size { self.new.lists.size ≡ self.old.lists.size }
    {
        self.answers.clear();
        self.calls = 0;
        self.refused = walk_own(rt, gate, ground, packets, place, self).err();
    }

    /// Walks a packet between the two calls of the gate.
    fn walk<F: Fn(u64, u32) -> u32, R, G: Gate<R>>(
        &mut self,
        rt: &R,
        gate: &G,
        ground: &Ground<'_, F>,
        packet: &Numbered,
        own: usize,
    ) -> Result<(), NoMemory>
        requires ranked { is_ranked ground.now.table.now.chains ≡ true }
        requires stated { IsStated (F.pre ground.now.draws.now) (F.post ground.now.draws.now) }
        ensures walked { OnOk result ((drawn : ℕ → ℕ → ℕ)
            → AreDraws (F.post ground.now.draws.now) packet.now.number (drawn packet.now.number)
            → WalksOn (
              (walk_step (get ground.now.table.now.chains) ground.now.node.now drawn
                  packet.now self.old.lists).0 ∷ [],
              (walk_step (get ground.now.table.now.chains)
                  ground.now.node.now drawn packet.now self.old.lists).1,
            ) self.old self.new) }
        ensures size { self.new.lists.size ≡ self.old.lists.size }
    {
        let place = u32::try_from(own).unwrap_or(u32::MAX);
        self.calls = self.calls.saturating_add(1);
        gate.arrive(rt, place, self.calls);
        let walked = kp_walker::walk(
            ground.table,
            ground.node,
            packet.number,
            &packet.packet,
            ground.draws,
            &mut self.lists,
        );
        gate.leave(rt, place, self.calls);
        Ok(self.answers.push_back(walked?)?)
    }

    /// Its lists and its answers, or what memory was refused.
    pub(crate) fn into_parts(self) -> Result<(RecentLists, VecDeque<Answer>), NoMemory>
        ensures lists { IfOk result (λ parts. parts.0 ≡ self.lists) }
        ensures answers { IfOk result (λ parts. parts.1 ≡ self.answers) }
        ensures none { OnOk result (self.refused ≡ None) }
    {
        match self.refused {
            Some(refused) => Err(refused),
            None => Ok((self.lists, self.answers)),
        }
    }
}

/// Walks the packets of a worker, one after the other.
fn walk_own<F: Fn(u64, u32) -> u32, R, G: Gate<R>>(
    rt: &R,
    gate: &G,
    ground: &Ground<'_, F>,
    packets: &[Numbered],
    place: Place,
    walker: &mut Walker,
) -> Result<(), NoMemory>
    requires count { 0 < place.count }
    requires ranked { is_ranked ground.now.table.now.chains ≡ true }
    requires stated { IsStated (F.pre ground.now.draws.now) (F.post ground.now.draws.now) }
    ensures walked { OnOk result ((drawn : ℕ → ℕ → ℕ)
        → HaveDraws (F.post ground.now.draws.now) packets.now drawn
        → WalksOn (done_own (λ x. spec.worker_of place.count (part_in x))
        (walk_step (get ground.now.table.now.chains) ground.now.node.now drawn) packets.now
        place.own walker.old.lists) walker.old walker.new) }
    ensures size { walker.new.lists.size ≡ walker.old.lists.size }
{
    for packet in packets {
        let owner = worker_of(place.count, part_of(&packet.packet.source));
        if owner != place.own {
            continue;
        }
        walker.walk(rt, gate, ground, packet, place.own)?;
    }
    Ok(())
}
