//! Packets that are walked beside each other.
ghost use Rattle.std.specs.Prelude.{◌≡◌, ◌<◌, ◌≤◌, ◌⊎◌, ℕ, true, None, IfOk, OnErr, OnOk, length};
ghost use Rattle.std.specs.Prelude.{map};
ghost use Rattle.std.specs.FinMap.{get};
ghost use Rattle.std.specs.List.{AllByRecursion};
ghost use Rattle.kp_choice_defs.specs.Draws.{IsStated};
ghost use Rattle.kp_part_laws.specs.Beside.{in_turn, one_by_one};
ghost use Rattle.kp_recent.specs.Held.{no_sources};
ghost use Rattle.kp_table_defs.specs.Ranks.{is_ranked};
ghost use Rattle.kp_workers.specs.Walks.{EachDid, HasWalkedAny, HaveDraws};
ghost use Rattle.kp_workers.specs.Walks.{all_told, part_in, walk_step};
ghost use Rattle.kp_workers.specs.Workers.{EachKeepsSize};
ghost use Rattle.kp_part_laws.specs.Beside as spec;

use crate::part_lists::part_of;
use crate::walker::{Ground, Walker};
use crate::worker::{Place, worker_of};
use kp_base::{Address, Items, NoMemory};
use kp_draws::DrawSource;
use kp_gate::{Gate, OpenGate};
use kp_recent::RecentLists;
use kp_rules::Table;
use kp_types::{Answer, Packet};
use std::alloc::Global;
use std::collections::VecDeque;
use std::thread;
use std::thread::Threads;

/// A packet, and the number that its draws go by.
#[derive(Clone, Copy, Debug, PartialEq, Eq)]
pub struct Numbered {
    pub number: u64,
    pub packet: Packet,
}

/// The most workers that have a part of the recent lists.
const MOST_WORKERS: u32 = 16;

/// Walks packets through the rules that a table has for their address families, on the node with
/// these addresses: the answers and the recent lists of walking them one after the other. Each of
/// 1 to 64 workers walks, in a thread of its own, the packets whose sources are in its parts of the
/// lists, and passes the gate around each; one worker alone takes no thread and passes no gate.
/// Without memory the lists are as before, or without a source.
pub fn walk_all<F: Fn(u64, u32) -> u32 + Sync, R: Threads + Sync, G: Gate<R> + Sync>(
    rt: &R,
    alloc: Global,
    gate: &G,
    table: &Table,
    node: &Items<Address>,
    packets: &Items<Numbered>,
    draws: &DrawSource<F>,
    lists: &mut RecentLists,
    workers: u32,
) -> Result<Items<Answer>, NoMemory>
    ghost drawn: { ℕ → ℕ → ℕ }
    requires ranked { is_ranked table.now.chains ≡ true }
    requires stated { IsStated (F.pre draws.now) (F.post draws.now) }
    requires drawn { HaveDraws (F.post draws.now) packets.now drawn }
    requires some { 0 < workers }
    requires limit { workers ≤ 64 }
    ensures answers { IfOk result (λ answers.
        one_by_one (walk_step (get table.now.chains) node.now drawn) packets.now lists.old
        ≡ (all_told answers, lists.new)) }
    ensures refused { OnErr result
        ((lists.new ≡ lists.old) ⊎ (lists.new ≡ no_sources lists.old.size)) }
{
    let count = workers.min(MOST_WORKERS) as usize;
    let ground = Ground { table, node, draws };
    let values = lists.split_among(count)?;
    let mut walkers = walkers_of(alloc, values)?;
    run_all(rt, gate, &ground, packets.as_slice(), &mut walkers);
    let (values, mut queues) = take_apart(alloc, walkers)?;
    let answers = take_in_turn(alloc, packets.as_slice(), queues.as_mut_slice())?;
    lists.unite(values);
    Ok(answers)
}

/// A worker with each of these lists.
fn walkers_of(alloc: Global, values: Items<RecentLists>) -> Result<Vec<Walker>, NoMemory>
    ensures { IfOk result (λ walkers. map (λ w. w.lists) walkers.items ≡ values) }
{
    let mut walkers = Vec::new(alloc);
    for lists in values.into_vec() {
        walkers.push(Walker::new(alloc, lists))?;
    }
    Ok(walkers)
}

/// Runs all workers. One alone passes no gate.
fn run_all<F: Fn(u64, u32) -> u32 + Sync, R: Threads + Sync, G: Gate<R> + Sync>(
    rt: &R,
    gate: &G,
    ground: &Ground<'_, F>,
    packets: &[Numbered],
    walkers: &mut Vec<Walker>,
)
    requires ranked { is_ranked ground.now.table.now.chains ≡ true }
    requires stated { IsStated (F.pre ground.now.draws.now) (F.post ground.now.draws.now) }
    ensures long { length walkers.new.items ≡ length walkers.old.items }
    ensures walked { EachDid (λ w before after. HasWalkedAny (F.post ground.now.draws.now)
        (get ground.now.table.now.chains) ground.now.node.now packets.now
        (length walkers.old.items) w before.lists after) walkers.old.items walkers.new.items }
    ensures sizes { EachKeepsSize (λ w. w.lists) walkers.old.items walkers.new.items }
{
    if walkers.len() == 1 {
        run_beside(rt, &OpenGate, ground, packets, walkers.as_mut_slice());
    } else {
        run_beside(rt, gate, ground, packets, walkers.as_mut_slice());
    }
}

/// Runs workers, each in a thread of its own, of which this one is one.
fn run_beside<F: Fn(u64, u32) -> u32 + Sync, R: Threads + Sync, G: Gate<R> + Sync>(
    rt: &R,
    gate: &G,
    ground: &Ground<'_, F>,
    packets: &[Numbered],
    walkers: &mut [Walker],
)
    requires ranked { is_ranked ground.now.table.now.chains ≡ true }
    requires stated { IsStated (F.pre ground.now.draws.now) (F.post ground.now.draws.now) }
    ensures long { length walkers.new ≡ length walkers.old }
    ensures walked { EachDid (λ w before after. HasWalkedAny (F.post ground.now.draws.now)
        (get ground.now.table.now.chains) ground.now.node.now packets.now
        (length walkers.old) w before.lists after) walkers.old walkers.new }
    ensures sizes { EachKeepsSize (λ w. w.lists) walkers.old walkers.new }
{
    let count = walkers.len();
    if count == 0 {
        return;
    }
    thread::for_each_mut(
        rt,
        walkers,
        count,
        &|own: usize, walker: &mut Walker| {
            walker.run(rt, gate, ground, packets, Place { own, count })
        },
    );
}

/// The lists of workers, and their answers, unless memory was refused to one of them.
fn take_apart(
    alloc: Global,
    walkers: Vec<Walker>,
) -> Result<(Items<RecentLists>, Vec<VecDeque<Answer>>), NoMemory>
    ensures lists { IfOk result (λ parts. parts.0 ≡ map (λ w. w.lists) walkers.items) }
    ensures queues { IfOk result
        (λ parts. parts.1.items ≡ map (λ w. w.answers) walkers.items) }
    ensures none { OnOk result (AllByRecursion (λ w. w.refused ≡ None) walkers.items) }
{
    let mut values = Vec::new(alloc);
    let mut queues = Vec::new(alloc);
    for walker in walkers {
        let (lists, answers) = walker.into_parts()?;
        values.push(lists)?;
        queues.push(answers)?;
    }
    Ok((Items::from_vec(values), queues))
}

/// The answers in the order of packets: for each the next one of its worker.
fn take_in_turn(
    alloc: Global,
    packets: &[Numbered],
    queues: &mut [VecDeque<Answer>],
) -> Result<Items<Answer>, NoMemory>
    requires { 0 < length queues.old }
    ensures { IfOk result (λ answers. all_told answers ≡ in_turn
        (λ x. spec.worker_of (length queues.old) (part_in x)) packets.now
        (map (λ q. all_told q.items) queues.old)) }
{
    let mut answers = Vec::new(alloc);
    for packet in packets {
        let place = worker_of(queues.len(), part_of(&packet.packet.source));
        let Some(answer) = queues[place].pop_front() else {
            continue;
        };
        answers.push(answer)?;
    }
    Ok(Items::from_vec(answers))
}
