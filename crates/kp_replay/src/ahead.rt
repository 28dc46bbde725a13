//! Lines that are answered while the next ones are read.
ghost use Rattle.std.specs.Prelude.{◌≡◌, ◌<◌, ◌+◌, ◌^◌, ◌++◌, map, length, OnErr, OnOk};
ghost use Rattle.std.specs.List.{concat};
ghost use Rattle.std.specs.Thread.{IsSync};
ghost use Rattle.kp_part_laws.specs.Beside.{one_by_one};
ghost use Rattle.kp_replay.specs.Answering.{step_of};
ghost use Rattle.kp_replay.specs.Groups.{AreReadAs};
ghost use Rattle.kp_workers.specs.Texts.{BeginsWith};

use crate::answering::Answering;
use crate::reads::{Read, read_lines};
use kp_base::NoMemory;
use kp_gate::Gate;
use kp_workers::{PartLists, answer_all};
use std::alloc::Global;
use std::thread::{Threads, join_mut};

/// Adds what lines are answered by workers, while the next ones, of which the first has this
/// number, are read in the place of others. Half as many threads read as answer.
pub(crate) fn answer_ahead<R: Threads + Sync, G: Gate<R> + Sync>(
    rt: &R,
    alloc: Global,
    gate: &G,
    work: &Answering<'_>,
    reads: &[Read],
    number: u64,
    ahead: &[&[u8]],
    next: &mut Vec<Read>,
    lists: &mut PartLists,
    text: &mut Vec<u8>,
) -> Result<(), NoMemory>
    requires few { number + length ahead.now < 2 ^ 64 }
    ensures text { OnOk result (text.new.items ≡ text.old.items
        ++ concat (one_by_one (step_of work.now.snapshot) reads.now lists.old).0) }
    ensures lists { OnOk result
        (lists.new ≡ (one_by_one (step_of work.now.snapshot) reads.now lists.old).1) }
    ensures size { lists.new.size ≡ lists.old.size }
    ensures front { OnErr result (BeginsWith text.new.items text.old.items) }
    ensures next { OnOk result
        (AreReadAs number (map (λ line. line.now) ahead.now) next.new.items) }
{
    if ahead.is_empty() {
        next.clear();
        return answer_all(rt, alloc, gate, work, reads, lists, text);
    }
    let most = ahead.len().div_ceil(lists.workers().div_ceil(2)).max(1);
    let mut read = || -> Result<(), NoMemory>
        requires { IsSync R.row × (0 < most) × (number + length ahead.now < 2 ^ 64) }
        ensures { OnOk result
            (AreReadAs number (map (λ line. line.now) ahead.entry.now) next.exit.now.items) }
    { read_lines(rt, alloc, number, ahead, most, next) };
    let mut answer = || -> Result<(), NoMemory>
        requires { IsSync R.row × IsSync G.row }
        ensures text { OnOk result (text.exit.now.items ≡ text.entry.now.items ++ concat
            (one_by_one (step_of work.entry.now.snapshot) reads.entry.now lists.entry.now).0) }
        ensures lists { OnOk result (lists.exit.now
            ≡ (one_by_one (step_of work.entry.now.snapshot) reads.entry.now lists.entry.now).1) }
        ensures size { lists.exit.now.size ≡ lists.entry.now.size }
        ensures front { OnErr result (BeginsWith text.exit.now.items text.entry.now.items) }
    { answer_all(rt, alloc, gate, work, reads, lists, text) };
    let (were_read, answered) = join_mut(rt, &mut read, &mut answer);
    answered?;
    were_read
}
