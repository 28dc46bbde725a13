//! What lines of a group are answered, each by the worker who has the lists of its source.
ghost use Rattle.std.specs.Prelude.{◌≡◌, ◌++◌, true, string_bytes, OnErr, OnOk};
ghost use Rattle.kp_print.specs.Fronts.{HasFront};
ghost use Rattle.kp_replay.specs.Answering.{part_of_op, step_of_op};
ghost use Rattle.kp_table_defs.specs.Ranks.{is_ranked};

use crate::reads::Read;
use kp_answers::Snapshot;
use kp_base::NoMemory;
use kp_recent::RecentLists;
use kp_report::push_refusal;
use kp_script::{Op, Said};
use kp_workers::{Work, part_of};
use std::alloc::Global;

/// What lines are answered with that ask for a packet, or are refused.
#[derive(Drop)]
pub(crate) struct Answering<'a> {
    pub(crate) alloc: Global,
    pub(crate) snapshot: Snapshot<'a>,
    pub(crate) ghost ranked: { is_ranked snapshot.table.now.chains ≡ true },
}

impl Work<Read> for Answering<'_> {
    ghost use Rattle.kp_replay.specs.Answering.{part_of, step_of};

    ghost part = { λ work read. part_of read };

    ghost step = { λ work read. step_of work.snapshot read };

    fn part(&self, read: &Read) -> usize {
        match &read.said {
            Ok(Said::Asks(line)) => part_of_op(&line.op),
            Ok(Said::Nothing | Said::Refuses(_)) | Err(_) => 0,
        }
    }

    fn step(
        &self,
        read: &Read,
        lists: &mut RecentLists,
        text: &mut String,
    ) -> Result<(), NoMemory> {
        match &read.said {
            Ok(Said::Asks(line)) => answer_op(&self.snapshot, read.number, &line.op, lists, text),
            Ok(Said::Refuses(refusal)) => push_refusal(self.alloc, text, read.number, refusal),
            Ok(Said::Nothing) | Err(_) => Ok(()),
        }
    }
}

/// The part of the recent lists that a packet's line looks at. Of other lines, which look at none,
/// the first.
fn part_of_op(op: &Op) -> usize
    ensures { result ≡ part_of_op op.now }
{
    match op {
        Op::Packet(line) => part_of(&line.packet.source),
        Op::Config(_) | Op::Events(_) | Op::Sync | Op::Explain(_) | Op::Show(_) => 0,
    }
}

/// Adds what a packet's line is answered. Other lines are answered nothing here.
fn answer_op(
    snapshot: &Snapshot<'_>,
    number: u64,
    op: &Op,
    lists: &mut RecentLists,
    text: &mut String,
) -> Result<(), NoMemory>
    requires ranked { is_ranked snapshot.now.table.now.chains ≡ true }
    ensures text { OnOk result (string_bytes text.new
        ≡ string_bytes text.old ++ (step_of_op snapshot.now number op.now lists.old).0) }
    ensures lists { OnOk result
        (lists.new ≡ (step_of_op snapshot.now number op.now lists.old).1) }
    ensures size { lists.new.size ≡ lists.old.size }
    ensures front { OnErr result (HasFront text.new text.old) }
{
    match op {
        Op::Packet(line) => snapshot.answer(number, line, lists, text),
        Op::Config(_) | Op::Events(_) | Op::Sync | Op::Explain(_) | Op::Show(_) => Ok(()),
    }
}
