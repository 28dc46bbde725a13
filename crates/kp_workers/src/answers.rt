//! Answers from recent lists that workers share out.
ghost use Rattle.std.specs.Prelude.{◌≡◌, ◌++◌, true, IfOk, OnErr, OnOk, string_bytes};
ghost use Rattle.kp_answers.specs.Walks.{answer_in, walk_in};
ghost use Rattle.kp_part_laws.specs.Beside.{IsInPart};
ghost use Rattle.kp_print.specs.Fronts.{HasFront};
ghost use Rattle.kp_table_defs.specs.Ranks.{is_ranked};
ghost use Rattle.kp_walker.specs.Answers.{answered};

use crate::part_lists::{PartLists, part_of};
use crate::work::Work;
use crate::worker::worker_of;
use kp_answers::{PacketLine, Snapshot};
use kp_base::NoMemory;
use kp_types::{Answer, Verdict};

impl PartLists {
    /// Adds what the line of this number is answered, as the snapshot answers it. Without memory
    /// the lists may be anything of their size.
    pub fn answer(
        &mut self,
        snapshot: &Snapshot<'_>,
        number: u64,
        line: &PacketLine,
        text: &mut String,
    ) -> Result<(), NoMemory>
        requires ranked { is_ranked snapshot.now.table.now.chains ≡ true }
        ensures text { OnOk result (string_bytes text.new
            ≡ string_bytes text.old ++ answer_in snapshot.now number line.now self.old) }
        ensures lists { OnOk result (self.new
            ≡ (walk_in snapshot.now number line.now self.old).lists) }
        ensures size { self.new.size ≡ self.old.size }
        ensures front { OnErr result (HasFront text.new text.old) }
    {
        let place = worker_of(self.workers.len(), part_of(&line.packet.source));
        snapshot.answer(number, line, &mut self.workers[place].lists, text)
    }

    /// What becomes of the packet of the line of this number, as the snapshot tells it. Without
    /// memory the lists may be anything of their size.
    pub fn verdict_of(
        &mut self,
        snapshot: &Snapshot<'_>,
        number: u64,
        line: &PacketLine,
    ) -> Result<Verdict, NoMemory>
        requires ranked { is_ranked snapshot.now.table.now.chains ≡ true }
        ensures verdict { IfOk result (λ verdict. verdict
            ≡ (walk_in snapshot.now number line.now self.old).verdict) }
        ensures lists { OnOk result (self.new
            ≡ (walk_in snapshot.now number line.now self.old).lists) }
        ensures size { self.new.size ≡ self.old.size }
    {
        let place = worker_of(self.workers.len(), part_of(&line.packet.source));
        snapshot.verdict_of(number, line, &mut self.workers[place].lists)
    }
    /// What becomes of the packet of the line of this number, and on which way, as the snapshot
    /// tells it. Without memory the lists may be anything of their size.
    pub fn walk(
        &mut self,
        snapshot: &Snapshot<'_>,
        number: u64,
        line: &PacketLine,
    ) -> Result<Answer, NoMemory>
        requires ranked { is_ranked snapshot.now.table.now.chains ≡ true }
        ensures walk { IfOk result (λ answer. answered answer self.new
            ≡ walk_in snapshot.now number line.now self.old) }
        ensures size { self.new.size ≡ self.old.size }
    {
        let place = worker_of(self.workers.len(), part_of(&line.packet.source));
        snapshot.walk(number, line, &mut self.workers[place].lists)
    }

    /// Adds what an item is answered, by the worker who has the item's part. Without memory the
    /// lists may be anything of their size, and some of the answer may be added.
    pub fn take<T, W: Work<T>>(
        &mut self,
        work: &W,
        item: &T,
        text: &mut String,
    ) -> Result<(), NoMemory>
        requires local { IsInPart (W.part work.now item.now) (W.step work.now item.now) }
        ensures text { OnOk result (string_bytes text.new
            ≡ string_bytes text.old ++ (W.step work.now item.now self.old).0) }
        ensures lists { OnOk result (self.new ≡ (W.step work.now item.now self.old).1) }
        ensures size { self.new.size ≡ self.old.size }
        ensures front { OnErr result (HasFront text.new text.old) }
    {
        let place = worker_of(self.workers.len(), work.part(item));
        work.step(item, &mut self.workers[place].lists, text)
    }
}
