//! Answers from a table.
ghost use Rattle.std.specs.Prelude.{◌≡◌, ◌<◌, ◌^◌, ◌++◌, true, IfOk, OnOk, OnErr, string_bytes};
ghost use Rattle.kp_print.specs.Fronts.{HasFront};
ghost use Rattle.kp_run_defs.specs.AnswerText.{answer_text, draws_at};
ghost use Rattle.kp_table_defs.specs.Ranks.{is_ranked};
ghost use Rattle.kp_walker.specs.Answers.{answered};

use crate::draws::draw_at;
use kp_base::{Address, Items, NoMemory};
use kp_draws::DrawSource;
use kp_recent::RecentLists;
use kp_report::{push_answer, push_trail};
use kp_rules::Table;
use kp_text_defs::PacketLine;
use kp_types::{Answer, Verdict};

/// What packets are answered from: the table as the sync of this number left it, on the node with
/// these addresses.
#[derive(Drop)]
pub struct Snapshot<'a> {
    pub table: &'a Table,
    pub node: &'a Items<Address>,
    pub sync: u64,
}

impl Snapshot<'_> {
    ghost use Rattle.kp_answers.specs.Walks.{walk_in, answer_in, IsOnWay, IsPartly};

    /// Adds what the line of this number is answered: where the rules of a table that can be walked
    /// send its packet, and its trail where the line asks for it. Its source may be remembered.
    /// Without memory the recent lists are those of the walk, or as they stood on its way, and what
    /// was in the text stands.
    pub fn answer(
        &self,
        number: u64,
        line: &PacketLine,
        lists: &mut RecentLists,
        text: &mut String,
    ) -> Result<(), NoMemory>
        requires ranked { is_ranked self.now.table.now.chains ≡ true }
        ensures text { OnOk result (string_bytes text.new
            ≡ string_bytes text.old ++ answer_in self.now number line.now lists.old) }
        ensures lists { OnOk result (lists.new
            ≡ (walk_in self.now number line.now lists.old).lists) }
        ensures refused { OnErr result (IsPartly self.now number line.now lists.old lists.new) }
        ensures size { lists.new.size ≡ lists.old.size }
        ensures front { OnErr result (HasFront text.new text.old) }
    {
        if line.trail {
            let answer = self.walk(number, line, lists)?;
            push_answer(text, number, self.sync, &answer.verdict)?;
            push_trail(text, number, &answer.trail)
        } else {
            let verdict = self.verdict_of(number, line, lists)?;
            push_answer(text, number, self.sync, &verdict)
        }
    }

    /// What becomes of the packet of the line of this number, for who prints nothing. Only a set of
    /// a source that its recent list lacks takes memory, and where it gets none the lists stay as
    /// they are by then.
    pub fn verdict_of(
        &self,
        number: u64,
        line: &PacketLine,
        lists: &mut RecentLists,
    ) -> Result<Verdict, NoMemory>
        requires ranked { is_ranked self.now.table.now.chains ≡ true }
        ensures verdict { IfOk result (λ verdict. verdict
            ≡ (walk_in self.now number line.now lists.old).verdict) }
        ensures lists { OnOk result (lists.new
            ≡ (walk_in self.now number line.now lists.old).lists) }
        ensures refused { OnErr result (IsOnWay self.now number line.now lists.old lists.new) }
        ensures size { lists.new.size ≡ lists.old.size }
    {
        let draws = DrawSource::new(
            |number: u64, k: u32| -> u32
                ensures value { result ≡ draws_at number line.entry.now.draws k }
                ensures low { result < 2 ^ 31 }
            { draw_at(line, number, k) },
        );
        kp_walker::verdict_of(self.table, self.node, number, &line.packet, &draws, lists)
    }

    /// What becomes of the packet of the line of this number, and on which way, for who prints
    /// something between the two. Memory as for `verdict_of`.
    pub fn walk(
        &self,
        number: u64,
        line: &PacketLine,
        lists: &mut RecentLists,
    ) -> Result<Answer, NoMemory>
        requires ranked { is_ranked self.now.table.now.chains ≡ true }
        ensures walk { IfOk result (λ answer. answered answer lists.new
            ≡ walk_in self.now number line.now lists.old) }
        ensures refused { OnErr result (IsOnWay self.now number line.now lists.old lists.new) }
        ensures size { lists.new.size ≡ lists.old.size }
    {
        let draws = DrawSource::new(
            |number: u64, k: u32| -> u32
                ensures value { result ≡ draws_at number line.entry.now.draws k }
                ensures low { result < 2 ^ 31 }
            { draw_at(line, number, k) },
        );
        kp_walker::walk(self.table, self.node, number, &line.packet, &draws, lists)
    }
}
