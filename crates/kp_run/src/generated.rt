//! A generated script, and what came of it.
ghost use Rattle.std.specs.Prelude.{◌≡◌, ◌≤◌, ◌+◌, ◌<◌, IfOk, OnOk};
ghost use Rattle.std.specs.List.{fold};
ghost use Rattle.std.specs.Option.{option_copied};
ghost use Rattle.kp_gen_defs.specs.Script as script;
ghost use Rattle.kp_replay.specs.Steps.{IsReady};
ghost use Rattle.kp_mode_defs.specs.Summing as spec;
ghost use Rattle.kp_text_defs.specs.SaidLines.{given_as};
ghost use Rattle.kp_text_defs.specs.Live.{totals_text};
ghost use Rattle.kp_run.specs.Outcome as outcome;
ghost use Rattle.kp_run.specs.Sums as sums;
ghost use Rattle.kp_run.specs.Sums.{counted_in, sums_of};

use crate::ending::{flushed, if_refused};
use crate::status::Status;
use kp_base::NoMemory;
use kp_gen::{ScriptPart, ScriptPlan, lines_in, push_line, script_parts};
use kp_io::{Sink, write_whole};
use kp_modes::Summing;
use kp_replay::Replay;
use kp_report::totals_text;
use kp_text_defs::Totals;
use std::alloc::Global;

/// The most bytes that a line may have, without its line feed.
const LONGEST_LINE: usize = 16_777_216;

/// What a replay of a script came to: its sums, and whether a line was refused.
#[derive(Drop)]
pub(crate) struct Sums {
    totals: Totals,
    refused: bool,
}

/// A replay of a script that prints nothing, with its sums.
#[derive(Drop)]
pub(crate) struct Counting {
    replay: Replay,
    /// How many lines there were.
    number: u64,
    mode: Summing,
    /// The line that is taken, and what is not printed of it.
    line: String,
    unprinted: String,
}

impl Counting {
    /// Before the first line.
    fn new(alloc: Global) -> Result<Counting, NoMemory>
        ensures { IfOk result (λ c. counted_in c ≡ sums.count_start) }
    {
        Ok(Counting {
            replay: Replay::new(alloc, 1)?,
            number: 0,
            mode: Summing::new(),
            line: String::new(alloc),
            unprinted: String::new(alloc),
        })
    }

    /// Takes the line at a place of a part.
    fn take(
        &mut self,
        alloc: Global,
        plan: ScriptPlan,
        part: ScriptPart,
        place: u64,
    ) -> Result<(), NoMemory>
        requires plan { script.IsPlan plan }
        requires within { place < script.lines_in plan part }
        requires ready { IsReady (counted_in self.old).at.standing }
        requires few { (counted_in self.old).number < 1000000 }
        ensures counted { OnOk result (counted_in self.new
            ≡ sums.after_counted (counted_in self.old) (script.line_in plan part place)) }
        ensures ready { OnOk result (IsReady (counted_in self.new).at.standing) }
    {
        self.line.clear();
        push_line(&mut self.line, plan, part, place)?;
        self.unprinted.clear();
        self.number += 1;
        self.replay.take_line_in(
            alloc,
            self.number,
            fitting(self.line.as_bytes()),
            &mut self.mode,
            &mut self.unprinted,
        )
    }

    /// Takes the lines of a part.
    fn take_part(
        &mut self,
        alloc: Global,
        plan: ScriptPlan,
        part: ScriptPart,
    ) -> Result<(), NoMemory>
        requires plan { script.IsPlan plan }
        requires ready { IsReady (counted_in self.old).at.standing }
        requires few { (counted_in self.old).number ≤ 480000 }
        ensures counted { OnOk result (counted_in self.new
            ≡ fold sums.after_counted (counted_in self.old) (script.part_lines plan part)) }
        ensures ready { OnOk result (IsReady (counted_in self.new).at.standing) }
        ensures few { OnOk result (
            (counted_in self.new).number ≤ (counted_in self.old).number + 60000) }
    {
        for place in 0..lines_in(plan, part) {
            self.take(alloc, plan, part, place)?;
        }
        Ok(())
    }

    /// Takes the lines of a script.
    fn take_script(&mut self, alloc: Global, plan: ScriptPlan) -> Result<(), NoMemory>
        requires plan { script.IsPlan plan }
        requires start { counted_in self.old ≡ sums.count_start }
        ensures { OnOk result (counted_in self.new ≡ sums.counted_of (script.script_of plan)) }
    {
        for part in script_parts() {
            self.take_part(alloc, plan, part)?;
        }
        Ok(())
    }

    /// Lets all go but what it came to.
    fn end(self) -> Sums
        ensures { result ≡ sums_of (counted_in self).at }
    {
        Sums {
            totals: self.mode.totals,
            refused: self.replay.end(),
        }
    }
}

/// A line as a reader gives it: nothing of one that is too long.
fn fitting(bytes: &[u8]) -> Option<&[u8]>
    ensures { option_copied result ≡ given_as bytes.now }
{
    if bytes.len() > LONGEST_LINE {
        None
    } else {
        Some(bytes)
    }
}

/// What a replay of a script came to.
fn sums_of_script(alloc: Global, plan: ScriptPlan) -> Result<Sums, NoMemory>
    requires { script.IsPlan plan }
    ensures { IfOk result (λ s. s ≡ sums_of (spec.gen_of plan).at) }
{
    let mut counting = Counting::new(alloc)?;
    let taken = counting.take_script(alloc, plan);
    let sums = counting.end();
    match taken {
        Ok(()) => Ok(sums),
        Err(refused) => Err(refused),
    }
}

/// Replays a generated script, and writes the one line of what came of it.
pub fn generate<K: Sink>(alloc: Global, plan: ScriptPlan, sink: &mut K) -> Status
    requires { script.IsPlan plan }
    ensures { outcome.EndsGen plan result (K.output sink.old) (K.output sink.new) }
{
    match sums_of_script(alloc, plan) {
        Ok(sums) => write_sums(alloc, &sums, sink),
        Err(refused) => Status::NoMemory(refused),
    }
}

/// Writes the line of sums.
fn write_sums<K: Sink>(alloc: Global, sums: &Sums, sink: &mut K) -> Status
    ensures { outcome.EndsLine sums.now.refused (totals_text sums.now.totals) result
        (K.output sink.old) (K.output sink.new) }
{
    let text = match totals_text(alloc, &sums.totals) {
        Ok(text) => text,
        Err(refused) => return Status::NoMemory(refused),
    };
    match write_whole(sink, text.as_str().as_bytes()) {
        Ok(()) => flushed(sink, if_refused(sums.refused)),
        Err(_) => Status::WriteFault,
    }
}
