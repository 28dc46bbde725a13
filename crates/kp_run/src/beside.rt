//! Groups of the whole lines that a reader holds, which workers take beside each other.
ghost use Rattle.std.specs.Prelude.{◌≡◌, ◌<◌, ◌≤◌, ◌+◌, ◌^◌, false, IfOk, OnOk};
ghost use Rattle.kp_io.specs.Ends.{Input, Output};
ghost use Rattle.kp_io.specs.Reader.{IsBounded};
ghost use Rattle.kp_io.specs.declared.next_line.TheConstants.{INPUT_LIMIT, LINE_LIMIT};
ghost use Rattle.kp_mode_defs.specs.Mode.{replaying};
ghost use Rattle.kp_run.specs.Given.{anywhere};
ghost use Rattle.kp_replay.specs.Steps.{standing_of, IsReady};
ghost use Rattle.kp_run.specs.Held.{AnswersGroup};
ghost use Rattle.kp_run.specs.Stand.{GoesOn, Stands};

use crate::ending::{Stop, write_text};
use kp_base::NoMemory;
use kp_gate::Gate;
use kp_io::{LineReader, Sink};
use kp_replay::{Reads, Replay, group_of};
use std::alloc::Global;
use std::thread::Threads;

/// Groups of lines, which workers take beside each other.
#[derive(Drop)]
pub(crate) struct Beside<'a, R, G> {
    rt: &'a R,
    gate: &'a G,
    reads: Reads,
    /// What a group prints. Its memory serves the next one.
    text: Vec<u8>,
}

impl<'a, R: Threads + Sync, G: Gate<R> + Sync> Beside<'a, R, G> {
    /// Before the first group.
    pub(crate) fn new(rt: &'a R, alloc: Global, gate: &'a G) -> Beside<'a, R, G> {
        Beside {
            rt,
            gate,
            reads: Reads::new(alloc),
            text: Vec::new(alloc),
        }
    }

    /// Takes the group at the front of what the reader holds after the line of this number, or
    /// nothing, and writes what it prints.
    pub(crate) fn take_held<K: Sink>(
        &mut self,
        alloc: Global,
        number: u64,
        replay: &mut Replay,
        reader: &mut LineReader,
        sink: &mut K,
    ) -> Result<(), Stop>
        requires ready { IsReady (standing_of replay.old) }
        requires number { number ≡ reader.old.number }
        requires bounded { IsBounded reader.old }
        requires room { reader.old.room ≤ LINE_LIMIT }
        ensures goes { (from : Input) (to : Output) (input : Input)
            → Stands replaying anywhere from to (standing_of replay.old) reader.old input (K.output sink.old)
            → GoesOn replaying anywhere from to result (standing_of replay.new) reader.new input
            (K.output sink.new) }
        ensures further { OnOk result (reader.old.number ≤ reader.new.number) }
    {
        if !replay.has_begun() {
            return Ok(());
        }
        if reader.held_lines().is_empty() {
            return Ok(());
        }
        self.take_group(alloc, number, replay, reader, sink)
    }

    /// Takes the group at the front of what the reader holds, and writes what it prints.
    fn take_group<K: Sink>(
        &mut self,
        alloc: Global,
        number: u64,
        replay: &mut Replay,
        reader: &mut LineReader,
        sink: &mut K,
    ) -> Result<(), Stop>
        requires begun { (standing_of replay.old).fresh ≡ false }
        requires number { number ≡ reader.old.number }
        requires bounded { IsBounded reader.old }
        requires room { reader.old.room ≤ LINE_LIMIT }
        requires open { reader.old.skipping ≡ false }
        requires input { reader.old.taken ≤ INPUT_LIMIT }
        ensures goes { (from : Input) (to : Output) (input : Input)
            → Stands replaying anywhere from to (standing_of replay.old) reader.old input (K.output sink.old)
            → GoesOn replaying anywhere from to result (standing_of replay.new) reader.new input
            (K.output sink.new) }
        ensures further { OnOk result (reader.old.number ≤ reader.new.number) }
    {
        match self.answer_group(alloc, number + 1, replay, reader.held_lines()) {
            Ok((bytes, lines)) => {
                reader.pass_lines(bytes, lines);
                write_text(sink, self.text.as_slice())
            }
            Err(refused) => Err(Stop::NoMemory(refused)),
        }
    }

    /// Answers the group at the front of the bytes that are held, of which the first line has this
    /// number, and says how many bytes and lines it has.
    fn answer_group(
        &mut self,
        alloc: Global,
        number: u64,
        replay: &mut Replay,
        held: &[u8],
    ) -> Result<(usize, u64), NoMemory>
        requires begun { (standing_of replay.old).fresh ≡ false }
        requires few { number + 32768 < 2 ^ 64 }
        ensures { IfOk result (λ r. AnswersGroup number held.now r.0 r.1
            (standing_of replay.old) (standing_of replay.new) self.new.text.items) }
    {
        self.text.clear();
        let group = group_of(alloc, held)?;
        let lines = group.lines.as_slice();
        replay.take_group(
            self.rt,
            alloc,
            self.gate,
            number,
            lines,
            &mut self.reads,
            &mut self.text,
        )?;
        Ok((group.bytes, lines.len() as u64))
    }
}
