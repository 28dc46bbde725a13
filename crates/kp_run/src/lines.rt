//! A replay of lines, one after the other, in any mode.
ghost use Rattle.std.specs.Prelude.{◌≡◌, ◌<◌, ◌≤◌, ◌⊎◌, IfOk, OnOk, OnErr};
ghost use Rattle.std.specs.Option.{option_copied};
ghost use Rattle.kp_io.specs.Ends.{Input, Output};
ghost use Rattle.kp_io.specs.Reader.{fresh_with};
ghost use Rattle.kp_io.specs.declared.next_line.TheConstants.{LINE_LIMIT};
ghost use Rattle.kp_run_defs.specs.ReplayText as spec;
ghost use Rattle.kp_mode_defs.specs.Mode as modes;
ghost use Rattle.kp_replay.specs.Steps.{place_of, standing_of, Follows, IsReady};
ghost use Rattle.kp_run.specs.Next.{TakesNext};
ghost use Rattle.kp_run.specs.Outcome as outcome;
ghost use Rattle.kp_run.specs.Stand.{ComesOrStops, CountsLine, EndsOrStops, HandsOn, Stands};
ghost use Rattle.kp_run.specs.Stand.{TakesOrStops, TakesStep, WritesOrStops};
ghost use Rattle.kp_run.specs.Texts.{in_mode};

use crate::ending::{Stop, ended, hand_on, write_text};
use crate::status::Status;
use kp_base::NoMemory;
use kp_io::{BUFFER_SIZE, LineFault, LineReader, NextLine, Sink, Source};
use kp_modes::{Mode, Replaying};
use kp_replay::Replay;
use std::alloc::Global;

/// Replays the lines of a source, and writes what they print to a sink. It waits for nobody.
pub fn replay_one<S: Source, K: Sink>(alloc: Global, source: &mut S, sink: &mut K) -> Status
    ensures { outcome.Ends result (S.input source.old) (K.output sink.old)
        (S.input source.new) (K.output sink.new) }
{
    replay_in(alloc, &mut Replaying, source, sink)
}

/// Replays the lines of a source as `replay_one` does, and writes what a mode adds too.
pub fn replay_in<S: Source, K: Sink, M: Mode>(
    alloc: Global,
    mode: &mut M,
    source: &mut S,
    sink: &mut K,
) -> Status
    ensures { outcome.EndsIn M.mode result (S.input source.old) (K.output sink.old)
        (S.input source.new) (K.output sink.new) }
{
    let (mut replay, mut reader) = match begin_in(alloc, mode) {
        Ok(both) => both,
        Err(refused) => return ended(sink, false, Err(Stop::NoMemory(refused))),
    };
    let all = replay_to_end(alloc, mode, &mut replay, &mut reader, source, sink);
    let refused = replay.end();
    ended(sink, refused, all)
}

/// A replay and a reader before the first line, in a mode that begins with them.
fn begin_in<M: Mode>(alloc: Global, mode: &mut M) -> Result<(Replay, LineReader), NoMemory>
    ensures began { IfOk result (λ b.
        (standing_of b.0 ≡ spec.beginning) × (b.1 ≡ fresh_with BUFFER_SIZE)) }
    ensures follows { OnOk result (Follows (M.stands mode.new) (modes.place_at_start M.mode)) }
{
    let (replay, reader) = begin(alloc, BUFFER_SIZE, 1)?;
    replay.begin_in(alloc, mode)?;
    Ok((replay, reader))
}

/// A replay and a reader before the first line.
pub(crate) fn begin(
    alloc: Global,
    room: usize,
    workers: usize,
) -> Result<(Replay, LineReader), NoMemory>
    requires room { 0 < room }
    requires workers { 0 < workers }
    ensures { IfOk result (λ b. (standing_of b.0 ≡ spec.beginning) × (b.1 ≡ fresh_with room)) }
{
    let reader = LineReader::with_room(alloc, room)?;
    let replay = Replay::new(alloc, workers)?;
    Ok((replay, reader))
}

/// Takes the lines of a source to its end, and writes what they print and what the mode adds to all
/// of them.
fn replay_to_end<S: Source, K: Sink, M: Mode>(
    alloc: Global,
    mode: &mut M,
    replay: &mut Replay,
    reader: &mut LineReader,
    source: &mut S,
    sink: &mut K,
) -> Result<(), Stop>
    requires fresh { reader.old ≡ fresh_with reader.old.room }
    requires room { reader.old.room ≤ LINE_LIMIT }
    requires start { standing_of replay.old ≡ spec.beginning }
    requires follows { Follows (M.stands mode.old) (modes.place_at_start M.mode) }
    ensures { EndsOrStops (in_mode M.mode) (standing_of replay.new).refused result
        (S.input source.old) (K.output sink.old)
        (S.input source.new) (K.output sink.new) }
{
    replay_lines(alloc, mode, replay, reader, source, sink)?;
    write_ending(alloc, mode, replay, sink)
}

/// Takes the lines of a source to its end, and writes what they print.
fn replay_lines<S: Source, K: Sink, M: Mode>(
    alloc: Global,
    mode: &mut M,
    replay: &mut Replay,
    reader: &mut LineReader,
    source: &mut S,
    sink: &mut K,
) -> Result<(), Stop>
    requires fresh { reader.old ≡ fresh_with reader.old.room }
    requires room { reader.old.room ≤ LINE_LIMIT }
    requires start { standing_of replay.old ≡ spec.beginning }
    requires follows { Follows (M.stands mode.old) (modes.place_at_start M.mode) }
    ensures { ComesOrStops M.mode (Follows (M.stands mode.new)) (standing_of replay.new) result
        (S.input source.old) (K.output sink.old)
        (S.input source.new) (K.output sink.new) }
{
    let mut text = String::new(alloc);
    'lines: loop {
        match take_next(alloc, mode, replay, reader, &mut text, source, sink)? {
            Some(_) => {}
            None => return Ok(()),
        }
    }
}

/// Takes the next line, of which it tells the number, and writes what it prints. It tells none at
/// the end. The text is used again for each line.
pub(crate) fn take_next<S: Source, K: Sink, M: Mode>(
    alloc: Global,
    mode: &mut M,
    replay: &mut Replay,
    reader: &mut LineReader,
    text: &mut String,
    source: &mut S,
    sink: &mut K,
) -> Result<Option<u64>, Stop>
    requires { IsReady (standing_of replay.old) }
    ensures step { (from : Input) (to : Output)
        → Stands M.mode (Follows (M.stands mode.old)) from to (standing_of replay.old) reader.old
        (S.input source.old) (K.output sink.old)
        → TakesStep M.mode (Follows (M.stands mode.new)) from to result
        (standing_of replay.new) reader.new (S.input source.new) (K.output sink.new) }
    ensures counts { IfOk result (λ taken. CountsLine taken reader.old reader.new) }
{
    match next_known(reader, source, sink)? {
        Ok(NextLine::Line { number }) => {
            let line = reader.bytes();
            replay_line(alloc, mode, replay, number, Some(line), text, sink)?;
            Ok(Some(number))
        }
        Err(LineFault::TooLongLine { number }) => {
            replay_line(alloc, mode, replay, number, None, text, sink)?;
            Ok(Some(number))
        }
        Ok(NextLine::End { lines: _ }) => Ok(None),
        Err(LineFault::ReadFault) => Err(Stop::Read),
        Err(LineFault::InputTooLong) => Err(Stop::InputTooLong),
        Err(LineFault::NoMemory(refused)) => Err(Stop::NoMemory(refused)),
    }
}

/// What the reader answers next. Where it asks the source, nothing that is known is kept back.
pub(crate) fn next_known<S: Source, K: Sink>(
    reader: &mut LineReader,
    source: &mut S,
    sink: &mut K,
) -> Result<Result<NextLine, LineFault>, Stop>
    ensures known { (source.new ≡ source.old) ⊎ ((K.output sink.new).kept_back ≡ 0) }
    ensures next { IfOk result (λ told. TakesNext told reader.old reader.new
        (S.input source.old) (S.input source.new)) }
    ensures hands { HandsOn result (K.output sink.old) (K.output sink.new) }
    ensures unread { OnErr result (source.new ≡ source.old) }
{
    if !reader.answers_unasked() {
        hand_on(sink)?;
    }
    Ok(reader.next_line(source))
}

/// Takes a line, of which nothing is given where it is too long, and writes what it prints. The
/// text is used again for each line.
fn replay_line<K: Sink, M: Mode>(
    alloc: Global,
    mode: &mut M,
    replay: &mut Replay,
    number: u64,
    given: Option<&[u8]>,
    text: &mut String,
    sink: &mut K,
) -> Result<(), Stop>
    requires { IsReady (standing_of replay.old) }
    ensures { (state : M.State) → Follows (M.stands mode.old) (place_of replay.old state)
        → TakesOrStops result (Follows (M.stands mode.new)) (modes.given_in M.mode number
        (option_copied given.entry) (place_of replay.old state)) (standing_of replay.new)
        (K.output sink.old) (K.output sink.new) }
{
    text.clear();
    match replay.take_line_in(alloc, number, given, mode, text) {
        Ok(()) => write_text(sink, text.as_bytes()),
        Err(refused) => Err(Stop::NoMemory(refused)),
    }
}

/// Writes what a mode adds to all lines.
fn write_ending<K: Sink, M: Mode>(
    alloc: Global,
    mode: &mut M,
    replay: &Replay,
    sink: &mut K,
) -> Result<(), Stop>
    ensures { (state : M.State) → Follows (M.stands mode.old) (place_of replay.now state)
        → WritesOrStops result (modes.ended M.mode (place_of replay.now state))
        (K.output sink.old) (K.output sink.new) }
{
    let mut text = String::new(alloc);
    match replay.end_in(alloc, mode, &mut text) {
        Ok(()) => write_text(sink, text.as_bytes()),
        Err(refused) => Err(Stop::NoMemory(refused)),
    }
}
