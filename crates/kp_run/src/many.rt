//! A replay of lines by workers beside each other.
ghost use Rattle.std.specs.Prelude.{◌≡◌, ◌≤◌};
ghost use Rattle.kp_io.specs.Reader.{fresh_with};
ghost use Rattle.kp_io.specs.declared.next_line.TheConstants.{LINE_LIMIT};
ghost use Rattle.kp_run_defs.specs.ReplayText as spec;
ghost use Rattle.kp_replay.specs.Steps.{standing_of};
ghost use Rattle.kp_run.specs.Outcome as outcome;
ghost use Rattle.kp_mode_defs.specs.Mode.{replaying};
ghost use Rattle.kp_run.specs.Given.{anywhere};
ghost use Rattle.kp_run.specs.Stand.{ComesOrStops};

use crate::beside::Beside;
use crate::ending::{Stop, ended};
use crate::lines::{begin, take_next};
use crate::status::Status;
use kp_gate::Gate;
use kp_io::{LineReader, Sink, Source};
use kp_modes::Replaying;
use kp_replay::Replay;
use std::alloc::Global;
use std::thread::Threads;

/// How many bytes are asked for at a time, which are some groups of as many lines as a group may
/// have.
const GROUP_ROOM: usize = 2_097_152;

/// How many workers there are at most, one for each part of the recent lists.
const MOST_WORKERS: u64 = 16;

/// Replays the lines of a source as `replay_one` does, by so many workers beside each other, who
/// pass the gate around each line of a group.
pub fn replay_many<S: Source, K: Sink, R: Threads + Sync, G: Gate<R> + Sync>(
    rt: &R,
    alloc: Global,
    workers: u64,
    source: &mut S,
    sink: &mut K,
    gate: &G,
) -> Status
    ensures { outcome.Ends result (S.input source.old) (K.output sink.old)
        (S.input source.new) (K.output sink.new) }
{
    let workers = workers.clamp(1, MOST_WORKERS) as usize;
    let (mut replay, mut reader) = match begin(alloc, GROUP_ROOM, workers) {
        Ok(both) => both,
        Err(refused) => return ended(sink, false, Err(Stop::NoMemory(refused))),
    };
    let mut beside = Beside::new(rt, alloc, gate);
    let all = replay_groups(alloc, &mut beside, &mut replay, &mut reader, source, sink);
    let refused = replay.end();
    ended(sink, refused, all)
}

/// Takes the lines of a source to its end, those that are held in groups, and writes what they
/// print.
fn replay_groups<S: Source, K: Sink, R: Threads + Sync, G: Gate<R> + Sync>(
    alloc: Global,
    beside: &mut Beside<'_, R, G>,
    replay: &mut Replay,
    reader: &mut LineReader,
    source: &mut S,
    sink: &mut K,
) -> Result<(), Stop>
    requires fresh { reader.old ≡ fresh_with reader.old.room }
    requires room { reader.old.room ≤ LINE_LIMIT }
    requires start { standing_of replay.old ≡ spec.beginning }
    ensures { ComesOrStops replaying anywhere (standing_of replay.new) result
        (S.input source.old) (K.output sink.old)
        (S.input source.new) (K.output sink.new) }
{
    let mut text = String::new(alloc);
    'lines: loop {
        match take_next(
            alloc,
            &mut Replaying,
            replay,
            reader,
            &mut text,
            source,
            sink,
        )? {
            Some(number) => beside.take_held(alloc, number, replay, reader, sink)?,
            None => return Ok(()),
        }
    }
}
