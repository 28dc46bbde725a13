//! The program's words.
ghost use Rattle.std.specs.Prelude.{◌≡◌, map, string_bytes, false, true, IfSome, IsSome, None, Some};
ghost use Rattle.kp_words.specs.Words.{mode_of};
ghost use Rattle.kp_run.specs.Alone as alone;
ghost use Rattle.kp_run.specs.Outcome as outcome;
ghost use Rattle.kp_modes.specs.Mapping.{mapping};
ghost use Rattle.kp_track_mode_defs.specs.TrackMode.{tracking};

use crate::ending::{Stop, ended, usage};
use crate::generated::generate;
use crate::lines::{replay_in, replay_one};
use crate::many::replay_many;
use crate::status::Status;
use crate::streams::run_live;
use kp_gate::Gate;
use kp_gen::ScriptPlan;
use kp_io::{Sink, Source};
use kp_modes::{Changing, Healthy, Mapping, Pathing, Tracking};
use kp_words::{Mode, read_words};
use std::alloc::Global;
use std::sync::Wait;
use std::thread::Threads;

/// Runs the program on its words, of which the first is its name. For `replay` it reads the lines
/// of the source to its end, and writes what they print to the sink; for `changes` and `health` it
/// does so too, and adds what each sync changed or what health ports answer; for `track` it does so
/// on a node that keeps connections, for `vmap` by a map of verdicts, and for `paths` it adds what may
/// become of each packet that is explained; for `live` it reads them, runs their streams beside each
/// other, and writes the text of that run; for `gen` it writes the one line of a generated script;
/// where the words don't fit, it writes the usage line. It reads no source for `gen` and for words that
/// don't fit, and hands on what is known before it asks for more. Without memory for such words it
/// writes nothing. For `live` alone it waits by its runtime; for `live`, and for `replay` with more
/// than one worker, it starts threads by it, and calls of streams and workers pass the gate.
pub fn run<S: Source, K: Sink, R: Threads + Wait + Sync, G: Gate<R> + Sync>(
    rt: &R,
    alloc: Global,
    words: &[String],
    source: &mut S,
    sink: &mut K,
    gate: &G,
) -> Status
    ensures ends { outcome.Runs (mode_of (map string_bytes words.now)) result
        (S.input source.old) (K.output sink.old)
        (S.input source.new) (K.output sink.new) }
    ensures unread { outcome.reads_source (mode_of (map string_bytes words.now)) ≡ false
        → source.new ≡ source.old }
{
    match try_alone(alloc, words, source, sink) {
        Alone::Ran(status) => status,
        Alone::Live => run_live(rt, alloc, source, sink, gate),
        Alone::Replay { workers } => replay_many(rt, alloc, workers, source, sink, gate),
    }
}

/// Runs the program on its words as `run` does, where these ask for a run by one thread, and else
/// does nothing. It waits for nobody.
pub fn run_alone<S: Source, K: Sink>(
    alloc: Global,
    words: &[String],
    source: &mut S,
    sink: &mut K,
) -> Option<Status>
    ensures some { IfSome result (λ status.
        outcome.Runs (mode_of (map string_bytes words.now)) status
        (S.input source.old) (K.output sink.old)
        (S.input source.new) (K.output sink.new)) }
    ensures none { result ≡ None
        → (outcome.needs_threads (mode_of (map string_bytes words.now)) ≡ true)
        × (source.new ≡ source.old) × (sink.new ≡ sink.old) }
    ensures asks { outcome.needs_threads (mode_of (map string_bytes words.now)) ≡ false
        → IsSome result }
    ensures threads { outcome.needs_threads (mode_of (map string_bytes words.now)) ≡ true
        → IfSome result (λ status. outcome.IsUnbegun status
        (S.input source.old) (K.output sink.old)
        (S.input source.new) (K.output sink.new)) }
    ensures unread { outcome.reads_source (mode_of (map string_bytes words.now)) ≡ false
        → source.new ≡ source.old }
{
    match try_alone(alloc, words, source, sink) {
        Alone::Ran(status) => Some(status),
        Alone::Live | Alone::Replay { workers: _ } => None,
    }
}

/// What a run by one thread comes to.
enum Alone {
    /// The run ended so, or found no memory for its words.
    Ran(Status),
    /// The words ask for `live`, of which nothing is done.
    Live,
    /// The words ask for `replay` with so many workers, which are more than one. Nothing is done.
    Replay { workers: u64 },
}

/// Runs the program on its words, where these ask for a run by one thread, and else answers what
/// they ask for.
fn try_alone<S: Source, K: Sink>(
    alloc: Global,
    words: &[String],
    source: &mut S,
    sink: &mut K,
) -> Alone
    ensures ran { IfSome (alone.status_of result) (λ status.
        outcome.Runs (mode_of (map string_bytes words.now)) status
        (S.input source.old) (K.output sink.old)
        (S.input source.new) (K.output sink.new)) }
    ensures left { IfSome (alone.left_by result) (λ asked.
        (mode_of (map string_bytes words.now) ≡ Some asked)
        × (outcome.needs_threads (Some asked) ≡ true)
        × (source.new ≡ source.old) × (sink.new ≡ sink.old)) }
    ensures threads { outcome.needs_threads (mode_of (map string_bytes words.now)) ≡ true
        → IfSome (alone.status_of result) (λ status. outcome.IsUnbegun status
        (S.input source.old) (K.output sink.old)
        (S.input source.new) (K.output sink.new)) }
    ensures unread { outcome.reads_source (mode_of (map string_bytes words.now)) ≡ false
        → source.new ≡ source.old }
{
    match read_words(alloc, words) {
        Ok(Some(Mode::Live)) => Alone::Live,
        Ok(Some(Mode::Replay { workers })) if workers > 1 => Alone::Replay { workers },
        Ok(Some(Mode::Replay { workers: _ })) => Alone::Ran(replay_one(alloc, source, sink)),
        Ok(
            Some(
                Mode::Gen {
                    seed,
                    services,
                    pods,
                },
            ),
        ) => Alone::Ran(generate(
            alloc,
            ScriptPlan {
                seed,
                services,
                pods,
            },
            sink,
        )),
        Ok(Some(Mode::Changes)) => Alone::Ran(replay_in(alloc, &mut Changing, source, sink)),
        Ok(Some(Mode::Health)) => {
            Alone::Ran(replay_in(alloc, &mut Healthy::new(alloc), source, sink))
        }
        Ok(Some(Mode::Track)) => Alone::Ran(track(alloc, source, sink)),
        Ok(Some(Mode::Vmap)) => Alone::Ran(map(alloc, source, sink)),
        Ok(Some(Mode::Paths)) => Alone::Ran(replay_in(alloc, &mut Pathing, source, sink)),
        Ok(None) => Alone::Ran(usage(sink)),
        Err(refused) => Alone::Ran(Status::NoMemory(refused)),
    }
}

/// Replays the lines of a source on a node that keeps connections, for which it takes the room.
fn track<S: Source, K: Sink>(alloc: Global, source: &mut S, sink: &mut K) -> Status
    ensures { outcome.EndsIn tracking result (S.input source.old) (K.output sink.old)
        (S.input source.new) (K.output sink.new) }
{
    match Tracking::new(alloc) {
        Ok(mut mode) => replay_in(alloc, &mut mode, source, sink),
        Err(refused) => ended(sink, false, Err(Stop::NoMemory(refused))),
    }
}

/// Replays the lines of a source by a map of verdicts, which begins as that of no objects.
fn map<S: Source, K: Sink>(alloc: Global, source: &mut S, sink: &mut K) -> Status
    ensures { outcome.EndsIn mapping result (S.input source.old) (K.output sink.old)
        (S.input source.new) (K.output sink.new) }
{
    match Mapping::new(alloc) {
        Ok(mut mode) => replay_in(alloc, &mut mode, source, sink),
        Err(refused) => ended(sink, false, Err(Stop::NoMemory(refused))),
    }
}
