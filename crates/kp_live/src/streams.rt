//! All streams at once.
ghost use Rattle.std.specs.Prelude.{◌≡◌, ◌++◌, ◌∷◌, [], ℕ, None, map};
ghost use Rattle.std.specs.Prelude.{replicate, length, All, slice_get};
ghost use Rattle.std.specs.Prelude.{IfOk, IfSome, OnOk};
ghost use Rattle.std.specs.List.{AllByRecursion, filter};
ghost use Rattle.kp_hub.specs.Known.{new_worker};
ghost use Rattle.kp_run_defs.specs.LiveLines.{is_line_of};
ghost use Rattle.kp_live.specs.Streams.{IsAtStart, RunsOn, StandsBehind};

use crate::answers::Answers;
use crate::stream::{Standing, Stream};
use kp_base::{Config, Items, NoMemory};
use kp_feed::FeedPass;
use kp_gate::Gate;
use kp_hub::{Hub, Sharing, WorkerPass};
use kp_streams::StreamLine;
use std::alloc::Global;
use std::sync::Wait;
use std::sync::ledger::Ledger;
use std::thread;
use std::thread::Threads;

/// A stream without lines for each feeder, numbered from 0, which has one of the workers.
pub(crate) fn streams_of<'a, J: Sharing, A: Ledger, C: Ledger>(
    alloc: Global,
    config: &Config,
    feeders: Items<FeedPass>,
    workers: Items<WorkerPass<J, A, C>>,
) -> Result<Vec<Stream<'a, J, A, C>>, NoMemory>
    requires workers { workers ≡ replicate (length feeders) new_worker }
    ensures feeders { IfOk result (λ streams. map (λ s. s.standing.feeder) streams.items
        ≡ feeders) }
    ensures new { IfOk result (λ streams. AllByRecursion (λ s. IsAtStart config.now
        s.standing) streams.items) }
    ensures lines { IfOk result (λ streams. AllByRecursion (λ s. s.lines.items ≡ [])
        streams.items) }
{
    let mut workers = workers.into_vec();
    let mut streams = Vec::new(alloc);
    for feeder in feeders.into_vec() {
        let Some(worker) = workers.pop() else {
            unreachable!()
        };
        streams.push(stream_of(alloc, config, streams.len(), feeder, worker)?)?;
    }
    Ok(streams)
}

/// The stream at this place, without lines.
fn stream_of<'a, J: Sharing, A: Ledger, C: Ledger>(
    alloc: Global,
    config: &Config,
    place: usize,
    feeder: FeedPass,
    worker: WorkerPass<J, A, C>,
) -> Result<Stream<'a, J, A, C>, NoMemory>
    requires { worker ≡ new_worker }
    ensures feeder { IfOk result (λ s. s.standing.feeder ≡ feeder) }
    ensures new { IfOk result (λ s. IsAtStart config.now s.standing) }
    ensures lines { IfOk result (λ s. s.lines.items ≡ []) }
{
    let Ok(place) = u32::try_from(place) else {
        // There are 64 streams at most. No clause of the feeders says so.
        return Err(NoMemory::beyond_counts());
    };
    Ok(Stream {
        lines: Vec::new(alloc),
        standing: Standing::new(alloc, config, place, feeder, worker)?,
        refused: None,
    })
}

/// Gives each stream its lines, in order.
pub(crate) fn cut_lines<'a, J: Sharing, A: Ledger, C: Ledger>(
    lines: &'a [StreamLine],
    streams: &mut [Stream<'a, J, A, C>],
) -> Result<(), NoMemory>
    requires { AllByRecursion (λ s. s.lines.items ≡ []) streams.old }
    ensures standing { map (λ s. s.standing) streams.new ≡ map (λ s. s.standing) streams.old }
    ensures lines { OnOk result ((i : ℕ) → IfSome (slice_get streams.new i)
        (λ s. map (λ l. l.now) s.lines.items ≡ filter (is_line_of i) lines.now)) }
{
    for line in lines {
        let place = line.stream as usize;
        if place >= streams.len() {
            continue;
        }
        streams[place].add(line)?;
    }
    Ok(())
}

/// Runs all streams beside each other, each in a thread of its own.
pub(crate) fn run_all<
    J: Sharing + Send + Sync,
    A: Ledger + Send + Sync,
    C: Ledger + Send + Sync,
    R: Threads + Wait + Sync,
    G: Gate<R> + Sync,
>(rt: &R, alloc: Global, hub: &Hub<J, A, C>, gate: &G, streams: &mut [Stream<'_, J, A, C>])
    requires queue { All (λ s. s.standing.feeder.queue ≡ J.queue) streams.old }
    ensures { (i : ℕ) → IfSome (slice_get streams.old i) (λ s. IfSome (slice_get streams.new i)
        (λ t. t.refused ≡ None → RunsOn J.start J.config (map (λ l. l.now) s.lines.items)
        s.standing t.standing)) }
{
    let count = streams.len();
    if count == 0 {
        return;
    }
    thread::for_each_mut(
        rt,
        streams,
        count,
        &|_place: usize, stream: &mut Stream<'_, J, A, C>| stream.run(rt, alloc, hub, gate),
    );
}

/// What is left of streams that have ended.
#[derive(Drop)]
pub(crate) struct Ended<J: Sharing, A: Ledger, C: Ledger> {
    pub(crate) feeders: Items<FeedPass>,
    pub(crate) workers: Vec<WorkerPass<J, A, C>>,
    pub(crate) answers: Vec<Answers>,
}

/// Takes streams apart that have ended, unless memory ran out for one of them.
pub(crate) fn take_apart<J: Sharing, A: Ledger, C: Ledger>(
    alloc: Global,
    streams: Vec<Stream<'_, J, A, C>>,
) -> Result<Ended<J, A, C>, NoMemory>
    ensures feeders { IfOk result
        (λ e. e.feeders ≡ map (λ s. s.standing.feeder) streams.entry.items) }
    ensures workers { IfOk result
        (λ e. e.workers.items ≡ map (λ s. s.standing.worker) streams.entry.items) }
    ensures answers { IfOk result
        (λ e. e.answers.items ≡ map (λ s. s.standing.answers) streams.entry.items) }
    ensures whole { OnOk result (AllByRecursion (λ s. s.refused ≡ None) streams.entry.items) }
{
    let mut ended = Ended {
        feeders: Items::new(alloc),
        workers: Vec::new(alloc),
        answers: Vec::new(alloc),
    };
    for stream in streams {
        add_parts(&mut ended, stream)?;
    }
    Ok(ended)
}

/// Adds the parts of a stream, unless memory ran out for it.
fn add_parts<J: Sharing, A: Ledger, C: Ledger>(
    ended: &mut Ended<J, A, C>,
    stream: Stream<'_, J, A, C>,
) -> Result<(), NoMemory>
    ensures feeders { OnOk result (ended.new.feeders
        ≡ ended.old.feeders ++ stream.entry.standing.feeder ∷ []) }
    ensures workers { OnOk result (ended.new.workers.items
        ≡ ended.old.workers.items ++ stream.entry.standing.worker ∷ []) }
    ensures answers { OnOk result (ended.new.answers.items
        ≡ ended.old.answers.items ++ stream.entry.standing.answers ∷ []) }
    ensures whole { OnOk result (stream.entry.refused ≡ None) }
{
    match stream.refused {
        Some(refused) => return Err(refused),
        None => {}
    }
    let (feeder, worker, told) = stream.standing.into_parts();
    match ended.feeders.push(feeder) {
        Ok(()) => {}
        Err((refused, _)) => return Err(refused),
    }
    ended.workers.push(worker)?;
    ended.answers.push(told)?;
    Ok(())
}
