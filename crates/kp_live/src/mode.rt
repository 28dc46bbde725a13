//! The mode.
ghost use Rattle.std.specs.Prelude.{◌≡◌, ◌≤◌, ◌<◌, ◌⊎◌, ◌++◌, [], ℕ, List, Err, IfOk, IfSome, OnOk};
ghost use Rattle.std.specs.Prelude.{OnErr, length, replicate};
ghost use Rattle.std.specs.Io.KnownBytes.{IsAtEnd};
ghost use Rattle.std.specs.List.{AllByRecursion};
ghost use Rattle.kp_base.specs.declared.memory.NoMemory.{NoMemory};
ghost use Rattle.kp_feed.specs.Calls.{new_feeders};
ghost use Rattle.kp_hub.specs.Finishing.{records_told};
ghost use Rattle.kp_hub.specs.Known.{new_worker};
ghost use Rattle.kp_hub.specs.State.{first_table};
ghost use Rattle.kp_io.specs.Faults.{Rose};
ghost use Rattle.kp_io.specs.Lines.{lines_of};
ghost use Rattle.kp_run_defs.specs.LiveLines.{reading_of, running_streams};
ghost use Rattle.kp_streams.specs.Streams.{reading_in};
ghost use Rattle.kp_streams.specs.WholeInput.{IsTooLong, LosesFront};
ghost use Rattle.kp_live.specs.declared.fault.LiveFault.TheVariants as fault;
ghost use Rattle.kp_live.specs.Runs as runs;
ghost use Rattle.kp_live.specs.Streams.{GoesOnFromAll};
ghost use Rattle.kp_live.specs.Written.{EndsRun, WritesFront, WritesInput};

use crate::fault::LiveFault;
use crate::parts::print;
use crate::streams::{Ended, cut_lines, run_all, streams_of, take_apart};
use kp_base::{Copied, Items, NoMemory, Text};
use kp_feed::FeedPass;
use kp_gate::Gate;
use kp_hub::{Finished, Hub, Opening, Sharing, WorkerPass, laws};
use kp_io::{Sink, Source};
use kp_streams::{StreamLines, read_input};
use std::alloc::Global;
use std::marker::Brand;
use std::sync::Wait;
use std::sync::ledger::Ledger;
use std::thread::Threads;

/// Reads the lines of a source to its end, runs its streams beside each other, each in a thread of
/// its own, and writes the text of the run. Answers whether a line or the sync that ends the run
/// was refused. Each call of the hub passes the gate. Nothing is written before all streams have
/// ended and the hub has.
pub fn live<S: Source, K: Sink, R: Threads + Wait + Sync, G: Gate<R> + Sync>(
    rt: &R,
    alloc: Global,
    source: &mut S,
    sink: &mut K,
    gate: &G,
) -> Result<bool, LiveFault>
    ensures whole { IfOk result (λ refused. IfSome (S.input source.old).left
        (λ text. WritesInput refused text (K.output sink.old) (K.output sink.new))) }
    ensures front { OnErr result (IfSome (S.input source.old).left
        (λ text. WritesFront (reading_of (lines_of text)) (K.output sink.old)
        (K.output sink.new))) }
    ensures ended { OnOk result (IsAtEnd (S.input source.new).left) }
    ensures left { LosesFront (S.input source.old).left (S.input source.new).left }
    ensures read { result ≡ Err fault.ReadFault
        → Rose (S.input source.old).faults (S.input source.new).faults }
    ensures long { result ≡ Err fault.InputTooLong → IsTooLong (S.input source.old).left }
    ensures unwritten { (result ≡ Err fault.ReadFault) ⊎ (result ≡ Err fault.InputTooLong)
        → sink.new ≡ sink.old }
    ensures later { (K.output sink.old).faults ≤ (K.output sink.new).faults }
    ensures failed { result ≡ Err fault.WriteFault
        → Rose (K.output sink.old).faults (K.output sink.new).faults }
    ensures sure { OnOk result ((K.output sink.new).faults ≡ (K.output sink.old).faults) }
    ensures wanted { (refused : NoMemory) → result ≡ Err (fault.NoMemory refused)
        → (K.output sink.new).faults ≡ (K.output sink.old).faults }
    ensures source_sure { OnOk result ((S.input source.new).faults ≡ (S.input source.old).faults) }
    ensures source_kept { OnErr result ((result ≡ Err fault.ReadFault)
        ⊎ ((S.input source.new).faults ≡ (S.input source.old).faults)) }
{
    let lines = read_input(alloc, source)?;
    let opening = opening_of(alloc, &lines)?;
    run_opened::<Brand, Brand, Brand, K, R, G>(rt, alloc, opening, &lines, sink, gate)
}

/// The parts of a hub for the streams of these lines. Where there is none, one stream runs.
fn opening_of(alloc: Global, lines: &StreamLines) -> Result<Opening, NoMemory>
    ensures config { IfOk result (λ o. o.config ≡ (reading_in lines.now).config) }
    ensures streams { IfOk result
        (λ o. o.streams ≡ length (running_streams (reading_in lines.now))) }
{
    let streams = count_of(lines.streams());
    Opening::new(alloc, lines.config().copy(alloc)?, streams)
}

/// How many streams run, by the names of the streams: one where there are none.
fn count_of(names: &[Text]) -> u32
    requires { length names.now ≤ 64 }
    ensures none { length names.now ≡ 0 → result ≡ 1 }
    ensures some { 0 < length names.now → result ≡ length names.now }
{
    let count = names.len();
    if count == 0 { 1 } else { count as u32 }
}

/// Runs the streams of these lines over a hub of these parts, and writes the text of the run.
fn run_opened<
    J: Sharing + Send + Sync,
    A: Ledger + Send + Sync,
    C: Ledger + Send + Sync,
    K: Sink,
    R: Threads + Wait + Sync,
    G: Gate<R> + Sync,
>(
    rt: &R,
    alloc: Global,
    opening: Opening,
    lines: &StreamLines,
    sink: &mut K,
    gate: &G,
) -> Result<bool, LiveFault>
    requires config { opening.config ≡ J.config }
    requires book { opening.book ≡ J.book }
    requires queue { opening.queue ≡ J.queue }
    requires streams { opening.streams ≡ J.streams }
    requires start { J.start ≡ first_table J.config }
    requires accepted { opening.accepted ≡ (A.name, A.parts) }
    requires refused { opening.refused ≡ (C.name, C.parts) }
    requires read_config { opening.config ≡ (reading_in lines.now).config }
    requires read_streams { opening.streams ≡ length (running_streams (reading_in lines.now)) }
    ensures { EndsRun result (reading_in lines.now) (K.output sink.old) (K.output sink.new) }
{
    let (hub, feeders, workers) = match Hub::<J, A, C>::new(rt, alloc, opening) {
        Ok(parts) => parts,
        Err(refused) => return Err(LiveFault::NoMemory(refused)),
    };
    match ended_streams(rt, alloc, &hub, gate, lines, feeders, workers) {
        Ok(ended) => end_and_print(rt, alloc, hub, ended, lines, sink),
        Err(refused) => {
            give_up(rt, alloc, hub);
            Err(LiveFault::NoMemory(refused))
        }
    }
}

/// Makes the streams of these lines, runs them, and takes them apart.
fn ended_streams<
    J: Sharing + Send + Sync,
    A: Ledger + Send + Sync,
    C: Ledger + Send + Sync,
    R: Threads + Wait + Sync,
    G: Gate<R> + Sync,
>(
    rt: &R,
    alloc: Global,
    hub: &Hub<J, A, C>,
    gate: &G,
    lines: &StreamLines,
    feeders: Items<FeedPass>,
    workers: Items<WorkerPass<J, A, C>>,
) -> Result<Ended<J, A, C>, NoMemory>
    requires config { (reading_in lines.now).config ≡ J.config }
    requires feeders { feeders ≡ new_feeders J.queue J.streams }
    requires workers { workers ≡ replicate J.streams new_worker }
    ensures { IfOk result (λ e. runs.HaveEnded J.start (reading_in lines.now) J.queue J.streams
        e.feeders e.workers.items e.answers.items) }
{
    let mut streams = streams_of(alloc, lines.config(), feeders, workers)?;
    cut_lines(lines.lines(), streams.as_mut_slice())?;
    run_all(rt, alloc, hub, gate, streams.as_mut_slice());
    take_apart(alloc, streams)
}

/// Ends the hub, and writes the text of the run.
fn end_and_print<J: Sharing, A: Ledger, C: Ledger, K: Sink, R: Wait>(
    rt: &R,
    alloc: Global,
    hub: Hub<J, A, C>,
    ended: Ended<J, A, C>,
    lines: &StreamLines,
    sink: &mut K,
) -> Result<bool, LiveFault>
    requires config { (reading_in lines.now).config ≡ J.config }
    requires start { J.start ≡ first_table J.config }
    requires streams { J.streams ≡ length (running_streams (reading_in lines.now)) }
    requires ended { runs.HaveEnded J.start (reading_in lines.now) J.queue J.streams
        ended.feeders ended.workers.items ended.answers.items }
    ensures { EndsRun result (reading_in lines.now) (K.output sink.old) (K.output sink.new) }
{
    kp_history_laws::exact_tables();
    kp_walk_laws::product_decides();
    let Ended {
        feeders,
        mut workers,
        answers,
    } = ended;
    let done = match hub.finish(rt, alloc, feeders, workers.as_mut_slice()) {
        Ok(done) => done,
        Err(refused) => return Err(LiveFault::NoMemory(refused)),
    };
    meet(rt, workers.as_mut_slice(), &done);
    let printed = print(alloc, lines, answers.as_slice(), &done, sink);
    done.end(rt);
    printed
}

/// All passes of a hub that ended learn that what they saw begins its records.
fn meet<J: Sharing, A: Ledger, C: Ledger, R: Wait>(
    rt: &R,
    workers: &mut [WorkerPass<J, A, C>],
    done: &Finished<J>,
)
    ensures { AllByRecursion
        (GoesOnFromAll (records_told J.config done.now.journal done.now.notes)) workers.old }
{
    for worker in workers {
        laws::same_hub(rt, worker, done);
    }
}

/// Ends a hub of a run that has no memory.
fn give_up<J: Sharing, A: Ledger, C: Ledger, R: Wait>(rt: &R, alloc: Global, hub: Hub<J, A, C>) {
    let mut none = Vec::new(alloc);
    if let Ok(done) = hub.finish(rt, alloc, Items::new(alloc), none.as_mut_slice()) {
        done.end(rt);
    }
}
