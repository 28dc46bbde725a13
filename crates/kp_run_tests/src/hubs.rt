//! A hub with one worker, which feeds, syncs and reads by the lines of a script, and ends.
ghost use Rattle.std.specs.Prelude.{◌≡◌};
ghost use Rattle.std.specs.List.{AllByRecursion};
ghost use Rattle.kp_hub.specs.State.{first_table};

use crate::lines::{Stuck, config_of, read, whole_script};
use kp_base::{Items, NoMemory};
use kp_hub::{FeedPass, Finished, Hub, Opening, Sharing, TableFault, WorkerPass};
use kp_print::{push, push_labelled};
use kp_recent::RecentLists;
use kp_report::push_answer;
use kp_script::{Op, ScriptLine};
use kp_types::Event;
use std::alloc::Global;
use std::marker::Brand;
use std::sync::Wait;
use std::sync::ledger::Ledger;
use std::test::Fail;

/// A sync that is refused, since the chains of two endpoints have one name, one after the second
/// endpoint went, one of no event, and an event that only the end covers.
const SCRIPT: &str = r#"{"op":"config",@node,"nameLength":0}
{@service}
{@slice,"endpoints":[{@one},{"addresses":["10.244.2.3"],"nodeName":"n2"}]}
{"op":"sync"}
{@packet:80}
{@slice,"endpoints":[{@one}]}
{"op":"sync"}
{@packet:80}
{"op":"sync"}
{"type":"DELETED","object":{@slice}}"#;

/// What the lines are answered, and what the hub hands out at its end. The first record writes
/// KUBE-SERVICES, the Service's chain and the endpoint's. The last removes two chains, and takes
/// the Service's rule from KUBE-SERVICES of nat to that of filter.
const TOLD: &str = "fed 1
fed 2
refused
packet 5 at 0: left alone
fed 3
sync 1
packet 8 at 1: to 10.244.1.2:8080
sync 2
fed 4
record: events 3, written 3, removed 0
record: events 0, written 0, removed 0
record: events 1, written 2, removed 2
events 4, syncs 3, refusals 1
";

/// Feeds the events of a line, and tells their numbers.
fn feed_all<J: Sharing, A: Ledger, C: Ledger, R: Wait>(
    rt: &R,
    hub: &Hub<J, A, C>,
    feeder: &mut FeedPass,
    events: Items<Event>,
    text: &mut String,
) -> Result<(), Stuck>
    requires { feeder.old.queue ≡ J.queue }
    ensures { feeder.new.queue ≡ J.queue }
{
    for event in events.into_vec() {
        if feeder.count() == u64::MAX {
            return Err(Stuck);
        }
        let Ok(number) = hub.feed(rt, feeder, event) else {
            return Err(Stuck);
        };
        push_labelled(text, "fed ", number)?;
        push(text, "\n")?;
    }
    Ok(())
}

/// Syncs, and tells the record's number or that the sync was refused.
fn sync<J: Sharing, A: Ledger, C: Ledger, R: Wait>(
    rt: &R,
    alloc: Global,
    hub: &Hub<J, A, C>,
    worker: &mut WorkerPass<J, A, C>,
    text: &mut String,
) -> Result<(), Stuck> {
    match hub.sync(rt, alloc, worker) {
        Ok(number) => push_labelled(text, "sync ", number)?,
        Err(TableFault::ChainClash(_)) => push(text, "refused")?,
        Err(TableFault::NoMemory(_)) => return Err(Stuck),
    }
    Ok(push(text, "\n")?)
}

/// Takes the line of this number, and tells what it is answered.
fn take<J: Sharing, A: Ledger, C: Ledger, R: Wait>(
    rt: &R,
    alloc: Global,
    hub: &Hub<J, A, C>,
    feeder: &mut FeedPass,
    worker: &mut WorkerPass<J, A, C>,
    number: u64,
    line: &str,
    text: &mut String,
) -> Result<(), Stuck>
    requires { feeder.old.queue ≡ J.queue }
    ensures { feeder.new.queue ≡ J.queue }
{
    let Ok(line) = read(alloc, number, line) else {
        return Err(Stuck);
    };
    let ScriptLine { by: _by, op } = line;
    match op {
        Op::Events(events) => feed_all(rt, hub, feeder, events, text),
        Op::Packet(packet) => {
            let mut lists = RecentLists::new(alloc, 100)?;
            let (sync, verdict) = Hub::verdict_of(rt, worker, number, &packet, &mut lists)?;
            Ok(push_answer(text, number, sync, &verdict)?)
        }
        _ => sync(rt, alloc, hub, worker, text),
    }
}

/// Takes all lines after the first.
fn take_all<J: Sharing, A: Ledger, C: Ledger, R: Wait>(
    rt: &R,
    alloc: Global,
    hub: &Hub<J, A, C>,
    feeder: &mut FeedPass,
    worker: &mut WorkerPass<J, A, C>,
    script: &String,
    text: &mut String,
) -> Result<(), Stuck>
    requires { feeder.old.queue ≡ J.queue }
    ensures { feeder.new.queue ≡ J.queue }
{
    let mut number: u64 = 0;
    for line in script.lines() {
        number = number.saturating_add(1);
        if number > 1 {
            take(rt, alloc, hub, feeder, worker, number, line, text)?;
        }
    }
    Ok(())
}

/// Has the first stream take all lines.
fn take_by_first<J: Sharing, A: Ledger, C: Ledger, R: Wait>(
    rt: &R,
    alloc: Global,
    hub: &Hub<J, A, C>,
    feeders: &mut [FeedPass],
    worker: Option<&mut WorkerPass<J, A, C>>,
    script: &String,
    text: &mut String,
) -> Result<(), Stuck>
    requires { AllByRecursion (λ p. p.queue ≡ J.queue) feeders.old }
    ensures { AllByRecursion (λ p. p.queue ≡ J.queue) feeders.new }
{
    let Some(worker) = worker else {
        return Err(Stuck);
    };
    match feeders.first_mut() {
        Some(feeder) => take_all(rt, alloc, hub, feeder, worker, script, text),
        None => Err(Stuck),
    }
}

/// Tells what a hub hands out at its end.
fn push_done<J: Sharing>(text: &mut String, done: &Finished<J>) -> Result<(), NoMemory> {
    for note in done.notes.as_slice() {
        push_labelled(text, "record: events ", note.events)?;
        push_labelled(text, ", written ", note.written)?;
        push_labelled(text, ", removed ", note.removed)?;
        push(text, "\n")?;
    }
    push_labelled(text, "events ", done.journal.as_slice().len() as u64)?;
    push_labelled(text, ", syncs ", done.table.syncs())?;
    push_labelled(text, ", refusals ", done.refusals.as_slice().len() as u64)?;
    push(text, "\n")
}

/// What the lines of a script after the first are answered, and what the hub hands out at its
/// end.
fn told<J: Sharing, A: Ledger, C: Ledger, R: Wait>(
    rt: &R,
    alloc: Global,
    opening: Opening,
    script: &String,
    text: &mut String,
) -> Result<(), Stuck>
    requires config { opening.config ≡ J.config }
    requires book { opening.book ≡ J.book }
    requires queue { opening.queue ≡ J.queue }
    requires streams { opening.streams ≡ J.streams }
    requires start { J.start ≡ first_table J.config }
    requires accepted { opening.accepted ≡ (A.name, A.parts) }
    requires refused { opening.refused ≡ (C.name, C.parts) }
{
    let (hub, feeders, workers) = Hub::<J, A, C>::new(rt, alloc, opening)?;
    let mut feeders = feeders.into_vec();
    let mut workers = workers.into_vec();
    let taken = take_by_first(
        rt,
        alloc,
        &hub,
        feeders.as_mut_slice(),
        workers.first_mut(),
        script,
        text,
    );
    let passes = Items::from_vec(feeders);
    let done = hub.finish(rt, alloc, passes, workers.as_mut_slice())?;
    let told = push_done(text, &done);
    done.end(rt);
    taken?;
    Ok(told?)
}

#[test]
fn a_hub_answers_by_its_syncs(rt: HostRuntime) -> Result<(), Fail> {
    let alloc = rt.alloc();
    let mut text = String::new(alloc);
    let script = whole_script(alloc, SCRIPT)?;
    let (first, _) = script.split_once('\n').ok_or("a line")?;
    let opening = Opening::new(alloc, config_of(alloc, first)?, 1)?;
    told::<Brand, Brand, Brand, _>(&rt, alloc, opening, &script, &mut text)?;
    assert_eq!(rt; text.as_str(), TOLD);
    Ok(())
}
