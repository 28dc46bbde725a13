//! Live runs whose calls are held by a gate, so that what is written is told beforehand.
use crate::ends::sure_run;
use crate::gates::{TURNS, gate_of};
use crate::lines::whole_script;
use kp_gate::{Gate, Hold, HoldGate, Until};
use kp_run::Status;
use std::alloc::Global;
use std::process::Abort;
use std::sync::Wait;
use std::sync::atomic::{AtomicU32, Ordering};
use std::test::Fail;
use std::thread::Threads;

/// A gate that holds chosen calls, and counts what passes it: each call of a stream or a worker
/// passes as it arrives and as it leaves.
#[derive(Drop)]
pub(crate) struct CountingGate {
    holds: HoldGate,
    /// The passages of the first stream, those of the second, and those of both out of turn.
    first: AtomicU32,
    second: AtomicU32,
    strayed: AtomicU32,
}

impl CountingGate {
    /// Counts a passage, which should be its stream's one of this number, from 0.
    fn pass(&self, stream: u32, number: u64) {
        let passed = match stream {
            0 => &self.first,
            _ => &self.second,
        };
        if u64::from(passed.fetch_add(1, Ordering::SeqCst)) != number {
            self.strayed.fetch_add(1, Ordering::SeqCst);
        }
    }

    /// Whether so many calls of each have passed twice, in turn, and no hold ended by its turns.
    pub(crate) fn has_passed(&self, calls: (u32, u32)) -> bool {
        self.first.load(Ordering::SeqCst) == calls.0.wrapping_mul(2)
            && self.second.load(Ordering::SeqCst) == calls.1.wrapping_mul(2)
            && self.strayed.load(Ordering::SeqCst) == 0
            && !self.holds.ran_out()
    }
}

impl<R> Gate<R> for CountingGate {
    fn arrive(&self, rt: &R, worker: u32, call: u64) {
        self.pass(worker, call.wrapping_mul(2).wrapping_sub(2));
        self.holds.arrive(rt, worker, call);
    }

    fn leave(&self, rt: &R, worker: u32, call: u64) {
        self.pass(worker, call.wrapping_mul(2).wrapping_sub(1));
        self.holds.leave(rt, worker, call);
    }
}

/// The hold that a word tells. `b1-a3` holds the first call of stream `b` until the third one of
/// `a` has left, and `b1+a3` until it has arrived.
fn hold_of(word: &str) -> Result<Hold, Fail> {
    let [worker, call, until, other_worker, other_call] = word.as_bytes() else {
        return Err(Fail::from("a hold"));
    };
    Ok(Hold {
        worker: u32::from(worker.wrapping_sub(b'a')),
        call: u64::from(call.wrapping_sub(b'0')),
        until: match until {
            b'-' => Until::Left,
            _ => Until::Arrived,
        },
        other_worker: u32::from(other_worker.wrapping_sub(b'a')),
        other_call: u64::from(other_call.wrapping_sub(b'0')),
    })
}

/// The gate with the holds that these words tell.
pub(crate) fn counting_gate(alloc: Global, words: &str) -> Result<CountingGate, Fail> {
    let mut holds = Vec::new(alloc);
    for word in words.split_whitespace() {
        holds.push(hold_of(word)?)?;
    }
    Ok(CountingGate {
        holds: gate_of(alloc, holds.as_slice(), TURNS)?,
        first: AtomicU32::new(0),
        second: AtomicU32::new(0),
        strayed: AtomicU32::new(0),
    })
}

/// A live run of a script, with these holds, writes this text before its tables. So many calls of
/// its first stream and of its second one pass the gate twice, and no hold runs out of turns.
fn check_run<R: Abort + Threads + Wait + Sync + AllocGlobal>(
    rt: &R,
    holds: &str,
    calls: (u32, u32),
    script: &str,
    text: &str,
) -> Result<(), Fail> {
    let script = whole_script(rt.alloc(), script)?;
    let gate = counting_gate(rt.alloc(), holds)?;
    let ended = sure_run(rt, "kproxy live", &script, 4096, &gate)?;
    let written = str::from_utf8(&ended.written).ok().ok_or("a text")?;
    let (told, _) = written.split_once("*nat\n").ok_or("tables")?;
    assert_eq!(rt; told, text);
    assert!(rt; ended.status == Status::Done, "{text}");
    assert!(rt; gate.has_passed(calls), "{text}");
    Ok(())
}

/// Stream `a` feeds a Service and its slice and syncs, and stream `b` sends two packets.
const SYNC_AND_PACKETS: &str = r#"{"op":"config",@node}
{@service,"by":"a"}
{@slice,"endpoints":[{@one}],"by":"a"}
{"op":"sync","by":"a"}
{@packet:80,"by":"b"}
{@packet:80,"by":"b"}"#;

/// What is written where both packets are sent after the sync.
const SEEN: &str = "event 1: a 1 apply Service default/web
event 2: a 2 apply EndpointSlice default/web-x
record 1: events 2, written 3, removed 0
record 2: events 0, written 0, removed 0
sync 4: record 1
packet 5 at 1: to 10.244.1.2:8080
packet 6 at 1: to 10.244.1.2:8080
final: record 2
";

/// What is written where both packets are sent before the sync.
const UNSEEN: &str = "event 1: a 1 apply Service default/web
event 2: a 2 apply EndpointSlice default/web-x
record 1: events 2, written 3, removed 0
record 2: events 0, written 0, removed 0
sync 4: record 1
packet 5 at 0: left alone
packet 6 at 0: left alone
final: record 2
";

#[test]
fn packets_see_the_syncs_that_have_left(rt: HostRuntime) -> Result<(), Fail> {
    // a stream that never syncs sees a sync of another one
    check_run(&rt, "b1-a3", (3, 2), SYNC_AND_PACKETS, SEEN)?;
    // a stream feeds on once packets of another one are answered
    check_run(&rt, "a2-b2", (3, 2), SYNC_AND_PACKETS, UNSEEN)?;
    // a call that is held as it arrives has done nothing yet
    check_run(&rt, "b1+a3 a3-b2", (3, 2), SYNC_AND_PACKETS, UNSEEN)
}

/// A packet of each of two streams.
const TWO_PACKETS: &str = r#"{"op":"config",@node}
{@packet:80,"by":"a"}
{@packet:80,"by":"b"}"#;

/// What is written of them. The end makes a sync.
const BOTH_LEFT_ALONE: &str = "record 1: events 0, written 0, removed 0
packet 2 at 0: left alone
packet 3 at 0: left alone
final: record 1
";

/// A List of three objects, a sync and a packet of one stream.
const FIVE_CALLS: &str = r#"{"op":"config",@node}
{"apiVersion":"v1","kind":"List","metadata":{"resourceVersion":""},"items":[
 {"apiVersion":"v1","kind":"Node","metadata":{"name":"n1"}},{@service},
 {@slice,"endpoints":[{@one}]}]}
{"op":"sync"}
{@packet:80}"#;

/// What is written of them.
const FIVE_ANSWERS: &str = "event 1: main 1 apply Node n1
event 2: main 2 apply Service default/web
event 3: main 3 apply EndpointSlice default/web-x
record 1: events 3, written 3, removed 0
record 2: events 0, written 0, removed 0
sync 3: record 1
packet 4 at 1: to 10.244.1.2:8080
final: record 2
";

/// Two streams feed versions of one Service, each at a port of its own. Stream `b` syncs, and sends
/// a packet to each port.
const VERSIONS: &str = r#"{"op":"config",@node}
{"apiVersion":"v1","kind":"Service","metadata":{"name":"web"},
 "spec":{"clusterIP":"10.96.0.10","ports":[{"port":81}]},"by":"a"}
{"apiVersion":"v1","kind":"Service","metadata":{"name":"web"},
 "spec":{"clusterIP":"10.96.0.10","ports":[{"port":82}]},"by":"a"}
{"apiVersion":"v1","kind":"Service","metadata":{"name":"web"},
 "spec":{"clusterIP":"10.96.0.10","ports":[{"port":83}]},"by":"b"}
{"op":"sync","by":"b"}
{@packet:81,"by":"b"}
{@packet:82,"by":"b"}
{@packet:83,"by":"b"}"#;

/// What is written where the version of `b` comes between those of `a`. The Service has no
/// endpoints.
const LAST_VERSION: &str = "event 1: a 1 apply Service default/web
event 2: b 1 apply Service default/web
event 3: a 2 apply Service default/web
record 1: events 3, written 1, removed 0
record 2: events 0, written 0, removed 0
sync 5: record 1
packet 6 at 1: left alone
packet 7 at 1: rejected
packet 8 at 1: left alone
final: record 2
";

#[test]
fn streams_run_side_by_side(rt: HostRuntime) -> Result<(), Fail> {
    check_run(&rt, "a1+b1 b1+a1", (1, 1), TWO_PACKETS, BOTH_LEFT_ALONE)?;
    // each event is a call
    check_run(&rt, "", (5, 0), FIVE_CALLS, FIVE_ANSWERS)?;
    // the last version in the journal stands, whichever stream fed it
    let holds = "b1-a1 a2-b1 b2-a2";
    check_run(&rt, holds, (2, 5), VERSIONS, LAST_VERSION)
}
