//! Four feeders and one taker, each in a thread of its own.
ghost use Rattle.std.specs.Prelude.{◌≡◌, IfSome};
ghost use Rattle.std.specs.List.{AllByRecursion};
ghost use Rattle.std.specs.Vec.Iter.{into_iter_items};
ghost use Rattle.kp_feed.specs.Calls.{IsNew};

use kp_base::{Items, NoMemory, ObjectKey, Text};
use kp_feed::{Fed, Feed, FeedPass, TakePass, feed_queue};
use kp_types::{Event, Kind};
use std::alloc::Global;
use std::sync::Wait;
use std::sync::atomic::{AtomicU32, Ordering};
use std::test::Fail;
use std::thread;
use std::thread::Threads;
use std::vec::IntoIter;

const EACH: u64 = 250_000;

/// The kind that tells an event's number among four.
fn kind_of(number: u64) -> Kind {
    match number % 4 {
        0 => Kind::Service,
        1 => Kind::EndpointSlice,
        2 => Kind::Pod,
        _ => Kind::Node,
    }
}

/// A small event of this number.
fn numbered(alloc: Global, number: u64) -> Result<Event, NoMemory> {
    let key = ObjectKey {
        namespace: Text::of(alloc, "")?,
        name: Text::of(alloc, "")?,
    };
    Ok(Event::Delete {
        kind: kind_of(number),
        key,
    })
}

/// Whether an event is the one after so many of its feeder.
fn is_after(fed: &Fed, last: u64) -> bool {
    let Event::Delete { kind, .. } = &fed.event else {
        return false;
    };
    last.checked_add(1) == Some(fed.number) && *kind == kind_of(fed.number)
}

/// The next of the passes that are left.
fn next_of(feed: &Feed, passes: &mut IntoIter<FeedPass>) -> Option<FeedPass>
    requires { AllByRecursion (IsNew feed.now) (into_iter_items passes.old) }
    ensures next { IfSome result (λ p. IsNew feed.now p) }
    ensures left { IfSome result
        (λ p. AllByRecursion (IsNew feed.now) (into_iter_items passes.new)) }
{
    passes.next()
}

/// Feeds until memory is out or all are fed, and then counts itself as done.
fn feed_all<R: Wait>(rt: &R, alloc: Global, feed: &Feed, pass: FeedPass, done: &AtomicU32)
    requires { IsNew feed.now pass }
{
    let mut pass = pass;
    for turn in 0..EACH {
        if let Ok(event) = numbered(alloc, turn + 1) {
            let _fed = feed.feed(rt, &mut pass, event).is_ok();
        }
    }
    done.fetch_add(1, Ordering::SeqCst);
}

/// Two feeders, side by side.
fn feed_two<R: Threads + Wait + Sync>(
    rt: &R,
    alloc: Global,
    feed: &Feed,
    first: FeedPass,
    second: FeedPass,
    done: &AtomicU32,
)
    requires first { IsNew feed.now first }
    requires second { IsNew feed.now second }
{
    thread::join(
        rt,
        move ||
            requires { IsNew feed.now first }
        { feed_all(rt, alloc, feed, first, done) },
        move ||
            requires { IsNew feed.now second }
        { feed_all(rt, alloc, feed, second, done) },
    );
}

/// The number of the last event of each feeder, once all four are done and the queue is empty.
/// None where an event isn't the next of its feeder.
fn take_all<R: Wait>(
    rt: &R,
    feed: &Feed,
    taker: TakePass,
    done: &AtomicU32,
) -> (TakePass, Option<[u64; 4]>)
    requires { taker.queue ≡ feed.now }
    ensures { result.0.queue ≡ feed.now }
{
    let mut taker = taker;
    let mut last = [0u64; 4];
    for _ in rt.forever() {
        let all_done = done.load(Ordering::SeqCst) == 4;
        match feed.take(rt, &mut taker) {
            Some(fed) => {
                let place = fed.feeder as usize;
                if place >= 4 || !is_after(&fed, last[place]) {
                    return (taker, None);
                }
                last[place] = fed.number;
            }
            None if all_done => return (taker, Some(last)),
            None => thread::yield_now(),
        }
    }
    unreachable!()
}

/// The first four of the passes.
fn four_of(
    feed: &Feed,
    passes: Items<FeedPass>,
) -> Option<((FeedPass, FeedPass), (FeedPass, FeedPass))>
    requires { AllByRecursion (IsNew feed.now) passes }
    ensures first { IfSome result (λ r. IsNew feed.now r.0.0 × IsNew feed.now r.0.1) }
    ensures second { IfSome result (λ r. IsNew feed.now r.1.0 × IsNew feed.now r.1.1) }
{
    let mut passes = passes.into_vec().into_iter();
    let a = next_of(feed, &mut passes)?;
    let b = next_of(feed, &mut passes)?;
    let c = next_of(feed, &mut passes)?;
    let d = next_of(feed, &mut passes)?;
    Some(((a, b), (c, d)))
}

#[test]
fn each_feeders_order_is_kept(rt: HostRuntime) -> Result<(), Fail> {
    let alloc = rt.alloc();
    let (queue, passes, taker) = feed_queue(alloc, 4)?;
    let Some(((a, b), (c, d))) = four_of(&queue, passes) else {
        queue.finish(&rt, Items::new(alloc), taker);
        return Err(Fail::from("four passes"));
    };
    let count = AtomicU32::new(0);
    let (rt, feed, done) = (&rt, &queue, &count);
    let (_, (_, (taker, last))) = thread::join(
        rt,
        move ||
            requires { IsNew feed.now a × IsNew feed.now b }
        { feed_two(rt, alloc, feed, a, b, done) },
        move ||
            requires { IsNew feed.now c × IsNew feed.now d × (taker.queue ≡ feed.now) }
            ensures { result.1.0.queue ≡ feed.entry.now }
        {
            thread::join(
                rt,
                move ||
                    requires { IsNew feed.now c × IsNew feed.now d }
                { feed_two(rt, alloc, feed, c, d, done) },
                move ||
                    requires { taker.queue ≡ feed.now }
                    ensures { result.0.queue ≡ feed.entry.now }
                { take_all(rt, feed, taker, done) },
            )
        },
    );
    let left = queue.finish(rt, Items::new(alloc), taker);
    assert!(rt; last == Some([EACH, EACH, EACH, EACH]));
    assert!(rt; left == 0);
    Ok(())
}
