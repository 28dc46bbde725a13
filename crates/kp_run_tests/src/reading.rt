//! Two readers beside a publisher, each in a thread of its own.
ghost use Rattle.std.specs.Prelude.{◌≡◌};
ghost use Rattle.kp_publish.specs.Entries.{StandsFor};

use crate::pushing::{number_in, push};
use kp_base::{Copied, Family};
use kp_chains::fixed_chains;
use kp_publish::{Opened, Publication, Publisher, Reader, publication};
use kp_rules::Table;
use kp_walker::can_walk;
use std::alloc::Global;
use std::marker::Brand;
use std::sync::Wait;
use std::sync::atomic::{AtomicU32, Ordering};
use std::test::Fail;
use std::thread;
use std::thread::Threads;

const RECORDS: u64 = 10_000;

/// Publishes all records, unless memory is out, and then says that it is done.
fn push_all<J: Publication, R: Wait>(
    rt: &R,
    alloc: Global,
    publisher: &mut Publisher<J>,
    own: Table,
    done: &AtomicU32,
)
    requires { StandsFor J.start own publisher.old.newest }
{
    let mut own = own;
    for turn in 0..RECORDS {
        if push(rt, alloc, publisher, &mut own).is_err() {
            break;
        }
    }
    done.store(1, Ordering::SeqCst);
}

/// How many records the reader saw last, once the publisher is done. None where a count fell, or a
/// table wasn't the one after so many records.
fn read_all<J: Publication, R: Wait>(rt: &R, reader: Reader<J>, done: &AtomicU32) -> Option<u64> {
    let mut reader = reader;
    let mut last = 0;
    for _ in rt.forever() {
        let all_done = done.load(Ordering::SeqCst) == 1;
        let view = reader.enter(rt);
        let count = view.count();
        let fits = count >= last
            && view.table().syncs() == count
            && number_in(view.table()) == count;
        reader = view.leave();
        thread::yield_now();
        if !fits {
            return None;
        }
        if all_done {
            return Some(count);
        }
        last = count;
    }
    unreachable!()
}

/// Whether a reader enters while another is inside, and both see no record yet.
fn enter_both<J: Publication, R: Wait>(
    rt: &R,
    first: Reader<J>,
    second: Reader<J>,
) -> (Reader<J>, Reader<J>, bool) {
    let held = first.enter(rt);
    let view = second.enter(rt);
    let none = held.count() == 0 && view.count() == 0;
    (held.leave(), view.leave(), none)
}

/// What a reader saw last in a thread beside this one, which publishes.
fn read_and_push<J: Publication + Send + Sync, R: Threads + Wait + Sync>(
    rt: &R,
    alloc: Global,
    publisher: &mut Publisher<J>,
    own: Table,
    reader: Reader<J>,
    done: &AtomicU32,
) -> Option<u64>
    requires { StandsFor J.start own publisher.old.newest }
{
    let (seen, _) = thread::join(
        rt,
        move || { read_all(rt, reader, done) },
        move ||
            requires { StandsFor J.start own publisher.now.newest }
        { push_all(rt, alloc, publisher, own, done) },
    );
    seen
}

/// What two readers saw last, each in a thread beside this one, which publishes.
fn read_beside<J: Publication + Send + Sync, R: Threads + Wait + Sync>(
    rt: &R,
    alloc: Global,
    publisher: &mut Publisher<J>,
    own: Table,
    first: Reader<J>,
    second: Reader<J>,
    done: &AtomicU32,
) -> (Option<u64>, Option<u64>)
    requires { StandsFor J.start own publisher.old.newest }
{
    thread::join(
        rt,
        move || { read_all(rt, first, done) },
        move ||
            requires { StandsFor J.start own publisher.now.newest }
        { read_and_push(rt, alloc, publisher, own, second, done) },
    )
}

/// Whether two readers of this table were inside at once, what they saw last, and the number in the
/// last table.
fn last_seen<J: Publication + Send + Sync, R: Threads + Wait + Sync>(
    rt: &R,
    alloc: Global,
    opened: Opened,
    start: &Table,
) -> Result<(bool, Option<u64>, Option<u64>, u64), Fail>
    requires book { opened ≡ J.book }
    requires start { start.now ≡ J.start }
{
    if start.syncs() != 0 || !can_walk(start) {
        return Err(Fail::from("a table without syncs that can be walked"));
    }
    let own = start.copy(alloc)?;
    let (mut publisher, readers) = publication::<J, R>(rt, alloc, opened, start, 2)?;
    let mut readers = readers.into_vec().into_iter();
    let (Some(first), Some(second)) = (readers.next(), readers.next()) else {
        publisher.into_table(rt);
        return Err(Fail::from("two readers"));
    };
    let (first, second, both) = enter_both(rt, first, second);
    let done = AtomicU32::new(0);
    let (one, two) = read_beside(rt, alloc, &mut publisher, own, first, second, &done);
    Ok((both, one, two, number_in(&publisher.into_table(rt))))
}

#[test]
fn counts_never_fall(rt: HostRuntime) -> Result<(), Fail> {
    let start = fixed_chains(rt.alloc(), &[Family::V4])?;
    let seen = last_seen::<Brand, _>(&rt, rt.alloc(), Opened::new(), &start)?;
    assert!(rt; seen == (true, Some(RECORDS), Some(RECORDS), RECORDS));
    Ok(())
}
