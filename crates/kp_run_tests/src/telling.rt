//! A reader that learns what the publisher tells.
ghost use Rattle.std.specs.Prelude.{◌≡◌};
ghost use Rattle.kp_publish.specs.Entries.{StandsFor};

use crate::pushing::push;
use kp_base::{Copied, Family};
use kp_chains::fixed_chains;
use kp_publish::{Opened, Publication, Publisher, Reader, laws, publication};
use kp_rules::Table;
use kp_walker::can_walk;
use std::alloc::Global;
use std::marker::Brand;
use std::sync::Wait;
use std::test::Fail;

/// How many records a reader sees that learned what is published, and the reader again.
fn count_told<J: Publication, R: Wait>(
    rt: &R,
    publisher: &Publisher<J>,
    reader: Reader<J>,
) -> (Reader<J>, u64) {
    let mut reader = reader;
    reader.learn(publisher.tell());
    let view = reader.enter(rt);
    let count = view.count();
    (view.leave(), count)
}

/// What a reader sees after one record, and once the publisher is closed after two.
fn counts_told<J: Publication, R: Wait>(
    rt: &R,
    alloc: Global,
    publisher: &mut Publisher<J>,
    own: Table,
    reader: Reader<J>,
) -> Result<(u64, u64), Fail>
    requires { StandsFor J.start own publisher.old.newest }
{
    let mut own = own;
    push(rt, alloc, publisher, &mut own)?;
    let (reader, one) = count_told(rt, publisher, reader);
    push(rt, alloc, publisher, &mut own)?;
    laws::close(publisher, rt)?;
    let (_reader, all) = count_told(rt, publisher, reader);
    Ok((one, all))
}

/// The same of a publisher of this table.
fn told<J: Publication, R: Wait>(
    rt: &R,
    alloc: Global,
    opened: Opened,
    start: &Table,
) -> Result<(u64, u64), Fail>
    requires book { opened ≡ J.book }
    requires start { start.now ≡ J.start }
{
    if start.syncs() != 0 || !can_walk(start) {
        return Err(Fail::from("a table without syncs that can be walked"));
    }
    let own = start.copy(alloc)?;
    let (mut publisher, readers) = publication::<J, R>(rt, alloc, opened, start, 1)?;
    let counts = match readers.into_vec().pop() {
        Some(reader) => counts_told(rt, alloc, &mut publisher, own, reader),
        None => Err(Fail::from("a reader")),
    };
    publisher.into_table(rt);
    counts
}

#[test]
fn a_reader_sees_all_that_it_was_told(rt: HostRuntime) -> Result<(), Fail> {
    let start = fixed_chains(rt.alloc(), &[Family::V4])?;
    let counts = told::<Brand, _>(&rt, rt.alloc(), Opened::new(), &start)?;
    assert!(rt; counts == (1, 2));
    Ok(())
}
