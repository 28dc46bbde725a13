//! A publisher and its readers.
ghost use Rattle.std.specs.Prelude.{◌≡◌, ◌<◌, ◌^◌, [], replicate, IfOk};
ghost use Rattle.kp_publish.specs.Entries.{IsReady};
ghost use Rattle.kp_publish.specs.Knows.{nothing_of};

use crate::copies::Copies;
use crate::front::Front;
use crate::history::{Opened, Publication};
use crate::publisher::Publisher;
use crate::reader::Reader;
use crate::shown::{Addition, Shown};
use crossbeam_utils::rule::Unruled;
use kp_base::{Copied, Items, NoMemory};
use kp_rules::Table;
use left_right::writer::Writer;
use std::alloc::Global;
use std::sync::Wait;

/// A publisher of tables from this one on, and so many readers of its copies, which have seen
/// nothing. A reader that isn't given counts as want of memory.
#[tactic(auto, using(crate::proofs::Tables::stands_first))]
pub fn publication<J: Publication, R: Wait>(
    rt: &R,
    alloc: Global,
    opened: Opened,
    start: &Table,
    readers: u32,
) -> Result<(Publisher<J>, Items<Reader<J>>), NoMemory>
    requires book { opened ≡ J.book }
    requires start { start.now ≡ J.start }
    requires count { start.now.syncs ≡ 0 }
    requires ready { IsReady start.now }
    requires readers { 0 < readers }
    ensures published { IfOk result (λ r. r.0.published ≡ []) }
    ensures newest { IfOk result (λ r. r.0.newest ≡ []) }
    ensures readers { IfOk result (λ r. r.1 ≡ replicate readers (nothing_of r.0.pair)) }
{
    let (head, front) = opened.named::<J>();
    let first = Shown::new(start.copy(alloc)?, front.again());
    let second = Shown::new(start.copy(alloc)?, front.again());
    let writer = Writer::new(alloc, first, second, readers as usize)?;
    match readers_of(alloc, &writer, readers, &front) {
        Ok(made) => Ok((Publisher::new(Copies::new(head, writer, front)), made)),
        Err(refused) => {
            writer.take(rt);
            Err(refused)
        }
    }
}

/// So many readers of the copies of a writer, which have seen nothing.
#[tactic(auto, using(crate::proofs::Readers::replicate_snoc))]
fn readers_of<J: Publication>(
    alloc: Global,
    writer: &Writer<Shown<J>, Addition<J>, (), Unruled>,
    readers: u32,
    front: &Front<J>,
) -> Result<Items<Reader<J>>, NoMemory>
    requires { front.now ≡ [] }
    ensures { IfOk result
        (λ made. made ≡ replicate readers (nothing_of writer.now.desk.place.table_id)) }
{
    let mut made = Items::new(alloc);
    for turn in 0..readers {
        let reader = Reader::new(writer.factory().reader()?, front.again());
        match made.push(reader) {
            Ok(()) => {}
            Err((refused, _)) => return Err(refused),
        }
    }
    Ok(made)
}
