//! The lists by which rows are found.
ghost use Rattle.std.specs.Prelude.{◌<◌, IfOk, IfSome};
ghost use Rattle.kp_links.specs.Lists.{list_count};
ghost use Rattle.kp_conntrack.specs.Laid.{AreAllSized, HasNone, IsPlaced, IsPut, IsRemoved};

use crate::buckets::{BUCKETS, ROWS, age_of, connection_bucket, endpoint_place, reply_place};
use kp_base::NoMemory;
use kp_links::Links;
use kp_track_defs::Entry;
use std::alloc::Global;

/// Rows by the timeout of their entry, by its connection, by that of its replies, and those of UDP by
/// their endpoint.
#[derive(Drop)]
pub(crate) struct Index {
    pub(crate) ages: Links,
    pub(crate) connections: Links,
    pub(crate) replies: Links,
    pub(crate) endpoints: Links,
}

/// Puts a row at the end of the list of its place, where it has one.
fn put(links: &mut Links, place: Option<u32>, row: u32)
    requires list_in { IfSome place (λ list. list < list_count links.old) }
    requires row_in { row < links.old.rows }
    ensures { IsPut links.old links.new place row }
{
    if let Some(list) = place {
        links.move_back(list, row);
    }
}

impl Index {
    /// None of the rows.
    pub(crate) fn new(alloc: Global) -> Result<Index, NoMemory>
        ensures { IfOk result HasNone }
    {
        Ok(Index {
            ages: Links::new(alloc, 2, ROWS)?,
            connections: Links::new(alloc, BUCKETS, ROWS)?,
            replies: Links::new(alloc, BUCKETS, ROWS)?,
            endpoints: Links::new(alloc, BUCKETS, ROWS)?,
        })
    }

    /// Puts a row into the lists of an entry.
    pub(crate) fn place(&mut self, row: u32, entry: &Entry)
        requires sized { AreAllSized self.old }
        requires row_in { row < 65536 }
        ensures { IsPlaced self.old self.new entry.now row }
    {
        self.ages.move_back(age_of(entry.connection.proto), row);
        let bucket = connection_bucket(&entry.connection);
        put(&mut self.connections, Some(bucket), row);
        put(&mut self.replies, reply_place(entry), row);
        put(&mut self.endpoints, endpoint_place(entry), row);
    }

    /// Takes a row out of all lists.
    pub(crate) fn remove(&mut self, row: u32)
        requires sized { AreAllSized self.old }
        requires row_in { row < 65536 }
        ensures { IsRemoved self.old self.new row }
    {
        self.ages.unlink(row);
        self.connections.unlink(row);
        self.replies.unlink(row);
        self.endpoints.unlink(row);
    }
}
