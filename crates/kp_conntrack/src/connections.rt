//! The open connections of a node.
ghost use Rattle.std.specs.Prelude.{◌≡◌, ◌≤◌, ◌<◌, max, nat_lt, length, option_map, IfOk};
ghost use Rattle.std.specs.List.{find};
ghost use Rattle.kp_track_defs.specs.Entries.{has_connection, is_replied_by};
ghost use Rattle.kp_track_defs.specs.Kept.{keeps, kept_after_opened, kept_after_owned, kept_after_sync};
ghost use Rattle.kp_track_defs.specs.Kept.{kept_owned, nothing_kept};
ghost use Rattle.kp_track_defs.specs.Tracking.{most_openers};
ghost use Rattle.kp_track_defs.specs.Kept.{without_endpoint};
ghost use Rattle.kp_conntrack.specs.Buckets as spec;
ghost use Rattle.kp_conntrack.specs.Standing.{table_stands};
ghost use Rattle.kp_conntrack.specs.Laid.{as_door, as_later, kept_at, with_entry, with_found};

use crate::buckets::{ROWS, connection_bucket, connection_of};
use crate::index::Index;
use crate::marks::Marks;
use crate::rows::{FREE, KEPT, blank_rows, drop_all, drop_dead, drop_sent_to, free_order, renew};
use crate::sought::{OfConnection, OfReply};
use crate::standing::{drop_unmarked, mark_standing};
use kp_base::{Endpoint, NoMemory};
use kp_links::Links;
use kp_rules::Table;
use kp_track_defs::{Connection, Entry, Flow, Owned};
use kp_types::Verdict;
use std::alloc::Global;
use std::marker::Model;

/// The connections that are open on a node: at most 65,536. Only `new` takes memory.
#[derive(Drop)]
pub struct Connections {
    // The entry of each row. What stands in a free row doesn't count.
    rows: Vec<Entry>,
    // The rows that have an entry, in the order in which they opened, and the free ones.
    order: Links,
    index: Index,
    // Which rows have an endpoint that stands. What stands here counts within `settle` alone.
    marks: Marks,
    moment: u64,
}

impl Model for Connections {
    ghost use Rattle.kp_track_defs.specs.Kept.{Kept};
    ghost use Rattle.kp_conntrack.specs.KeptCode.{kept_code};

    ghost Value = { Kept };

    ghost coded = { kept_code };

    ghost use Rattle.kp_conntrack.specs.Laid.{IsLaid, entries_in};

    ghost view = { λ c. record { entries = entries_in c.rows.items c.order; moment = c.moment } };

    ghost invariant = { λ c. IsLaid c.rows.items c.order c.index c.moment };
}

impl Connections {
    /// No connection, with the room for all.
    pub fn new(alloc: Global) -> Result<Connections, NoMemory>
        ensures { IfOk result (λ c. c ≡ nothing_kept) }
    {
        Ok(Connections {
            rows: blank_rows(alloc, ROWS)?,
            order: free_order(alloc, ROWS)?,
            index: Index::new(alloc)?,
            marks: Marks::new(alloc)?,
            moment: 0,
        })
    }

    /// What a flow of an open connection is answered; the connection was heard of at its moment, the
    /// greatest so far. Of a flow that nobody owns only the moment counts.
    pub fn owned(&mut self, flow: &Flow) -> Option<Owned>
        ensures answer { result ≡ kept_owned self.old flow.now }
        ensures after { self.new ≡ kept_after_owned self.old flow.now }
    {
        self.advance(flow.packet.now);
        let connection = connection_of(flow);
        let bucket = connection_bucket(&connection);
        match self.later(&connection, bucket) {
            Some(owned) => Some(owned),
            None => self.reply(&connection, bucket),
        }
    }

    /// Keeps a flow that opened a connection with this verdict, where it was sent to an endpoint and
    /// there is room, and says whether it did.
    pub fn opened(&mut self, flow: &Flow, verdict: &Verdict) -> bool
        ensures kept { result ≡ keeps self.old flow.now verdict.now }
        ensures after { self.new ≡ kept_after_opened self.old flow.now verdict.now }
    {
        self.advance(flow.packet.now);
        match *verdict {
            Verdict::To { endpoint, masked } => self.add(Entry {
                connection: connection_of(flow),
                endpoint,
                masked,
                latest: self.moment,
            }),
            Verdict::Rejected => false,
            Verdict::Dropped => false,
            Verdict::LeftAlone => false,
        }
    }

    /// Forgets what was sent to an endpoint of UDP.
    pub fn clear(&mut self, endpoint: &Endpoint)
        ensures { self.new ≡ without_endpoint endpoint.now self.old }
    {
        drop_sent_to(
            self.rows.as_slice(),
            &mut self.order,
            &mut self.index,
            endpoint,
        );
    }

    /// Forgets what was sent to an endpoint of UDP that doesn't stand by a table: no rule of nat or
    /// nat6 matches UDP, with a port or without, and has it as its target. It looks at each rule
    /// once.
    pub fn settle(&mut self, table: &Table)
        ensures { self.new ≡ kept_after_sync (table_stands table.now.chains) self.old }
    {
        let rows = self.rows.as_slice();
        mark_standing(rows, &self.index.endpoints, table, &mut self.marks);
        drop_unmarked(rows, &mut self.order, &mut self.index, &self.marks);
    }

    /// Forgets all connections, and begins at the first moment.
    pub fn empty(&mut self)
        ensures { self.new ≡ nothing_kept }
    {
        drop_all(self.rows.as_slice(), &mut self.order, &mut self.index);
        self.moment = 0;
    }

    /// Goes on to a moment, where it lies ahead, and forgets connections that have ended by then.
    fn advance(&mut self, now: u64)
        ensures { self.new ≡ kept_at (max self.old.moment now) self.old }
    {
        self.moment = self.moment.max(now);
        drop_dead(
            self.rows.as_slice(),
            &mut self.order,
            &mut self.index,
            self.moment,
        );
    }

    /// What the first flow of a connection was answered, once it was heard of again.
    fn later(&mut self, connection: &Connection, bucket: u32) -> Option<Owned>
        requires bucket { bucket ≡ spec.connection_bucket connection.now }
        requires low { bucket < 262144 }
        ensures answer { result
            ≡ option_map as_later (find (has_connection connection.now) self.old.entries) }
        ensures after { self.new ≡ with_found (has_connection connection.now) self.old }
    {
        let sought = OfConnection {
            rows: self.rows.as_slice(),
            connection,
        };
        let row = self.index.connections.find(bucket, &sought)?;
        let entry = renew(&mut self.rows, &mut self.index.ages, row, self.moment);
        Some(Owned::Later {
            endpoint: entry.endpoint,
            masked: entry.masked,
        })
    }

    /// The door of the first flow that a connection replies to, once it was heard of again.
    fn reply(&mut self, connection: &Connection, bucket: u32) -> Option<Owned>
        requires bucket { bucket ≡ spec.connection_bucket connection.now }
        requires low { bucket < 262144 }
        ensures answer { result
            ≡ option_map as_door (find (is_replied_by connection.now) self.old.entries) }
        ensures after { self.new ≡ with_found (is_replied_by connection.now) self.old }
    {
        let sought = OfReply {
            rows: self.rows.as_slice(),
            connection,
        };
        let row = self.index.replies.find(bucket, &sought)?;
        let entry = renew(&mut self.rows, &mut self.index.ages, row, self.moment);
        Some(Owned::Reply {
            door: Endpoint {
                address: entry.connection.target,
                port: entry.connection.port,
            },
        })
    }

    /// Keeps an entry, where there is room.
    fn add(&mut self, entry: Entry) -> bool
        requires { entry.latest ≡ self.old.moment }
        ensures room { result ≡ nat_lt (length self.old.entries) most_openers }
        ensures after { self.new ≡ with_entry entry self.old }
    {
        let Some(row) = self.order.front(FREE) else {
            return false;
        };
        self.rows[row as usize] = entry;
        self.order.move_back(KEPT, row);
        self.index.place(row, &entry);
        true
    }
}
