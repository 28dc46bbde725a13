//! Tests of rows by their entries.
ghost use Rattle.kp_track_defs.specs.Entries.{has_connection, is_replied_by};
ghost use Rattle.kp_track_defs.specs.Kept.{is_sent_to};
ghost use Rattle.kp_conntrack.specs.Laid.{passes_at};

use crate::buckets::{reply_of, same_connection, same_endpoint};
use kp_base::{Endpoint, Proto};
use kp_links::Test;
use kp_track_defs::{Connection, Entry};

/// The row of a connection.
#[derive(Clone, Copy)]
pub(crate) struct OfConnection<'a> {
    pub(crate) rows: &'a [Entry],
    pub(crate) connection: &'a Connection,
}

impl Test for OfConnection<'_> {
    ghost test = { λ t row. passes_at (has_connection t.connection.now) t.rows.now row };

    fn passes(&self, row: u32) -> bool {
        match self.rows.get(row as usize) {
            Some(entry) => same_connection(&entry.connection, self.connection),
            None => false,
        }
    }
}

/// A row whose replies have a connection.
#[derive(Clone, Copy)]
pub(crate) struct OfReply<'a> {
    pub(crate) rows: &'a [Entry],
    pub(crate) connection: &'a Connection,
}

impl Test for OfReply<'_> {
    ghost test = { λ t row. passes_at (is_replied_by t.connection.now) t.rows.now row };

    fn passes(&self, row: u32) -> bool {
        match self.rows.get(row as usize) {
            Some(entry) => match reply_of(entry) {
                Some(reply) => same_connection(&reply, self.connection),
                None => false,
            },
            None => false,
        }
    }
}

/// A row of UDP that was sent to an endpoint.
#[derive(Clone, Copy)]
pub(crate) struct OfEndpoint<'a> {
    pub(crate) rows: &'a [Entry],
    pub(crate) endpoint: &'a Endpoint,
}

impl Test for OfEndpoint<'_> {
    ghost test = { λ t row. passes_at (is_sent_to t.endpoint.now) t.rows.now row };

    fn passes(&self, row: u32) -> bool {
        match self.rows.get(row as usize) {
            Some(entry) => {
                entry.connection.proto == Proto::Udp
                    && same_endpoint(&entry.endpoint, self.endpoint)
            }
            None => false,
        }
    }
}
