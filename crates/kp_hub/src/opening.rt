//! What a hub is opened with.
ghost use Rattle.std.specs.Prelude.{◌≡◌, ◌<◌, ◌≤◌, IfOk};

use kp_base::{Config, Items, NoMemory};
use kp_feed::{Feed, FeedPass, TakePass, feed_queue};
use kp_plane::Plane;
use kp_publish::Opened;
use std::alloc::Global;
use std::marker::Model;
use std::sync::Wait;
use std::sync::ledger::Blank;

/// How many parts a ledger has: one for each of 64 passes, and one for the hub.
const PARTS: u64 = 65;

/// The parts of a hub that is none yet. Contracts see which queue, history and ledgers it has, for
/// how many streams, and under which configuration. It is ended by `Hub::new` or by `end`.
pub struct Opening {
    pub(crate) plane: Plane,
    pub(crate) history: Opened,
    pub(crate) feed: Feed,
    pub(crate) feeders: Items<FeedPass>,
    pub(crate) taker: TakePass,
    pub(crate) accepted: Blank,
    pub(crate) refused: Blank,
    pub(crate) streams: u32,
}

impl Model for Opening {
    ghost use Rattle.std.specs.Prelude.{◌≡◌, ◌≤◌, ◌<◌, []};
    ghost use Rattle.kp_feed.specs.Calls as calls;
    ghost use Rattle.kp_hub.specs.Openings.{OpeningParts, opening_code};

    ghost Value = { OpeningParts };

    ghost coded = { opening_code };

    ghost view = { λ o. record {
      config = o.plane.config;
      book = o.history;
      queue = o.feed;
      streams = o.streams;
      accepted = (o.accepted.name, o.accepted.parts);
      refused = (o.refused.name, o.refused.parts);
    } };

    ghost invariant = { λ o.
        (o.plane ≡ record { config = o.plane.config; events = []; counts = [] })
        × (o.feeders ≡ calls.new_feeders o.feed o.streams)
        × (o.taker ≡ calls.new_taker o.feed o.streams)
        × (0 < o.streams) × (o.streams ≤ 64)
        × (o.accepted.parts ≡ 65) × (o.refused.parts ≡ 65) };
}

impl Opening {
    /// The parts of a hub for 1 to 64 streams.
    pub fn new(alloc: Global, config: Config, streams: u32) -> Result<Opening, NoMemory>
        requires some { 0 < streams }
        requires few { streams ≤ 64 }
        ensures config { IfOk result (λ o. o.config ≡ config) }
        ensures streams { IfOk result (λ o. o.streams ≡ streams) }
    {
        let plane = Plane::new(alloc, config)?;
        let (feed, feeders, taker) = feed_queue(alloc, streams)?;
        Ok(Opening {
            plane,
            history: Opened::new(),
            feed,
            feeders,
            taker,
            accepted: Blank::new(PARTS),
            refused: Blank::new(PARTS),
            streams,
        })
    }

    /// Ends the parts of a hub that was not made.
    pub fn end<R: Wait>(self, rt: &R) {
        let Opening {
            plane: _plane,
            history: _history,
            feed,
            feeders,
            taker,
            accepted: _accepted,
            refused: _refused,
            streams: _,
        } = self;
        feed.finish(rt, feeders, taker);
    }
}
