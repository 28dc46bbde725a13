//! The pass of one feeder.
ghost use Rattle.std.specs.Prelude.{◌≡◌, length};

use crate::rule::Known;
use crossbeam_queue::SegPass;
use kp_history_defs::Fed;
use std::marker::Model;

/// What one feeder has fed.
#[derive(Drop)]
pub struct FeedPass {
    pub(crate) feeder: u32,
    pub(crate) count: u64,
    pub(crate) seat: SegPass<Fed, Known>,
}

impl Model for FeedPass {
    ghost use Rattle.std.specs.Prelude.{◌≡◌, length, true, None};
    ghost use Rattle.kp_feed.specs.Passes.{Feeder, feeder_code};

    ghost Value = { Feeder };

    ghost coded = { feeder_code };

    ghost view = { λ p. record {
      queue = p.seat.web;
      feeder = p.feeder;
      fed = p.seat.me.view.client.fed;
    } };

    ghost invariant = { λ p. (p.seat.me.hand ≡ None) × (p.seat.me.spare ≡ None)
        × (p.seat.me.view.client.feeds ≡ true) × (p.seat.me.view.client.feeder ≡ p.feeder)
        × (p.count ≡ length p.seat.me.view.client.fed) };
}

impl FeedPass {
    /// How many events it has fed.
    pub fn count(&self) -> u64
        ensures { result ≡ length self.now.fed }
    {
        self.count
    }
}
