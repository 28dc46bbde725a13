//! The pass of the taker.
use crate::rule::Known;
use crossbeam_queue::SegPass;
use kp_history_defs::Fed;
use std::marker::Model;

/// What the taker has taken, how many feeders there are, and what those that ended have fed.
#[derive(Drop)]
pub struct TakePass {
    pub(crate) seat: SegPass<Fed, Known>,
}

impl Model for TakePass {
    ghost use Rattle.std.specs.Prelude.{◌≡◌, None};
    ghost use Rattle.kp_feed.specs.Taking.{Taker, taker_code};

    ghost Value = { Taker };

    ghost coded = { taker_code };

    ghost view = { λ t. record {
      queue = t.seat.web;
      feeders = t.seat.me.view.client.made;
      taken = t.seat.me.view.client.taken;
      ended = t.seat.me.view.client.ended;
    } };

    ghost invariant = { λ t. (t.seat.me.hand ≡ None) × (t.seat.me.spare ≡ None) × (t.seat.id ≡ 0) };
}
