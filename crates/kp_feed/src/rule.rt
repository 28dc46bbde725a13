//! The queue's rule, and what the steps under it tell.
ghost use Rattle.kp_feed.specs.Feeding as spec;

use crossbeam_queue::protocol::{Join, Lesson, Outcome, Protocol, Split};
use kp_base::Items;
use kp_history_defs::Fed;
use kp_types::Event;

/// What a feeder that ended has fed.
pub struct Ended {
    pub feeder: u32,
    pub fed: Items<Event>,
}

/// What a pass knows. Of a feeder: which one it is, and what it has fed. Of the taker: what it has
/// taken, how many feeders were made, and what those that ended have fed. No value of it is made.
pub struct Known {
    pub feeds: bool,
    pub feeder: u32,
    pub fed: Items<Event>,
    pub taken: Items<Fed>,
    pub made: u32,
    pub ended: Items<Ended>,
}

/// What was taken and what the queue holds is what each feeder has fed.
pub struct InOrder;

impl Protocol<Fed, Known> for InOrder {
    ghost use Rattle.kp_feed.specs.Feeding as spec;

    ghost holds = { spec.Kept };

    ghost first = { spec.at_first };
}

/// The taker makes a feeder.
pub struct Makes;

impl Split<Known> for Makes {
    ghost use Rattle.kp_feed.specs.Feeding as spec;

    ghost left = { spec.made_one };

    ghost right = { spec.newcomer };
}

/// The taker ends a feeder.
pub struct Ends;

impl Join<Known> for Ends {
    ghost use Rattle.kp_feed.specs.Feeding as spec;

    ghost both = { spec.ended_one };

    ghost spent = { spec.at_first };
}

/// A feeder feeds an event.
pub struct Feeds;

impl Outcome<Fed, Known> for Feeds {
    ghost then = { spec.Feeds };
}

/// The taker takes the front, or learns what it has taken of an empty queue.
pub struct Takes;

impl Outcome<Fed, Known> for Takes {
    ghost then = { spec.Takes };
}

impl Lesson<Fed, Known> for Takes {
    ghost fact = { spec.Learned };
}
