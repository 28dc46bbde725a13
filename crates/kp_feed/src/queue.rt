//! The queue.
ghost use Rattle.std.specs.Prelude.{◌≡◌, ◌<◌, ◌-◌, ◌^◌, [], ◌∷◌, ◌++◌, suc, length, map, List, IfOk, IfErr, IfSome, IfNone};
ghost use Rattle.std.specs.List.{AllByRecursion};
ghost use Rattle.kp_history_defs.specs.declared.fed.Fed.{Fed};
ghost use Rattle.kp_feed.specs.Feeding.{AreWhole, IsNext};
ghost use Rattle.kp_feed.specs.Calls as calls;

use crate::feeder::FeedPass;
use crate::rule::{Ends, Feeds, InOrder, Known, Makes, Takes};
use crate::taker::TakePass;
use crossbeam_queue::RuledSegQueue;
use kp_base::{Items, NoMemory};
use kp_history_defs::Fed;
use kp_types::Event;
use std::alloc::Global;
use std::marker::Model;
use std::sync::Wait;

/// A queue of events.
pub struct Feed {
    queue: RuledSegQueue<Fed, Known, InOrder>,
}

impl Model for Feed {
    ghost use Rattle.kp_feed.specs.Passes.{QueueId, queue_code};

    ghost Value = { QueueId };

    ghost coded = { queue_code };

    ghost view = { λ q. q.queue.web };
}

/// A queue, the passes of so many feeders, numbered from 0, and the pass of the taker.
#[tactic(auto, using(crate::proofs::Newcomers::all_new))]
pub fn feed_queue(
    alloc: Global,
    feeders: u32,
) -> Result<(Feed, Items<FeedPass>, TakePass), NoMemory>
    ensures feeders { IfOk result (λ r. r.1 ≡ calls.new_feeders r.0 feeders) }
    ensures new { IfOk result (λ r. AllByRecursion (calls.IsNew r.0) r.1) }
    ensures taker { IfOk result (λ r. r.2 ≡ calls.new_taker r.0 feeders) }
{
    let (queue, seat) = RuledSegQueue::with_rule(alloc)?;
    let feed = Feed { queue };
    let mut taker = TakePass { seat };
    let mut passes = Items::new(alloc);
    for feeder in 0..feeders {
        let pass = feed.new_feeder(&mut taker, feeder);
        if let Err((refused, _)) = passes.push(pass) {
            let Feed { queue } = feed;
            queue.destroy();
            return Err(refused);
        }
    }
    Ok((feed, passes, taker))
}

impl Feed {
    /// The pass of one more feeder.
    fn new_feeder(&self, taker: &mut TakePass, feeder: u32) -> FeedPass
        requires taker { taker.old.queue ≡ self.now }
        requires next { taker.old.feeders ≡ feeder }
        ensures taker { taker.new ≡ calls.with_feeder taker.old }
        ensures pass { result ≡ calls.new_feeder self.now feeder }
    {
        FeedPass {
            feeder,
            count: 0,
            seat: self.queue.another::<Makes>(&mut taker.seat),
        }
    }

    /// Adds an event at the back, as the next of this feeder, and answers its number. Where memory
    /// is out it hands the event back.
    pub fn feed<R: Wait>(
        &self,
        rt: &R,
        pass: &mut FeedPass,
        event: Event,
    ) -> Result<u64, (NoMemory, Event)>
        requires queue { pass.old.queue ≡ self.now }
        requires room { length pass.old.fed < 2 ^ 64 - 1 }
        ensures number { IfOk result (λ number. number ≡ suc (length pass.old.fed)) }
        ensures fed { IfOk result (λ number. pass.new ≡ calls.with_fed pass.old event) }
        ensures back { IfErr result (λ e. e.1 ≡ event) }
        ensures kept { IfErr result (λ e. pass.new ≡ pass.old) }
    {
        let number = pass.count + 1;
        let fed = Fed {
            feeder: pass.feeder,
            number,
            event,
        };
        match self.queue.push_as::<Feeds, R>(rt, &mut pass.seat, fed) {
            Ok(()) => {
                pass.count = number;
                Ok(number)
            }
            // The queue hands back the event alone.
            Err(back) => Err((NoMemory::told_by_library(), back.event)),
        }
    }

    /// Takes the event at the front, which is the next of its feeder. Where there is none, what was
    /// taken is all that the feeders which ended have fed.
    pub fn take<R: Wait>(&self, rt: &R, pass: &mut TakePass) -> Option<Fed>
        requires { pass.old.queue ≡ self.now }
        ensures taken { IfSome result (λ f. pass.new ≡ calls.with_taken pass.old f) }
        ensures next { IfSome result (λ f. IsNext pass.old.taken pass.old.feeders f) }
        ensures kept { IfNone result (pass.new ≡ pass.old) }
        ensures whole { IfNone result (AreWhole pass.old.taken pass.old.ended pass.old.feeders) }
    {
        self.queue.pop_as::<Takes, R>(rt, &mut pass.seat)
    }

    /// Ends feeders. The taker keeps what they have fed.
    pub fn end(&self, taker: &mut TakePass, passes: Items<FeedPass>)
        requires taker { taker.old.queue ≡ self.now }
        requires passes { AllByRecursion (λ p. p.queue ≡ self.now) passes }
        ensures { taker.new ≡ calls.with_ended taker.old passes }
    {
        for pass in passes.into_vec() {
            self.end_one(taker, pass);
        }
    }

    /// Ends one feeder.
    fn end_one(&self, taker: &mut TakePass, pass: FeedPass)
        requires taker { taker.old.queue ≡ self.now }
        requires pass { pass.queue ≡ self.now }
        ensures { taker.new ≡ calls.with_ended taker.old (pass ∷ []) }
    {
        self.queue.absorb::<Ends>(&mut taker.seat, pass.seat);
    }

    /// Ends the last feeders and the queue, and answers how many events are left in it.
    pub fn finish<R: Wait>(self, rt: &R, passes: Items<FeedPass>, taker: TakePass) -> u64
        requires taker { taker.queue ≡ self }
        requires passes { AllByRecursion (λ p. p.queue ≡ self) passes }
        ensures { (left : List Fed) × (length left ≡ result) × AreWhole (taker.taken ++ left)
            (taker.ended ++ map calls.ended_of passes) taker.feeders }
    {
        let mut taker = taker;
        self.end(&mut taker, passes);
        let left = self.queue.len_as::<Takes, R>(rt, &mut taker.seat);
        let Feed { queue } = self;
        queue.destroy();
        left as u64
    }
}
