//! What of a queue threads are given. Each law is a call that does nothing.
use crate::feeder::FeedPass;
use crate::queue::Feed;
use crate::taker::TakePass;

/// Threads may share a queue, and a queue, a feeder's pass and the taker's may be sent to them.
pub fn queues_cross_threads() {
    is_shared::<Feed>();
    is_sent::<Feed>();
    is_sent::<FeedPass>();
    is_sent::<TakePass>();
}

/// Takes a type whose values may be shared.
fn is_shared<T: Sync>() {}

/// Takes a type whose values may be sent.
fn is_sent<T: Send>() {}
