//! Objects that are read, put into a store, and asked where a packet goes.
use crate::draws::draw;
use crate::input::events;
use kp_decide::{Reason, decide};
use kp_draws::DrawSource;
use kp_recent::RecentLists;
use kp_script::default_config;
use kp_store::Objects;
use kp_types::{Event, Object, Packet};
use std::alloc::Global;
use std::mem::forget;

/// Reads the lines as events so often, and counts the events.
pub fn read(alloc: Global, lines: &[u8], times: u32) -> Option<u64> {
    let mut count: u64 = 0;
    for _ in 0..times {
        let events = events(alloc, lines)?;
        count = count.wrapping_add(events.len() as u64);
        // What a drop costs is no part of the figure.
        forget(events);
    }
    Some(count)
}

/// Applies events to an empty store so often, one after the other, and counts the stores.
pub fn stored(alloc: Global, events: &[Event], times: u32) -> Option<u64> {
    let mut count: u64 = 0;
    for _ in 0..times {
        let objects = Objects::from_events(alloc, events).ok()?;
        count = count.wrapping_add(1);
        forget(objects);
    }
    Some(count)
}

/// Applies the last of the events so often, which is a pod's, and counts the Services that select
/// it.
pub fn changed(alloc: Global, events: &[Event], times: u32) -> Option<u64> {
    let mut objects = Objects::from_events(alloc, events).ok()?;
    let last = events.last()?;
    let Event::Apply(Object::Pod(pod)) = last else {
        return None;
    };
    let mut count: u64 = 0;
    for _ in 0..times {
        objects.apply(alloc, last).ok()?;
        let services = objects.services_of_pod(alloc, &pod.get().key).ok()?;
        count = count.wrapping_add(services.as_slice().len() as u64);
    }
    Some(count)
}

/// Decides a packet so often, and counts how often a door takes it.
pub fn decided(alloc: Global, objects: &Objects, packet: &Packet, times: u32) -> Option<u64> {
    let config = default_config(alloc).ok()?;
    let lists = RecentLists::new(alloc, 100).ok()?;
    let draws = DrawSource::new(draw);
    let mut count: u64 = 0;
    for number in 0..times as u64 {
        let decision = decide(alloc, objects, &config, number, packet, &draws, &lists).ok()?;
        if let Reason::Door { .. } = decision.reason {
            count = count.wrapping_add(1);
        }
    }
    Some(count)
}
