//! Packets that walk a table.
use crate::draws::draw;
use kp_base::{Copied, Items};
use kp_draws::DrawSource;
use kp_recent::RecentLists;
use kp_restore::{Table, read_batch};
use kp_rules::changed;
use kp_types::{ChainAt, ChainName, Packet, TableName, Verdict};
use kp_walker::{can_walk, verdict_of};
use std::alloc::Global;

/// Walks a packet so often, and counts how often it goes to an endpoint.
pub fn walked(alloc: Global, table: &Table, packet: &Packet, times: u32) -> Option<u64> {
    if !can_walk(table) {
        return None;
    }
    let mut lists = RecentLists::new(alloc, 100).ok()?;
    let node = Items::new(alloc);
    let draws = DrawSource::new(draw);
    let mut count: u64 = 0;
    for number in 0..times as u64 {
        let verdict = verdict_of(table, &node, number, packet, &draws, &mut lists).ok()?;
        if let Verdict::To { .. } = verdict {
            count = count.wrapping_add(1);
        }
    }
    Some(count)
}

/// Looks up so often which rule of KUBE-SERVICES may match a packet, and adds up the places.
pub fn looked_up(table: &Table, packet: &Packet, times: u32) -> Option<u64> {
    let at = ChainAt {
        table: TableName::Nat,
        chain: ChainName::of(b"KUBE-SERVICES")?,
    };
    let mut count: u64 = 0;
    for _ in 0..times {
        let place = table.next_for(&at, 0, &packet.proto, &packet.target, &packet.port)?;
        count = count.wrapping_add(place);
    }
    Some(count)
}

/// Applies the batch of a text and the one that leads back so often, and counts the batches.
pub fn applied(alloc: Global, table: &mut Table, text: &[u8], times: u32) -> Option<u64> {
    let there = read_batch(alloc, text).ok()?;
    let before = table.copy(alloc).ok()?;
    table.apply(&there).ok()?;
    let back = changed(alloc, table, &before).ok()?;
    for _ in 0..times {
        table.apply(&back).ok()?;
        table.apply(&there).ok()?;
    }
    Some(table.syncs())
}
