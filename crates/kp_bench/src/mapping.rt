//! Packets that a map of verdicts answers.
ghost use Rattle.std.specs.Prelude.{◌≡◌, ◌<◌, true};
ghost use Rattle.kp_base.specs.Keys.{port_key_cmp};
ghost use Rattle.kp_object_defs.specs.Order.{rises};
ghost use Rattle.kp_object_defs.specs.OwnKeys.{AreUnderOwnKeys};

use crate::draws::draw;
use kp_base::{NoMemory, PortKey, Steps};
use kp_draws::DrawSource;
use kp_recent::RecentLists;
use kp_script::default_config;
use kp_store::Objects;
use kp_types::{Event, Packet, Verdict};
use kp_vmap::{Vmap, dirty_between};
use std::alloc::Global;
use std::marker::Brand;
use std::sync::ledger::{Blank, Ledger};

/// Looks up a packet so often in the map of the objects after some events, and counts how often it
/// goes to an endpoint.
pub fn mapped(alloc: Global, events: &[Event], packet: &Packet, times: u32) -> Option<u64> {
    let map = map_of(alloc, events).ok()?;
    let mut lists = RecentLists::new(alloc, 100).ok()?;
    let draws = DrawSource::new(draw);
    let mut count: u64 = 0;
    for number in 0..times as u64 {
        let verdict = map.look(number, packet, &draws, &mut lists).ok()?;
        if let Verdict::To { .. } = verdict {
            count = count.wrapping_add(1);
        }
    }
    Some(count)
}

/// The map of the objects after some events, under the default setting.
fn map_of(alloc: Global, events: &[Event]) -> Result<Vmap, NoMemory> {
    kp_object_laws::own_keys();
    kp_history_laws::changed_ports();
    let objects = Objects::from_events(alloc, events)?;
    let config = default_config(alloc)?;
    let none = Objects::from_events(alloc, &[])?;
    let dirty = dirty_between(alloc, &none, &objects, &config)?;
    let mut map = Vmap::new(alloc, &config)?;
    let blank = Blank::new(1);
    replaced::<Brand>(alloc, &mut map, &objects, dirty.as_slice(), blank)?;
    Ok(map)
}

/// Makes a map that of some objects, whose steps nobody counts.
fn replaced<L: Ledger>(
    alloc: Global,
    map: &mut Vmap,
    objects: &Objects,
    dirty: &[PortKey],
    blank: Blank,
) -> Result<(), NoMemory>
    requires name { blank.name ≡ L.name }
    requires parts { blank.parts ≡ L.parts }
    requires some { 0 < blank.parts }
    requires own_keys { AreUnderOwnKeys objects.now }
    requires in_order { rises port_key_cmp dirty.now ≡ true }
{
    let mut steps = Steps::<L>::new(blank);
    map.replace(alloc, objects, dirty, &mut steps)
}
