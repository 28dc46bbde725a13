//! What was staged is kept. There is room for it, so no memory is taken.
ghost use Rattle.std.specs.Prelude.{◌≡◌, ◌+◌, ◌<◌, ◌≤◌, [], cond, length};
ghost use Rattle.std.specs.FinMap as finite;
ghost use Rattle.std.specs.Ordering.{eq_by_cmp};
ghost use Rattle.indexmap.specs.IndexMap.{spare};
ghost use Rattle.kp_base.specs.Keys.{port_key_cmp};
ghost use Rattle.kp_tracker.specs.Tracked.{updated, with_value};
ghost use Rattle.kp_vmap.specs.Places.{at_place, staged_at};
ghost use Rattle.kp_vmap_defs.specs.VerdictMap.{destination_cmp};
ghost use Rattle.kp_vmap_defs.specs.declared.door.Destination.{Destination as Place};

use crate::known::Known;
use crate::ports::Ports;
use indexmap::IndexMap;
use kp_base::{Kept, PortKey};
use kp_vmap_defs::Destination;
use std::collections::BTreeMap;

/// Keeps what is known of ports now. Of two changes of one port the first counts.
pub(crate) fn keep_ports(
    ports: &mut IndexMap<PortKey, Kept<Known>>,
    mut changes: Vec<(PortKey, Option<Kept<Known>>)>,
)
    requires { length changes.items ≤ spare ports.old }
    ensures { finite.from_entries {R = port_key_cmp} ports.new.entries
        ≡ updated port_key_cmp (finite.from_entries ports.old.entries) changes.items }
{
    while let Some((key, port)) = changes.pop() {
        keep_port(ports, key, port);
    }
}

/// Keeps what is known of a port, or that it is gone. There is room for it.
fn keep_port(ports: &mut IndexMap<PortKey, Kept<Known>>, key: PortKey, port: Option<Kept<Known>>)
    requires { 0 < spare ports.old }
    ensures value { finite.from_entries {R = port_key_cmp} ports.new.entries
        ≡ with_value port_key_cmp (finite.from_entries ports.old.entries) key port }
    ensures room { spare ports.old ≤ spare ports.new + 1 }
{
    match port {
        None => {
            ports.swap_remove(&key);
        }
        Some(port) => {
            let _ = ports.insert(key, port);
        }
    }
}

/// Keeps the ports that are staged at destinations. One without ports takes no room.
pub(crate) fn keep_places(
    places: &mut IndexMap<Destination, Ports>,
    mut staged: BTreeMap<Destination, Ports>,
)
    requires { length staged.entries ≤ spare places.old }
    ensures { (d : Place) → at_place places.new.entries d
        ≡ staged_at places.old.entries staged.entries d }
{
    keep_all(places, &mut staged);
}

/// Keeps them one after another.
fn keep_all(places: &mut IndexMap<Destination, Ports>, staged: &mut BTreeMap<Destination, Ports>)
    requires { length staged.old.entries ≤ spare places.old }
    ensures places { (d : Place) → staged_at places.new.entries staged.new.entries d
        ≡ staged_at places.old.entries staged.old.entries d }
    ensures none { staged.new.entries ≡ [] }
{
    while let Some((at, ports)) = staged.pop_last() {
        keep_place(places, at, ports);
    }
}

/// Keeps the ports at a destination. There is room for them.
fn keep_place(places: &mut IndexMap<Destination, Ports>, at: Destination, ports: Ports)
    requires { 0 < spare places.old }
    ensures place { (d : Place) → at_place places.new.entries d
        ≡ cond (eq_by_cmp destination_cmp d at) ports (at_place places.old.entries d) }
    ensures room { spare places.old ≤ spare places.new + 1 }
{
    if ports.is_empty() {
        places.swap_remove(&at);
    } else {
        let _ = places.insert(at, ports);
    }
}
