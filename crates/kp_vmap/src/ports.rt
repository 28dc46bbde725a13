//! The ports at one destination.
ghost use Rattle.std.specs.Prelude.{◌≡◌, ◌↔◌, ◌≤◌, length, IfOk, IsTrue, OnErr, OnOk};
ghost use Rattle.std.specs.FinMap as finite;
ghost use Rattle.kp_vmap.specs.Places.{others, place_in, with_port};

use crate::known::Known;
use kp_base::{Copied, Kept, NoMemory, PortKey};
use std::alloc::Global;
use std::marker::Model;

/// Ports in order of their names, each once, which contracts see as a map from these. Most
/// destinations are those of one port.
pub struct Ports {
    items: Vec<Kept<Known>>,
}

impl Drop for Ports {
    fn drop(self) {
        let Ports { items } = self;
    }
}

impl Model for Ports {
    ghost use Rattle.kp_table_laws.specs.Laws.{AreInOrder};
    ghost use Rattle.kp_vmap.specs.Places.{PortMap, port_map_code};
    ghost use Rattle.kp_vmap_defs.specs.VerdictMap.{by_name};

    ghost Value = { PortMap };

    ghost coded = { port_map_code };

    ghost view = { λ p. by_name p.items.items };

    ghost invariant = { λ p. AreInOrder p.items.items };
}

impl Ports {
    /// No ports.
    pub fn new(alloc: Global) -> Ports
        ensures { result ≡ finite.empty }
    {
        Ports {
            items: Vec::new(alloc),
        }
    }

    /// The same ports, of which this is one owner more.
    pub fn copy(&self, alloc: Global) -> Result<Ports, NoMemory>
        ensures { IfOk result (λ ports. ports ≡ self.now) }
    {
        Ok(Ports {
            items: copies(alloc, self.items.as_slice())?,
        })
    }

    /// Whether there is none.
    pub fn is_empty(&self) -> bool
        ensures { IsTrue result ↔ (self.now ≡ finite.empty) }
    {
        self.items.as_slice().is_empty()
    }

    /// The ports, in order.
    pub fn as_slice(&self) -> &[Kept<Known>]
        ensures { result.now ≡ finite.values self.now }
    {
        self.items.as_slice()
    }

    /// Puts a port in place of the one of its name. Without memory the port of its name is out.
    pub fn put(&mut self, port: Kept<Known>) -> Result<(), NoMemory>
        ensures { OnOk result (self.new ≡ finite.insert self.old port.key port) }
    {
        put_port(&mut self.items, port)
    }

    /// Takes out the port of a name, if it is there.
    pub fn take(&mut self, key: &PortKey)
        ensures { self.new ≡ finite.remove self.old key.now }
    {
        take_port(&mut self.items, key);
    }
}

/// Puts a port at the place of its name, instead of the one of this name. Without memory that one is
/// out.
fn put_port(ports: &mut Vec<Kept<Known>>, port: Kept<Known>) -> Result<(), NoMemory>
    ensures ok { OnOk result (ports.new.items ≡ with_port port ports.old.items) }
    ensures err { OnErr result (ports.new.items ≡ others port.key ports.old.items) }
{
    take_port(ports, &port.get().info().key);
    let place = place_of(ports.as_slice(), &port.get().info().key);
    ports.insert(place, port)?;
    Ok(())
}

/// Takes out the ports of a name.
fn take_port(ports: &mut Vec<Kept<Known>>, key: &PortKey)
    ensures { ports.new.items ≡ others key.now ports.old.items }
{
    ports.retain(|port| port.get().info().key != *key);
}

/// How many of the first ports have names before this one.
fn place_of(ports: &[Kept<Known>], key: &PortKey) -> usize
    ensures within { result ≤ length ports.now }
    ensures place { result ≡ place_in key.now ports.now }
{
    let mut place = 0;
    while place < ports.len() && ports[place].get().info().key < *key {
        place += 1;
    }
    place
}

/// The same ports, of which this is one owner more.
fn copies(alloc: Global, ports: &[Kept<Known>]) -> Result<Vec<Kept<Known>>, NoMemory>
    ensures { IfOk result (λ items. items.items ≡ ports.now) }
{
    let mut items = Vec::with_capacity(alloc, ports.len())?;
    for port in ports {
        items.push(port.copy(alloc)?)?;
    }
    Ok(items)
}
