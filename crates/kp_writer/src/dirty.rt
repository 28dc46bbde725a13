//! The ports of which something else is known than was written.
ghost use Rattle.std.specs.Prelude.{◌≡◌, map, IfOk};
ghost use Rattle.std.specs.FinMap as finite;
ghost use Rattle.std.specs.Option.{option_copied};
ghost use Rattle.kp_writer.specs.Written.{written_in};

use crate::known::Known;
use crate::pending::Pending;
use kp_base::{Copied, Items, NoMemory, PortKey};
use kp_tracker::Tracker;
use std::alloc::Global;

/// Ports, each with what was written of it.
pub fn dirty_ports(
    alloc: Global,
    ports: &Tracker<PortKey, Known>,
    keys: &[&PortKey],
) -> Result<Items<Pending>, NoMemory>
    ensures { IfOk result (λ dirty. dirty ≡ map (λ k. record {
      key = k.now;
      before = finite.get (written_in ports.now) k.now;
    }) keys.now) }
{
    let mut dirty = Vec::with_capacity(alloc, keys.len())?;
    for key in keys {
        let before = copy_of(alloc, ports.published(key))?;
        dirty.push(Pending::new(key.copy(alloc)?, before))?;
    }
    Ok(Items::from_vec(dirty))
}

/// A copy of what is known of a port, if something is.
fn copy_of(alloc: Global, known: Option<&Known>) -> Result<Option<Known>, NoMemory>
    ensures { IfOk result (λ copy. copy ≡ option_copied known.entry) }
{
    match known {
        Some(known) => Ok(Some(Known::of(alloc, known.info().copy(alloc)?)?)),
        None => Ok(None),
    }
}
