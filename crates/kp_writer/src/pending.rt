//! A port of which something else is known than was written.
ghost use Rattle.std.specs.Prelude.{◌≡◌, IfOk};

use crate::known::Known;
use kp_base::{Copied, Items, NoMemory, PortKey};
use kp_history_defs::DirtyPort;
use kp_types::PortInfo;
use std::alloc::Global;
use std::marker::Model;

/// A port of which something else is known than was written, with what was written of it, if
/// anything was. This stands behind a pointer, since at a first sync nothing was of any port.
pub struct Pending {
    key: PortKey,
    before: Option<Known>,
}

impl Drop for Pending {
    fn drop(self) {
        let Pending { key, before } = self;
    }
}

impl Model for Pending {
    ghost use Rattle.kp_history_defs.specs.contracts.dirty.DirtyPort as dirty_row;
    ghost use Rattle.kp_history_defs.specs.declared.dirty.DirtyPort.{DirtyPort};

    ghost Value = { DirtyPort };

    ghost coded = { dirty_row.the_row.coded };

    ghost view = { λ p. record { key = p.key; before = p.before } };
}

impl Pending {
    /// A port with what was written of it.
    pub fn new(key: PortKey, before: Option<Known>) -> Pending
        ensures { result ≡ record { key = key; before = before } }
    {
        Pending { key, before }
    }

    /// It, as it is told.
    fn told(&self, alloc: Global) -> Result<DirtyPort, NoMemory>
        ensures { IfOk result (λ port. port ≡ self.now) }
    {
        Ok(DirtyPort {
            key: self.key.copy(alloc)?,
            before: info_of(alloc, &self.before)?,
        })
    }
}

/// A copy of what is known of a port, if something is.
fn info_of(alloc: Global, known: &Option<Known>) -> Result<Option<PortInfo>, NoMemory>
    ensures { IfOk result (λ copy. copy ≡ known.now) }
{
    match known {
        Some(known) => Ok(Some(known.info().copy(alloc)?)),
        None => Ok(None),
    }
}

/// Ports of which something else is known than was written, as they are told.
pub fn told(alloc: Global, ports: &[Pending]) -> Result<Items<DirtyPort>, NoMemory>
    ensures { IfOk result (λ told. told ≡ ports.now) }
{
    let mut told = Vec::with_capacity(alloc, ports.len())?;
    for port in ports {
        told.push(port.told(alloc)?)?;
    }
    Ok(Items::from_vec(told))
}
