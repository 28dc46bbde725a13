//! Events that were fed into a queue.
ghost use Rattle.std.specs.Prelude.{◌≡◌, IfOk};

use kp_base::{Copied, NoMemory};
use kp_types::Event;
use std::alloc::Global;

/// An event, the stream that fed it, and its number among the events of this stream, from 1.
#[derive(Drop)]
pub struct Fed {
    pub feeder: u32,
    pub number: u64,
    pub event: Event,
}

impl Copied for Fed {
    fn copy(&self, alloc: Global) -> Result<Fed, NoMemory> {
        Ok(Fed {
            feeder: self.feeder,
            number: self.number,
            event: self.event.copy(alloc)?,
        })
    }
}
