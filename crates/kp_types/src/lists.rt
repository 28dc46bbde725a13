//! The endpoints of a Service port.
ghost use Rattle.std.specs.Prelude.{◌≡◌, IfOk};

use kp_base::{Copied, Endpoint, Items, NoMemory, Text};
use std::alloc::Global;

/// An endpoint of a Service port, with its state.
#[derive(PartialEq, Eq, Drop)]
pub struct Candidate {
    pub endpoint: Endpoint,
    pub ready: bool,
    pub serving: bool,
    pub terminating: bool,
    /// Whether it is on this node.
    pub local: bool,
    pub hints: Items<Text>,
}

/// The endpoints that a Service port may send to, by traffic policy, and whether it has any at all.
#[derive(Drop)]
pub struct Lists {
    pub cluster: Items<Endpoint>,
    pub local: Items<Endpoint>,
    pub has_any: bool,
}

impl Copied for Candidate {
    fn copy(&self, alloc: Global) -> Result<Candidate, NoMemory> {
        Ok(Candidate {
            endpoint: self.endpoint,
            ready: self.ready,
            serving: self.serving,
            terminating: self.terminating,
            local: self.local,
            hints: self.hints.copy(alloc)?,
        })
    }
}

impl Copied for Lists {
    fn copy(&self, alloc: Global) -> Result<Lists, NoMemory> {
        Ok(Lists {
            cluster: self.cluster.copy(alloc)?,
            local: self.local.copy(alloc)?,
            has_any: self.has_any,
        })
    }
}
