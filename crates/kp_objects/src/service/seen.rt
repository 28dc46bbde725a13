//! The names and protocols of the ports that were read so far.
ghost use Rattle.std.specs.Prelude.{◌≡◌, ◌||◌, ℕ, List, not, false, IfOk, OnOk, IfErr};
ghost use Rattle.kp_base.specs.declared.port.Proto.{Proto as SpecProto};
ghost use Rattle.kp_json.specs.Answers.{IsWant};
ghost use Rattle.kp_row_defs.specs.Rows.{same_id};
ghost use Rattle.kp_objects.specs.SeenIds.{has_id};

use kp_base::{Proto, Text};
use kp_fields::copied_text;
use kp_json::FieldFault;
use kp_types::ServicePort;
use std::alloc::Global;
use std::collections::BTreeSet;

/// A port's name and protocol.
#[derive(PartialEq, Eq, PartialOrd, Ord, Drop)]
struct PortId {
    name: Text,
    proto: Proto,
}

/// A set of names and protocols of ports.
#[derive(Drop)]
pub(crate) struct SeenPorts {
    ids: BTreeSet<PortId>,
}

impl SeenPorts {
    /// The empty set.
    pub(crate) fn new(alloc: Global) -> SeenPorts
        ensures { (id : List ℕ × SpecProto) → has_id result id ≡ false }
    {
        SeenPorts {
            ids: BTreeSet::new(alloc),
        }
    }

    /// Adds a port. It answers whether the port's name and protocol are new.
    pub(crate) fn add(&mut self, alloc: Global, port: &ServicePort) -> Result<bool, FieldFault>
        ensures new { IfOk result
            (λ is_new. is_new ≡ not (has_id self.old (port.now.name, port.now.proto))) }
        ensures added { OnOk result ((id : List ℕ × SpecProto) → has_id self.new id
            ≡ (same_id id (port.now.name, port.now.proto) || has_id self.old id)) }
        ensures err { IfErr result IsWant }
    {
        let name = copied_text(alloc, port.name.as_str())?;
        let id = PortId {
            name,
            proto: port.proto,
        };
        Ok(self.ids.insert(id)?)
    }
}
