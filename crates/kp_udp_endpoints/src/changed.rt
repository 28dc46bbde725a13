//! Endpoints of the lists of UDP ports of which something else is known than before.
ghost use Rattle.std.specs.Prelude.{◌≡◌, [], ◌++◌, drop, OnOk};
ghost use Rattle.std.specs.List.{flat_map};
ghost use Rattle.kp_types.specs.Setting.{config_for};
ghost use Rattle.kp_udp_endpoints.specs.Changed as spec;
ghost use Rattle.kp_udp_endpoints.specs.Endpoints as listed;

use kp_base::{Config, Endpoint, Family, NoMemory, Proto};
use kp_history_defs::DirtyPort;
use kp_port_by_key::info_at;
use kp_store::Objects;
use kp_types::PortInfo;
use std::alloc::Global;
use std::cmp::Ordering;

/// Endpoints that went from lists, and endpoints that came to lists, each once for each list.
#[derive(Drop)]
pub struct Changed {
    pub went: Vec<Endpoint>,
    pub came: Vec<Endpoint>,
}

impl Changed {
    /// None.
    pub fn new(alloc: Global) -> Changed
        ensures went { result.went.items ≡ [] }
        ensures came { result.came.items ≡ [] }
    {
        Changed {
            went: Vec::new(alloc),
            came: Vec::new(alloc),
        }
    }

    /// Adds what lists of these ports lost and have got in a family, by what was known and by the
    /// objects.
    pub fn push_ports(
        &mut self,
        alloc: Global,
        family: Family,
        config: &Config,
        objects: &Objects,
        dirty: &[DirtyPort],
    ) -> Result<(), NoMemory>
        ensures { OnOk result (spec.AreAdded (flat_map listed.gone_of dirty.now)
            (flat_map (listed.new_of family (config_for family config.now) objects.now) dirty.now)
            self.old self.new) }
    {
        for port in dirty {
            self.push_port(alloc, family, config, objects, port)?;
        }
        Ok(())
    }

    /// Adds those of a port, if it is one of UDP: of another one nothing is asked.
    fn push_port(
        &mut self,
        alloc: Global,
        family: Family,
        config: &Config,
        objects: &Objects,
        port: &DirtyPort,
    ) -> Result<(), NoMemory>
        ensures { OnOk result (spec.AreAdded (listed.gone_of port.now)
            (listed.new_of family (config_for family config.now) objects.now port.now)
            self.old self.new) }
    {
        if port.key.proto != Proto::Udp {
            return Ok(());
        }
        let info = info_at(alloc, family, config, objects, &port.key)?;
        self.push_lists(&port.before, &info)?;
        Ok(())
    }

    /// Adds those of both lists of a port.
    fn push_lists(
        &mut self,
        before: &Option<PortInfo>,
        after: &Option<PortInfo>,
    ) -> Result<(), NoMemory>
        ensures { OnOk result (spec.AreAdded (spec.listed_of before.now)
            (spec.listed_of after.now) self.old self.new) }
    {
        self.push_apart(cluster_of(before), cluster_of(after))?;
        self.push_apart(local_of(before), local_of(after))?;
        Ok(())
    }

    /// Adds what is in one of two lists alone. Where both are in the order of endpoints, what is in
    /// both is passed over.
    fn push_apart(&mut self, before: &[Endpoint], after: &[Endpoint]) -> Result<(), NoMemory>
        ensures { OnOk result (spec.AreAdded before.now after.now self.old self.new) }
    {
        let mut was = 0;
        let mut is = 0;
        while was < before.len() && is < after.len() {
            match before[was].cmp(&after[is]) {
                Ordering::Less => {
                    self.went.push(before[was])?;
                    was += 1;
                }
                Ordering::Equal => {
                    was += 1;
                    is += 1;
                }
                Ordering::Greater => {
                    self.came.push(after[is])?;
                    is += 1;
                }
            }
        }
        push_from(before, was, &mut self.went)?;
        push_from(after, is, &mut self.came)?;
        Ok(())
    }
}

/// The endpoints of the list of the cluster.
fn cluster_of(info: &Option<PortInfo>) -> &[Endpoint]
    ensures { result.now ≡ spec.cluster_of info.now }
{
    match info {
        Some(info) => info.lists.cluster.as_slice(),
        None => &[],
    }
}

/// Those of the list of this node.
fn local_of(info: &Option<PortInfo>) -> &[Endpoint]
    ensures { result.now ≡ spec.local_of info.now }
{
    match info {
        Some(info) => info.lists.local.as_slice(),
        None => &[],
    }
}

/// Adds the endpoints from a place on.
fn push_from(added: &[Endpoint], from: usize, endpoints: &mut Vec<Endpoint>) -> Result<(), NoMemory>
    ensures { OnOk result (endpoints.new.items ≡ endpoints.old.items ++ drop from added.now) }
{
    for at in from..added.len() {
        endpoints.push(added[at])?;
    }
    Ok(())
}
