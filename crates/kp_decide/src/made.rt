//! Ports that the objects make for a destination.
ghost use Rattle.std.specs.Prelude.{◌≡◌, ◌<◌, List, map, IfOk};
ghost use Rattle.std.specs.List.{filter_map, flat_map};
ghost use Rattle.kp_base.specs.Keys.{port_key_cmp};
ghost use Rattle.kp_types.specs.Setting.{config_for};
ghost use Rattle.kp_object_defs.specs.Order.{distinct_in_order};
ghost use Rattle.kp_object_defs.specs.OwnKeys.{AreUnderOwnKeys};
ghost use Rattle.kp_object_defs.specs.PortByKey.{info_at, port_keys_of};
ghost use Rattle.kp_object_defs.specs.PortInfo as known;
ghost use Rattle.kp_known_ports.specs.Known.{AreStored};
ghost use Rattle.kp_decide.specs.Enough.{AreEnough};

use crate::sources::{PortRow, PortSource};
use kp_base::{Config, Endpoint, Family, NoMemory, Steps};
use kp_known_ports::infos_of_services;
use kp_names::Namer;
use kp_store::Objects;
use kp_types::{ChainName, ListKind, Packet, PortInfo, Service};
use std::alloc::Global;
use std::marker::Brand;
use std::sync::ledger::{Blank, Ledger};

/// The objects make what is known of the ports at a destination, and hash the names of chains.
#[derive(Drop)]
pub struct ObjectPorts<'a> {
    pub objects: &'a Objects,
    pub config: &'a Config,
}

impl<'a> PortSource for ObjectPorts<'a> {
    ghost use Rattle.std.specs.Prelude.{true};
    ghost use Rattle.kp_types.specs.Setting.{config_for};
    ghost use Rattle.kp_object_defs.specs.PortInfo.{port_infos};

    type Row = MadePorts;

    ghost infos = { λ s family. port_infos family (config_for family s.config.now) s.objects.now };

    ghost config = { λ s. s.config.now };

    ghost refuses = { true };

    fn config(&self) -> &Config {
        self.config
    }

    fn ports_at(
        &self,
        alloc: Global,
        family: Family,
        packet: &Packet,
    ) -> Result<MadePorts, NoMemory> {
        Ok(MadePorts {
            namer: Namer::new(self.config.name_length),
            infos: infos_at(alloc, family, self.objects, self.config, packet)?,
        })
    }
}

/// What the objects made for a destination.
#[derive(Drop)]
pub struct MadePorts {
    namer: Namer,
    infos: Vec<PortInfo>,
}

impl PortRow for MadePorts {
    ghost infos = { λ r. r.infos.items };

    ghost name_length = { λ r. r.namer };

    fn count(&self) -> usize {
        self.infos.len()
    }

    fn info(&self, port: usize) -> &PortInfo {
        &self.infos[port]
    }

    fn name(
        &self,
        _port: usize,
        info: &PortInfo,
        _list: ListKind,
        _place: usize,
        endpoint: &Endpoint,
    ) -> ChainName {
        self.namer.endpoint_chain_name(&info.key, endpoint)
    }
}

/// What the proxy knows of the ports of the Services that may answer a packet.
fn infos_at(
    alloc: Global,
    family: Family,
    objects: &Objects,
    config: &Config,
    packet: &Packet,
) -> Result<Vec<PortInfo>, NoMemory>
    ensures { IfOk result (λ is. AreEnough (config_for family config.now) packet.entry.now is.items
        (known.port_infos family (config_for family config.now) objects.now)) }
{
    let services = objects.services_at(alloc, packet.proto, &packet.target, packet.port)?;
    let blank = Blank::new(1);
    infos_uncounted::<Brand>(alloc, family, objects, config, services.as_slice(), blank)
}

/// What is known of the ports of some Services of the objects, whose steps nobody counts.
fn infos_uncounted<A: Ledger>(
    alloc: Global,
    family: Family,
    objects: &Objects,
    config: &Config,
    services: &[&Service],
    blank: Blank,
) -> Result<Vec<PortInfo>, NoMemory>
    requires name { blank.name ≡ A.name }
    requires parts { blank.parts ≡ A.parts }
    requires some { 0 < blank.parts }
    requires own_keys { AreUnderOwnKeys objects.now }
    requires stored { AreStored objects.now (map (λ s. s.now) services.now) }
    ensures { IfOk result (λ is. is.items
        ≡ filter_map (info_at family (config_for family config.now) objects.now)
        (distinct_in_order port_key_cmp (flat_map port_keys_of (map (λ s. s.now) services.now)))) }
{
    let mut asked = Steps::<A>::new(blank);
    infos_of_services(alloc, family, objects, config, services, &mut asked)
}
