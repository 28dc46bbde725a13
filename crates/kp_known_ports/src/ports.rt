//! What the proxy knows of one port, by what the endpoints of its Service are taken from.
ghost use Rattle.std.specs.Prelude.{◌≡◌, IfOk, OnOk, option_copied};
ghost use Rattle.std.specs.FinMap.{put};
ghost use Rattle.kp_base.specs.Keys.{port_key_cmp};
ghost use Rattle.kp_object_defs.specs.Entries.{entries_from};
ghost use Rattle.kp_object_defs.specs.PortInfo as spec;

use crate::sources::Sources;
use kp_base::{Config, Family, NoMemory, PortKey, Text};
use kp_category::{candidates_of, categorise};
use kp_port_info::{port_info, port_key_of};
use kp_types::{Lists, PortInfo, ServicePort};
use std::alloc::Global;
use std::collections::BTreeMap;

/// Adds what is known of a port of a Service in a family, on a node in a zone.
pub fn add_port(
    alloc: Global,
    family: Family,
    known: &mut BTreeMap<PortKey, Option<PortInfo>>,
    config: &Config,
    zone: Option<&Text>,
    sources: &Sources<'_>,
    port: &ServicePort,
) -> Result<(), NoMemory>
    ensures { OnOk result (known.new.entries
        ≡ put port_key_cmp (spec.port_key_of sources.now.service port.now)
        (spec.info_of family config.now.node (option_copied zone.entry) (sources.now, port.now))
        known.old.entries) }
{
    let key = port_key_of(alloc, sources.service, port)?;
    let info = info_of(alloc, family, config, zone, sources, port)?;
    known.insert(key, info)?;
    Ok(())
}

/// What is known of a port of a Service, on a node in a zone.
pub fn info_of(
    alloc: Global,
    family: Family,
    config: &Config,
    zone: Option<&Text>,
    sources: &Sources<'_>,
    port: &ServicePort,
) -> Result<Option<PortInfo>, NoMemory>
    ensures { IfOk result (λ i. i
        ≡ spec.info_of family config.now.node (option_copied zone.entry) (sources.now, port.now)) }
{
    let lists = lists_of(alloc, family, config, zone, sources, port)?;
    port_info(alloc, family, sources.service, port, lists)
}

/// The endpoints that a port may send to.
fn lists_of(
    alloc: Global,
    family: Family,
    config: &Config,
    zone: Option<&Text>,
    sources: &Sources<'_>,
    port: &ServicePort,
) -> Result<Lists, NoMemory>
    ensures { IfOk result (λ lists. lists
        ≡ spec.lists_of family sources.now.service port.now (option_copied zone.entry)
        (entries_from family config.now.node sources.now
        (spec.port_key_of sources.now.service port.now))) }
{
    let key = port_key_of(alloc, sources.service, port)?;
    let slices = sources.slices.as_slice();
    let entries = candidates_of(alloc, family, &key, &sources.wanted, slices, &config.node)?;
    categorise(alloc, sources.service, port, &entries, zone)
}
