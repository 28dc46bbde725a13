//! What is known of some ports.
ghost use Rattle.std.specs.Prelude.{◌≡◌, ◌++◌, map, IfOk, OnOk};
ghost use Rattle.std.specs.Option.{option_copied, option_to_list};
ghost use Rattle.kp_writer.specs.Sync.{infos_at};
ghost use Rattle.kp_writer.specs.Written.{newest_in, written_in};

use crate::known::Known;
use kp_base::{NoMemory, PortKey};
use kp_tracker::Tracker;
use kp_types::PortInfo;
use std::alloc::Global;

/// What was written of ports, where something was.
pub fn written_infos<'a>(
    alloc: Global,
    ports: &'a Tracker<PortKey, Known>,
    keys: &[&PortKey],
) -> Result<Vec<&'a PortInfo>, NoMemory>
    ensures { IfOk result (λ infos. map (λ i. i.now) infos.items
        ≡ infos_at (written_in ports.now) (map (λ k. k.now) keys.now)) }
{
    let mut infos = Vec::new(alloc);
    for key in keys {
        add_if(&mut infos, ports.published(key))?;
    }
    Ok(infos)
}

/// What is known of ports now, where something is.
pub fn newest_infos<'a>(
    alloc: Global,
    ports: &'a Tracker<PortKey, Known>,
    keys: &[&PortKey],
) -> Result<Vec<&'a PortInfo>, NoMemory>
    ensures { IfOk result (λ infos. map (λ i. i.now) infos.items
        ≡ infos_at (newest_in ports.now) (map (λ k. k.now) keys.now)) }
{
    let mut infos = Vec::new(alloc);
    for key in keys {
        add_if(&mut infos, ports.newest(key))?;
    }
    Ok(infos)
}

/// Adds what is known of a port, if something is.
fn add_if<'a>(infos: &mut Vec<&'a PortInfo>, known: Option<&'a Known>) -> Result<(), NoMemory>
    ensures { OnOk result (map (λ i. i.now) infos.new.items
        ≡ map (λ i. i.now) infos.old.items ++ option_to_list (option_copied known.entry)) }
{
    if let Some(known) = known {
        infos.push(known.info())?;
    }
    Ok(())
}
