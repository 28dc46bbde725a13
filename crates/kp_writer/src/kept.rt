//! What is kept of a port: what is known of it, and its block.
ghost use Rattle.std.specs.Prelude.{◌≡◌, OnOk, OnErr};
ghost use Rattle.std.specs.FinMap as finite;
ghost use Rattle.kp_writer.specs.Written.{newest_in, written_in};

use crate::known::Known;
use kp_base::{Copied, Items, NoMemory, PortKey};
use kp_blocks::Blocks;
use kp_tracker::Tracker;
use kp_types::{ChainText, PortInfo};
use std::alloc::Global;

/// Takes over what is known of a port, and its block. Where memory is out, all stays.
pub fn put(
    alloc: Global,
    ports: &mut Tracker<PortKey, Known>,
    blocks: &mut Blocks,
    info: PortInfo,
    block: Items<ChainText>,
) -> Result<(), NoMemory>
    ensures written { written_in ports.new ≡ written_in ports.old }
    ensures newest { OnOk result (newest_in ports.new
        ≡ finite.insert (newest_in ports.old) info.key info) }
    ensures blocks { OnOk result (blocks.new ≡ finite.insert blocks.old info.key block) }
    ensures stays { OnErr result (newest_in ports.new ≡ newest_in ports.old) }
    ensures blocks_stay { OnErr result (blocks.new ≡ blocks.old) }
{
    let key = info.key.copy(alloc)?;
    let back = info.key.copy(alloc)?;
    let place = info.key.copy(alloc)?;
    let known = Known::of(alloc, info)?;
    let had = blocks.swap(place, block)?;
    match ports.update(key, Some(known)) {
        Ok(()) => Ok(()),
        Err(fault) => {
            blocks.put_back(back, had);
            Err(fault)
        }
    }
}

/// Takes over that a port is gone. Where memory is out, all stays.
pub fn drop_port(
    alloc: Global,
    ports: &mut Tracker<PortKey, Known>,
    blocks: &mut Blocks,
    port: &PortKey,
) -> Result<(), NoMemory>
    ensures written { written_in ports.new ≡ written_in ports.old }
    ensures newest { OnOk result (newest_in ports.new
        ≡ finite.remove (newest_in ports.old) port.now) }
    ensures blocks { OnOk result (blocks.new ≡ finite.remove blocks.old port.now) }
    ensures stays { OnErr result (newest_in ports.new ≡ newest_in ports.old) }
    ensures blocks_stay { OnErr result (blocks.new ≡ blocks.old) }
{
    ports.update(port.copy(alloc)?, None)?;
    blocks.drop_port(port);
    Ok(())
}
