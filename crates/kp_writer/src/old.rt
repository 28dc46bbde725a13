//! The blocks of what was written of ports, where something else is known now.
ghost use Rattle.std.specs.Prelude.{◌≡◌, OnOk, OnErr};
ghost use Rattle.std.specs.Option.{option_copied};
ghost use Rattle.kp_writer.specs.Old as spec;
ghost use Rattle.kp_writer.specs.Written as written;

use crate::known::Known;
use kp_base::{Copied, Items, NoMemory, PortKey};
use kp_blocks::Blocks;
use kp_history_defs::same_info;
use kp_tracker::Tracker;
use kp_types::{ChainText, PortInfo};
use std::alloc::Global;

/// Whether this is what is known of a port.
pub fn is_known(known: Option<&Known>, info: &PortInfo) -> bool
    ensures { result ≡ spec.is_known (option_copied known.entry) info.now }
{
    match known {
        None => false,
        Some(known) => same_info(known.info(), info),
    }
}

/// Whether something else is known of a port than was written.
fn is_pending(ports: &Tracker<PortKey, Known>, port: &PortKey) -> bool
    ensures { result ≡ written.is_pending
        (written.written_in ports.now) (written.newest_in ports.now) port.now }
{
    match (ports.published(port), ports.newest(port)) {
        (None, None) => false,
        (Some(before), Some(now)) => !same_info(before.info(), now.info()),
        _ => true,
    }
}

/// The block of what was written of a port, if anything was. It is set aside where something
/// else is known now.
pub fn written_block<'a>(
    ports: &Tracker<PortKey, Known>,
    blocks: &'a Blocks,
    aside: &'a Blocks,
    port: &PortKey,
) -> Option<&'a Items<ChainText>>
    ensures { option_copied result
        ≡ spec.written_block (written.written_in ports.now) (written.newest_in ports.now)
        blocks.now aside.now port.now }
{
    if ports.published(port).is_none() {
        return None;
    }
    if is_pending(ports, port) {
        aside.block(port)
    } else {
        blocks.block(port)
    }
}

/// Sets the block of what was written of a port aside, before something else is known of it.
/// Where memory is out, all stays.
pub fn set_aside(
    alloc: Global,
    ports: &Tracker<PortKey, Known>,
    blocks: &Blocks,
    aside: &mut Blocks,
    port: &PortKey,
) -> Result<(), NoMemory>
    ensures ok { OnOk result (aside.new
        ≡ spec.with_old (written.written_in ports.now) (written.newest_in ports.now)
        blocks.now aside.old port.now) }
    ensures err { OnErr result (aside.new ≡ aside.old) }
{
    if ports.published(port).is_none() {
        aside.drop_port(port);
        return Ok(());
    }
    if is_pending(ports, port) {
        return Ok(());
    }
    match blocks.block(port) {
        None => aside.drop_port(port),
        Some(block) => aside.put(alloc, port, block.copy(alloc)?)?,
    }
    Ok(())
}
