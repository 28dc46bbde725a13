//! What stands after a sync, made from the ports that differ.
ghost use Rattle.std.specs.Prelude.{◌≡◌, ◌+◌, ◌≤◌, map, IfOk, OnOk, OnErr};
ghost use Rattle.kp_choice_defs.specs.Settings.{setting_of};
ghost use Rattle.kp_writer.specs.Own.{own_rule_count, with_own};
ghost use Rattle.kp_writer.specs.Sync as spec;
ghost use Rattle.kp_writer.specs.Written.{AreBlocksOf, AreOldBlocks, newest_in, written_in};

use crate::infos::{newest_infos, written_infos};
use crate::join::join_touched;
use crate::known::Known;
use crate::next::NextChains;
use crate::own::{leave_all, write_all};
use crate::shared::touched_by;
use kp_base::{Config, Family, NoMemory, PortKey, Steps};
use kp_blocks::Blocks;
use kp_rules::Table;
use kp_tracker::Tracker;
use std::alloc::Global;
use std::sync::ledger::Ledger;

/// What stands after at the places that ports may change: their own chains, and the shared chains
/// that they touch, which are joined. It takes a step for each rule that is made: those that the
/// ports have in their own chains.
pub fn next_chains<L: Ledger>(
    alloc: Global,
    family: Family,
    config: &Config,
    ports: &Tracker<PortKey, Known>,
    blocks: &Blocks,
    aside: &Blocks,
    keys: &[&PortKey],
    table: &Table,
    steps: &mut Steps<L>,
) -> Result<NextChains, NoMemory>
    requires blocks { AreBlocksOf (setting_of family config.now)
        (newest_in ports.now) blocks.now }
    requires old { AreOldBlocks (setting_of family config.now)
        (written_in ports.now) (newest_in ports.now) aside.now }
    ensures next { IfOk result (λ next. next ≡ spec.sync_next table.now.chains blocks.now
        (setting_of family config.now) (written_in ports.now)
        (newest_in ports.now) (map (λ k. k.now) keys.now)) }
    ensures made { OnOk result (steps.old + own_rule_count (setting_of family config.now)
        (spec.infos_at (newest_in ports.now) (map (λ k. k.now) keys.now))
        ≤ steps.new) }
    ensures steps { steps.new ≤ steps.old + own_rule_count (setting_of family config.now)
        (spec.infos_at (newest_in ports.now) (map (λ k. k.now) keys.now)) }
{
    let mut next = own_chains(alloc, family, config, ports, keys, table, steps)?;
    let touched = touched_by(family, ports, blocks, aside, keys);
    join_touched(alloc, family, blocks, &touched, &mut next)?;
    Ok(next)
}

/// What stands after at the places of the ports' own chains.
fn own_chains<L: Ledger>(
    alloc: Global,
    family: Family,
    config: &Config,
    ports: &Tracker<PortKey, Known>,
    keys: &[&PortKey],
    table: &Table,
    steps: &mut Steps<L>,
) -> Result<NextChains, NoMemory>
    ensures next { IfOk result (λ next. next ≡ with_own table.now.chains
        (setting_of family config.now)
        (spec.infos_at (written_in ports.now) (map (λ k. k.now) keys.now))
        (spec.infos_at (newest_in ports.now) (map (λ k. k.now) keys.now))) }
    ensures made { OnOk result (steps.new ≡ steps.old + own_rule_count
        (setting_of family config.now)
        (spec.infos_at (newest_in ports.now) (map (λ k. k.now) keys.now))) }
    ensures steps { OnErr result (steps.new ≤ steps.old + own_rule_count
        (setting_of family config.now)
        (spec.infos_at (newest_in ports.now) (map (λ k. k.now) keys.now))) }
{
    let gone = written_infos(alloc, ports, keys)?;
    let made = newest_infos(alloc, ports, keys)?;
    let mut next = NextChains::new(alloc);
    leave_all(alloc, family, config, &gone, &mut next)?;
    write_all(alloc, family, config, table, &made, &mut next, steps)?;
    Ok(next)
}
