//! The chains of ports, before and after.
ghost use Rattle.std.specs.Prelude.{◌≡◌, ◌+◌, ◌≤◌, map, OnOk};
ghost use Rattle.std.specs.List.{fold};
ghost use Rattle.kp_choice_defs.specs.Settings.{setting_of};
ghost use Rattle.kp_table_defs.specs.Layout.{place_of_key, port_rows};
ghost use Rattle.kp_chains.specs.Rows.{rows_of_texts, rule_count};
ghost use Rattle.kp_writer.specs.Next as next_spec;
ghost use Rattle.kp_writer.specs.Own as spec;

use crate::next::NextChains;
use kp_base::{Config, Family, NoMemory, Steps};
use kp_chains::{info_chains, own_keys};
use kp_names::Namer;
use kp_rules::Table;
use kp_types::{ChainAt, ChainKey, ChainText, PortInfo, TableName};
use std::alloc::Global;
use std::sync::ledger::Ledger;

/// The chains of ports are gone. No rule is made.
pub fn leave_all(
    alloc: Global,
    family: Family,
    config: &Config,
    infos: &[&PortInfo],
    next: &mut NextChains,
) -> Result<(), NoMemory>
    ensures { OnOk result (next.new ≡ spec.left (setting_of family config.now) next.old
        (map (λ i. i.now) infos.now)) }
{
    for info in infos {
        leave_port(alloc, family, config, info, next)?;
    }
    Ok(())
}

/// The chains of one port are gone.
fn leave_port(
    alloc: Global,
    family: Family,
    config: &Config,
    info: &PortInfo,
    next: &mut NextChains,
) -> Result<(), NoMemory>
    ensures { OnOk result (next.new ≡ fold next_spec.leave next.old
        (spec.places_of (setting_of family config.now) info.now)) }
{
    let keys = own_keys(alloc, info)?;
    for key in &keys {
        next.leave(place_of(family, config, key))?;
    }
    Ok(())
}

/// Where the chain of a key stands.
fn place_of(family: Family, config: &Config, key: &ChainKey) -> ChainAt
    ensures { result ≡ place_of_key (setting_of family config.now) key.now }
{
    ChainAt {
        table: TableName::nat_of(family),
        chain: Namer::new(config.name_length).chain_name(key),
    }
}

/// Ports have their chains. A step is taken for each rule.
pub fn write_all<L: Ledger>(
    alloc: Global,
    family: Family,
    config: &Config,
    before: &Table,
    infos: &[&PortInfo],
    next: &mut NextChains,
    steps: &mut Steps<L>,
) -> Result<(), NoMemory>
    ensures next { OnOk result (next.new ≡ spec.written before.now.chains
        (setting_of family config.now) next.old (map (λ i. i.now) infos.now)) }
    ensures made { OnOk result (steps.new ≡ steps.old + spec.own_rule_count
        (setting_of family config.now) (map (λ i. i.now) infos.now)) }
    ensures steps { steps.new ≤ steps.old + spec.own_rule_count
        (setting_of family config.now) (map (λ i. i.now) infos.now) }
{
    for info in infos {
        write_port(alloc, family, config, before, info, next, steps)?;
    }
    Ok(())
}

/// One port has its chains.
fn write_port<L: Ledger>(
    alloc: Global,
    family: Family,
    config: &Config,
    before: &Table,
    info: &PortInfo,
    next: &mut NextChains,
    steps: &mut Steps<L>,
) -> Result<(), NoMemory>
    ensures next { OnOk result (next.new ≡ fold (next_spec.write before.now.chains) next.old
        (port_rows (setting_of family config.now) info.now)) }
    ensures made { OnOk result (steps.new
        ≡ steps.old + rule_count (port_rows (setting_of family config.now) info.now)) }
    ensures steps { steps.new
        ≤ steps.old + rule_count (port_rows (setting_of family config.now) info.now) }
{
    let rows = info_chains(alloc, family, config, info, steps)?;
    write_rows(alloc, before, rows, next)
}

/// Chains stand at their places.
fn write_rows(
    alloc: Global,
    before: &Table,
    rows: Vec<ChainText>,
    next: &mut NextChains,
) -> Result<(), NoMemory>
    ensures { OnOk result (next.new ≡ fold (next_spec.write before.now.chains) next.old
        (rows_of_texts rows.items)) }
{
    for row in rows {
        next.write(alloc, before, row)?;
    }
    Ok(())
}
