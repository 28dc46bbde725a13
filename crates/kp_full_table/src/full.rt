//! The full table of the objects, and of what is known of the ports.
ghost use Rattle.std.specs.Prelude.{◌≡◌, ◌+◌, ◌*◌, ◌≤◌, List, length, map, None, IfOk};
ghost use Rattle.std.specs.Prelude.{IfErr, OnOk};
ghost use Rattle.kp_choice_defs.specs.Settings.{setting_of, settings_of};
ghost use Rattle.kp_base.specs.declared.config.Config.{Config};
ghost use Rattle.kp_types.specs.Setting as spec;
ghost use Rattle.kp_types.specs.Setting.{config_for};
ghost use Rattle.kp_object_defs.specs.PortInfo as known;
ghost use Rattle.kp_object_defs.specs.PortInfo.{PortInfo, infos_by_family};
ghost use Rattle.kp_table_defs.specs.Layout as layout;
ghost use Rattle.kp_table_defs.specs.Rebuild.{clash_among, clash_of, full_table};
ghost use Rattle.kp_chains.specs.Rows.{rows_of_texts};
ghost use Rattle.kp_chains.specs.Tables.{with_rows};
ghost use Rattle.kp_full_table.specs.Faults.{TellsClash};
ghost use Rattle.kp_full_table.specs.Parts.{IsPartOf, all_port_count, all_rule_count};
ghost use Rattle.kp_full_table.specs.Parts.{families_rule_count};

use crate::fault::TableFault;
use crate::names::check_names;
use crate::part::{Part, joined, no_part, part_of_port};
use crate::rows::put_rows_apart;
use kp_base::{Config, Family, NoMemory, Steps};
use kp_chains::{filter_rows, nat_rows};
use kp_known_ports::port_infos;
use kp_rules::Table;
use kp_store::Objects;
use kp_types::{ChainText, PortInfo, table_families};
use std::alloc::Global;
use std::sync::ledger::Ledger;

/// The full table of the objects, with the tables of each family of the node, laid out as
/// kube-proxy's iptables mode lays them out (Kubernetes documents on virtual IPs), with a count of
/// batches of 0. It is refused exactly where two different chains that are needed in a family have
/// one name. The clash is the first family's: the one whose first chain comes first, and of those
/// the one whose second chain does. It is told before anything of a later family is made. A step is
/// taken for each rule of a port in each family, and one of the other count for each port that the
/// objects are asked about in each family.
pub fn rebuild<L: Ledger, A: Ledger>(
    alloc: Global,
    objects: &Objects,
    config: &Config,
    steps: &mut Steps<L>,
    asked: &mut Steps<A>,
) -> Result<Table, TableFault>
    ensures full { IfOk result (λ t. t ≡ full_table (settings_of config.now) objects.now) }
    ensures no_clash { OnOk result (clash_of (settings_of config.now) objects.now ≡ None) }
    ensures clash { IfErr result (TellsClash (clash_of (settings_of config.now) objects.now)) }
    ensures steps { OnOk result (steps.new ≡ steps.old + families_rule_count
        (settings_of config.now) (infos_by_family (settings_of config.now) objects.now)) }
    ensures bound { steps.new ≤ steps.old + families_rule_count
        (settings_of config.now) (infos_by_family (settings_of config.now) objects.now) }
    ensures asked { OnOk result (asked.new
        ≡ asked.old + length (spec.table_families config.now) * all_port_count objects.now) }
    ensures asked_bound { asked.new
        ≤ asked.old + length (spec.table_families config.now) * all_port_count objects.now }
{
    let mut table = Table::bare(alloc)?;
    for family in table_families(config) {
        add_family(alloc, *family, objects, config, &mut table, steps, asked)?;
    }
    Ok(table)
}

/// Adds the tables of a family, unless two different chains that are needed have one name there. A
/// step is taken for each rule of a port, and one of the other count for each port that the objects
/// are asked about.
fn add_family<L: Ledger, A: Ledger>(
    alloc: Global,
    family: Family,
    objects: &Objects,
    config: &Config,
    table: &mut Table,
    steps: &mut Steps<L>,
    asked: &mut Steps<A>,
) -> Result<(), TableFault>
    ensures table { OnOk result (table.new
        ≡ with_rows (layout.rows_of (setting_of family config.now)
        (known.port_infos family (config_for family config.now) objects.now)) table.old) }
    ensures no_clash { OnOk result (clash_among (setting_of family config.now)
        (known.port_infos family (config_for family config.now) objects.now) ≡ None) }
    ensures clash { IfErr result (TellsClash (clash_among (setting_of family config.now)
        (known.port_infos family (config_for family config.now) objects.now))) }
    ensures steps { OnOk result (steps.new ≡ steps.old
        + all_rule_count (setting_of family config.now)
        (known.port_infos family (config_for family config.now) objects.now)) }
    ensures bound { steps.new ≤ steps.old + all_rule_count (setting_of family config.now)
        (known.port_infos family (config_for family config.now) objects.now) }
    ensures asked { OnOk result (asked.new ≡ asked.old + all_port_count objects.now) }
    ensures asked_bound { asked.new ≤ asked.old + all_port_count objects.now }
{
    let infos = port_infos(alloc, family, objects, config, asked)?;
    add_infos(alloc, family, config, infos.as_slice(), table, steps)
}

/// Adds the tables of ports in a family, unless two different chains that are needed have one name.
/// Where each row makes a chain more none have, so that the names are made again and compared only
/// where rows share a place. A step is taken for each rule of a port.
fn add_infos<L: Ledger>(
    alloc: Global,
    family: Family,
    config: &Config,
    infos: &[PortInfo],
    table: &mut Table,
    steps: &mut Steps<L>,
) -> Result<(), TableFault>
    ensures table { OnOk result (table.new
        ≡ with_rows (layout.rows_of (setting_of family config.now) infos.now) table.old) }
    ensures no_clash { OnOk result (
        clash_among (setting_of family config.now) infos.now ≡ None) }
    ensures clash { IfErr result (
        TellsClash (clash_among (setting_of family config.now) infos.now)) }
    ensures steps { OnOk result (steps.new
        ≡ steps.old + all_rule_count (setting_of family config.now) infos.now) }
    ensures bound { steps.new
        ≤ steps.old + all_rule_count (setting_of family config.now) infos.now }
{
    let rows = rows_of_infos(alloc, family, config, infos, steps)?;
    let apart = put_rows_apart(table, rows)?;
    if apart {
        return Ok(());
    }
    check_names(alloc, config, &references(alloc, infos)?)
}

/// References to ports.
fn references(alloc: Global, infos: &[PortInfo]) -> Result<Vec<&PortInfo>, NoMemory>
    ensures { IfOk result (λ refs. map (λ i. i.now) refs.items ≡ infos.now) }
{
    Ok(infos.iter().collect(alloc)?)
}

/// The rows of the tables of ports in a family. A step is taken for each rule of a port.
fn rows_of_infos<L: Ledger>(
    alloc: Global,
    family: Family,
    config: &Config,
    infos: &[PortInfo],
    steps: &mut Steps<L>,
) -> Result<Vec<ChainText>, NoMemory>
    ensures rows { IfOk result (λ rows. rows_of_texts rows.items
        ≡ layout.rows_of (setting_of family config.now) infos.now) }
    ensures steps { OnOk result (steps.new
        ≡ steps.old + all_rule_count (setting_of family config.now) infos.now) }
    ensures bound { steps.new
        ≤ steps.old + all_rule_count (setting_of family config.now) infos.now }
{
    let part = part_of_ports(alloc, family, config, infos, steps)?;
    rows_of_part(alloc, family, part)
}

/// What all ports contribute in a family, in their order.
fn part_of_ports<L: Ledger>(
    alloc: Global,
    family: Family,
    config: &Config,
    infos: &[PortInfo],
    steps: &mut Steps<L>,
) -> Result<Part, NoMemory>
    ensures part { IfOk result (IsPartOf (setting_of family config.now) infos.now) }
    ensures steps { OnOk result (steps.new
        ≡ steps.old + all_rule_count (setting_of family config.now) infos.now) }
    ensures bound { steps.new
        ≤ steps.old + all_rule_count (setting_of family config.now) infos.now }
{
    let mut part = no_part(alloc);
    for info in infos {
        part = joined(part, part_of_port(alloc, family, config, info, steps)?)?;
    }
    Ok(part)
}

/// The rows of what all ports contribute in a family, between the fixed rules.
fn rows_of_part(alloc: Global, family: Family, part: Part) -> Result<Vec<ChainText>, NoMemory>
    ensures { (config : Config) (infos : List PortInfo)
        → IsPartOf (setting_of family config) infos part → IfOk result (λ rows.
        rows_of_texts rows.items ≡ layout.rows_of (setting_of family config) infos) }
{
    let Part { chains, blocks } = part;
    let mut rows = Vec::new(alloc);
    nat_rows(alloc, family, &mut rows, blocks.node_ports, blocks.services)?;
    filter_rows(
        alloc,
        family,
        &mut rows,
        blocks.firewall,
        blocks.external,
        blocks.refusals,
    )?;
    rows.append(&mut chains.into_vec())?;
    Ok(rows)
}
