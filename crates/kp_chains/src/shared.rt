//! The rules of one port of a Service in the shared chains.
ghost use Rattle.std.specs.Prelude.{◌≡◌, ◌+◌, ◌++◌, ◌∷◌, [], IfOk, OnOk, OnErr};
ghost use Rattle.kp_choice_defs.specs.Settings.{setting_of};
ghost use Rattle.kp_types.specs.Places.{filter_of};
ghost use Rattle.kp_table_defs.specs.Layout as layout;
ghost use Rattle.kp_chains.specs.Rows.{rows_of_texts, rule_count};
ghost use Rattle.kp_port_info.specs.Infos.{known_of};
ghost use Rattle.kp_chains.specs.Blocks as spec;
ghost use Rattle.kp_chains.specs.Blocks.{block_rows_known, blocks_of};

use crate::blocks::{Blocks, all_blocks};
use crate::count::count_chains;
use crate::rows::add_row;
use kp_base::{Config, Copied, Family, Items, NoMemory, Steps};
use kp_port_info::port_info;
use kp_types::{ChainText, Lists, PortInfo, Rule, Service, ServicePort, TableName};
use std::alloc::Global;
use std::sync::ledger::Ledger;

/// The rules of a port of a Service with these lists of endpoints in each shared chain of a
/// family's tables, laid out as kube-proxy's iptables mode lays them out (Kubernetes documents on
/// virtual IPs): no chain where the Service has no cluster address of the family. A step is taken
/// for each rule; without memory none is.
pub fn port_block<L: Ledger>(
    alloc: Global,
    family: Family,
    service: &Service,
    port: &ServicePort,
    lists: &Lists,
    config: &Config,
    steps: &mut Steps<L>,
) -> Result<Items<ChainText>, NoMemory>
    ensures block { IfOk result (λ cs. rows_of_texts cs ≡ block_rows_known
        (setting_of family config.now) (known_of family service.now port.now lists.now)) }
    ensures steps { OnOk result (steps.new ≡ steps.old + rule_count (block_rows_known
        (setting_of family config.now) (known_of family service.now port.now lists.now))) }
    ensures no_step { OnErr result (steps.new ≡ steps.old) }
{
    match port_info(alloc, family, service, port, lists.copy(alloc)?)? {
        Some(info) => counted_block(alloc, family, config, &info, steps),
        None => Ok(Items::new(alloc)),
    }
}

/// The rules of one port in each shared chain. A step is taken for each; without memory none is.
fn counted_block<L: Ledger>(
    alloc: Global,
    family: Family,
    config: &Config,
    info: &PortInfo,
    steps: &mut Steps<L>,
) -> Result<Items<ChainText>, NoMemory>
    ensures block { IfOk result (λ cs. rows_of_texts cs
        ≡ spec.rows_of_blocks family (blocks_of (setting_of family config.now) info.now)) }
    ensures steps { OnOk result (steps.new ≡ steps.old
        + rule_count
        (spec.rows_of_blocks family (blocks_of (setting_of family config.now) info.now))) }
    ensures no_step { OnErr result (steps.new ≡ steps.old) }
{
    let block = rows_of_blocks(alloc, family, all_blocks(alloc, family, config, info)?)?;
    count_chains(steps, block.as_slice());
    Ok(block)
}

/// Blocks, each under the place of its chain in the family's tables.
fn rows_of_blocks(
    alloc: Global,
    family: Family,
    blocks: Blocks,
) -> Result<Items<ChainText>, NoMemory>
    ensures { IfOk result (λ rows. rows_of_texts rows ≡ spec.rows_of_blocks family blocks) }
{
    let mut rows = Vec::new(alloc);
    let nat = TableName::nat_of(family);
    add_row(&mut rows, nat, "KUBE-SERVICES", blocks.services)?;
    add_row(&mut rows, nat, "KUBE-NODEPORTS", blocks.node_ports)?;
    add_filter_rows(
        family,
        &mut rows,
        blocks.firewall,
        blocks.external,
        blocks.refusals,
    )?;
    Ok(Items::from_vec(rows))
}

/// Adds the blocks of the family's filter.
fn add_filter_rows(
    family: Family,
    rows: &mut Vec<ChainText>,
    firewall: Items<Rule>,
    external: Items<Rule>,
    refusals: Items<Rule>,
) -> Result<(), NoMemory>
    ensures { OnOk result (rows_of_texts rows.new.items ≡ rows_of_texts rows.old.items
        ++ (layout.row (filter_of family) layout.kube_proxy_firewall firewall
        ∷ layout.row (filter_of family) layout.kube_external_services external
        ∷ layout.row (filter_of family) layout.kube_services refusals ∷ [])) }
{
    let table = TableName::filter_of(family);
    add_row(rows, table, "KUBE-PROXY-FIREWALL", firewall)?;
    add_row(rows, table, "KUBE-EXTERNAL-SERVICES", external)?;
    add_row(rows, table, "KUBE-SERVICES", refusals)?;
    Ok(())
}
