//! What a port has in the shared chains.
ghost use Rattle.std.specs.Prelude.{◌≡◌, ◌+◌, ◌≤◌, ◌++◌, ◌∷◌, [], true, IfOk, OnOk};
ghost use Rattle.std.specs.List.{filter};
ghost use Rattle.kp_choice_defs.specs.Settings.{setting_of};
ghost use Rattle.kp_types.specs.Chains.{is_chain_name};
ghost use Rattle.kp_types.specs.Places.{filter_of};
ghost use Rattle.kp_table_defs.specs.Layout as layout;
ghost use Rattle.kp_chains.specs.Blocks.{block_count, blocks_of};
ghost use Rattle.kp_blocks.specs.Joined.{has_rules, port_block, text_of};

use kp_base::{Config, Family, Items, NoMemory, Steps};
use kp_chains::info_blocks;
use kp_types::{ChainAt, ChainName, ChainText, PortInfo, Rule, TableName};
use std::alloc::Global;
use std::sync::ledger::Ledger;

/// A port's rules in each shared chain where it has some. They get no more memory than they take,
/// since those of all ports are kept, and most ports have rules in one. It takes at most a step for
/// each.
pub fn block_of<L: Ledger>(
    alloc: Global,
    family: Family,
    config: &Config,
    info: &PortInfo,
    steps: &mut Steps<L>,
) -> Result<Items<ChainText>, NoMemory>
    ensures block { IfOk result (λ block. block
        ≡ port_block (setting_of family config.now) info.now) }
    ensures more { steps.old ≤ steps.new }
    ensures steps { steps.new
        ≤ steps.old + block_count (blocks_of (setting_of family config.now) info.now) }
{
    let nat = TableName::nat_of(family);
    let blocks = info_blocks(alloc, family, config, info, steps)?;
    let mut block = Vec::with_capacity(alloc, 1)?;
    add(&mut block, nat, "KUBE-SERVICES", blocks.services)?;
    add(&mut block, nat, "KUBE-NODEPORTS", blocks.node_ports)?;
    add_filter(
        &mut block,
        family,
        blocks.firewall,
        blocks.external,
        blocks.refusals,
    )?;
    block.shrink_to_fit();
    Ok(Items::from_vec(block))
}

/// Adds the rules of a family's filter.
fn add_filter(
    block: &mut Vec<ChainText>,
    family: Family,
    firewall: Items<Rule>,
    external: Items<Rule>,
    refusals: Items<Rule>,
) -> Result<(), NoMemory>
    ensures { OnOk result (block.new.items ≡ block.old.items
        ++ filter has_rules (
        text_of (layout.row (filter_of family) layout.kube_proxy_firewall firewall)
        ∷ text_of (layout.row (filter_of family) layout.kube_external_services external)
        ∷ text_of (layout.row (filter_of family) layout.kube_services refusals) ∷ [])) }
{
    let table = TableName::filter_of(family);
    add(block, table, "KUBE-PROXY-FIREWALL", firewall)?;
    add(block, table, "KUBE-EXTERNAL-SERVICES", external)?;
    add(block, table, "KUBE-SERVICES", refusals)?;
    Ok(())
}

/// Adds the rules of one chain, where there are some.
fn add(
    block: &mut Vec<ChainText>,
    table: TableName,
    chain: &str,
    rules: Items<Rule>,
) -> Result<(), NoMemory>
    requires { is_chain_name chain.now ≡ true }
    ensures { OnOk result (block.new.items
        ≡ block.old.items ++ filter has_rules (text_of (layout.row table chain.now rules) ∷ [])) }
{
    if rules.as_slice().is_empty() {
        return Ok(());
    }
    let chain = ChainName::new(chain);
    let mut rules = rules.into_vec();
    rules.shrink_to_fit();
    block.push(ChainText {
        at: ChainAt { table, chain },
        rules: Items::from_vec(rules),
    })?;
    Ok(())
}
