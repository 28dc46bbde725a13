//! The chains of one port.
ghost use Rattle.std.specs.Prelude.{◌≡◌, ◌+◌, ◌++◌, map, IfOk, OnOk, OnErr};
ghost use Rattle.kp_choice_defs.specs.Settings.{setting_of};
ghost use Rattle.kp_object_defs.specs.Lists as Lists;
ghost use Rattle.kp_table_defs.specs.Keys as keys;
ghost use Rattle.kp_table_defs.specs.Layout as layout;
ghost use Rattle.kp_chains.specs.Named as spec;
ghost use Rattle.kp_chains.specs.Rows.{row_of, rows_of_texts, rule_count};

use crate::count::count_chains;
use crate::endpoints::{add_endpoint_chains, add_other_chains};
use crate::external::{external_rules, firewall_chain_rules, port_chain};
use crate::keys::needed_kinds;
use crate::lists::list_rules;
use crate::named::{NamedEndpoint, named};
use kp_base::{Config, Family, Items, NoMemory, Steps};
use kp_types::{ChainAt, ChainText, Policy, PortChain, PortInfo, Rule, TableName};
use std::alloc::Global;
use std::sync::ledger::Ledger;

/// The chains of one port in a family's tables: those that choose among the endpoints of a list, that of what comes in
/// from outside, that of the source ranges, and those of the endpoints. A step is taken for each of
/// their rules; without memory none is.
pub fn info_chains<L: Ledger>(
    alloc: Global,
    family: Family,
    config: &Config,
    info: &PortInfo,
    steps: &mut Steps<L>,
) -> Result<Vec<ChainText>, NoMemory>
    ensures chains { IfOk result (λ rows. rows_of_texts rows.items
        ≡ layout.port_rows (setting_of family config.now) info.now) }
    ensures steps { OnOk result (steps.new
        ≡ steps.old + rule_count (layout.port_rows (setting_of family config.now) info.now)) }
    ensures no_step { OnErr result (steps.new ≡ steps.old) }
{
    let rows = all_chains(alloc, family, config, info)?;
    count_chains(steps, rows.as_slice());
    Ok(rows)
}

/// The chains, uncounted. The name of an endpoint's chain is hashed once a list.
pub fn all_chains(
    alloc: Global,
    family: Family,
    config: &Config,
    info: &PortInfo,
) -> Result<Vec<ChainText>, NoMemory>
    ensures { IfOk result (λ rows. rows_of_texts rows.items
        ≡ layout.port_rows (setting_of family config.now) info.now) }
{
    let cluster = named(alloc, config, info, info.lists.cluster.as_slice())?;
    let local = named(alloc, config, info, info.lists.local.as_slice())?;
    let mut rows = Vec::new(alloc);
    add_kind_chains(alloc, family, &mut rows, config, info, &cluster, &local)?;
    add_endpoint_chains(alloc, family, &mut rows, info, &cluster)?;
    add_other_chains(alloc, family, &mut rows, info, &local)?;
    Ok(rows)
}

/// Adds the chain of each kind that the port needs.
fn add_kind_chains(
    alloc: Global,
    family: Family,
    rows: &mut Vec<ChainText>,
    config: &Config,
    info: &PortInfo,
    cluster: &[NamedEndpoint],
    local: &[NamedEndpoint],
) -> Result<(), NoMemory>
    ensures { OnOk result (rows_of_texts rows.new.items ≡ rows_of_texts rows.old.items
        ++ map (spec.kind_row (setting_of family config.now) info.now cluster.now local.now)
        (keys.needed_kinds info.now)) }
{
    let kinds = needed_kinds(alloc, info)?;
    for kind in &kinds {
        rows.push(kind_chain(alloc, family, config, info, *kind, cluster, local)?)?;
    }
    Ok(())
}

/// The port's chain of a kind.
fn kind_chain(
    alloc: Global,
    family: Family,
    config: &Config,
    info: &PortInfo,
    kind: PortChain,
    cluster: &[NamedEndpoint],
    local: &[NamedEndpoint],
) -> Result<ChainText, NoMemory>
    ensures { IfOk result (λ row. row_of row
        ≡ spec.kind_row (setting_of family config.now) info.now cluster.now local.now kind) }
{
    Ok(ChainText {
        at: ChainAt {
            table: TableName::nat_of(family),
            chain: port_chain(config, info, kind),
        },
        rules: kind_rules(alloc, family, config, info, kind, cluster, local)?,
    })
}

/// Its rules. Of the two lists' chains that of the internal traffic policy marks for masquerading.
fn kind_rules(
    alloc: Global,
    family: Family,
    config: &Config,
    info: &PortInfo,
    kind: PortChain,
    cluster: &[NamedEndpoint],
    local: &[NamedEndpoint],
) -> Result<Items<Rule>, NoMemory>
    ensures { IfOk result (λ rules. rules
        ≡ spec.kind_rules (setting_of family config.now) info.now cluster.now local.now kind) }
{
    let is_local = is_local_policy(info.internal);
    match kind {
        PortChain::Svc => list_rules(alloc, family, config, info, !is_local, cluster),
        PortChain::Svl => list_rules(alloc, family, config, info, is_local, local),
        PortChain::Ext => external_rules(alloc, family, config, info),
        PortChain::Fw => firewall_chain_rules(alloc, config, info),
    }
}

fn is_local_policy(policy: Policy) -> bool
    ensures { result ≡ Lists.is_local_policy policy }
{
    match policy {
        Policy::Cluster => false,
        Policy::Local => true,
    }
}
