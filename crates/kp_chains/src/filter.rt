//! The fixed chains of filter.
ghost use Rattle.std.specs.Prelude.{◌≡◌, ◌++◌, IfOk, OnOk, OnErr};
ghost use Rattle.kp_table_defs.specs.Layout as layout;
ghost use Rattle.kp_chains.specs.Rows.{rows_of_texts};
ghost use Rattle.kp_chains.specs.Fixed as spec;

use crate::rows::{add_row, one, two_jumps};
use crate::rules::{jump, rule1};
use kp_base::{Family, Items, NoMemory};
use kp_types::{ChainName, ChainText, Match, Rule, TableName, Target};
use std::alloc::Global;

/// Adds the fixed chains of a family's filter, with these rules of the firewall, for what comes in
/// from outside and for Services. Without memory the rows stay.
pub fn filter_rows(
    alloc: Global,
    family: Family,
    rows: &mut Vec<ChainText>,
    firewall: Items<Rule>,
    external: Items<Rule>,
    services: Items<Rule>,
) -> Result<(), NoMemory>
    ensures rows { OnOk result (rows_of_texts rows.new.items ≡ rows_of_texts rows.old.items
        ++ layout.filter_rows_with family firewall external services) }
    ensures kept { OnErr result (rows.new.items ≡ rows.old.items) }
{
    let mut fixed = fixed_of_filter(alloc, family, firewall, external, services)?;
    Ok(rows.append(&mut fixed)?)
}

/// The fixed chains of a family's filter.
fn fixed_of_filter(
    alloc: Global,
    family: Family,
    firewall: Items<Rule>,
    external: Items<Rule>,
    services: Items<Rule>,
) -> Result<Vec<ChainText>, NoMemory>
    ensures { IfOk result (λ rows. rows_of_texts rows.items
        ≡ layout.filter_rows_with family firewall external services) }
{
    let mut rows = Vec::new(alloc);
    let table = TableName::filter_of(family);
    hooks_of_filter(alloc, family, &mut rows)?;
    let forward = accept_rules(alloc)?;
    add_row(&mut rows, table, "KUBE-FORWARD", forward)?;
    add_row(&mut rows, table, "KUBE-PROXY-FIREWALL", firewall)?;
    add_row(&mut rows, table, "KUBE-EXTERNAL-SERVICES", external)?;
    add_row(&mut rows, table, "KUBE-SERVICES", services)?;
    Ok(rows)
}

fn hooks_of_filter(alloc: Global, family: Family, rows: &mut Vec<ChainText>) -> Result<(), NoMemory>
    ensures { OnOk result (rows_of_texts rows.new.items
        ≡ rows_of_texts rows.old.items ++ spec.filter_hooks family) }
{
    let table = TableName::filter_of(family);
    let input = two_jumps(alloc, "KUBE-PROXY-FIREWALL", "KUBE-EXTERNAL-SERVICES")?;
    add_row(rows, table, "INPUT", input)?;
    let forward = forward_rules(alloc)?;
    add_row(rows, table, "FORWARD", forward)?;
    let output = two_jumps(alloc, "KUBE-PROXY-FIREWALL", "KUBE-SERVICES")?;
    add_row(rows, table, "OUTPUT", output)?;
    Ok(())
}

fn forward_rules(alloc: Global) -> Result<Items<Rule>, NoMemory>
    ensures { IfOk result (λ rs. rs ≡ spec.forward_rules) }
{
    let mut rules = Vec::new(alloc);
    rules.push(jump(ChainName::new("KUBE-PROXY-FIREWALL")))?;
    rules.push(jump(ChainName::new("KUBE-EXTERNAL-SERVICES")))?;
    rules.push(jump(ChainName::new("KUBE-SERVICES")))?;
    rules.push(jump(ChainName::new("KUBE-FORWARD")))?;
    Ok(Items::from_vec(rules))
}

fn accept_rules(alloc: Global) -> Result<Items<Rule>, NoMemory>
    ensures { IfOk result (λ rs. rs ≡ spec.accept_rules) }
{
    one(alloc, rule1(Match::Marked { not: false }, Target::Accept))
}
