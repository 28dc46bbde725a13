//! The fixed chains of nat.
ghost use Rattle.std.specs.Prelude.{◌≡◌, ◌++◌, ◌∷◌, [], IfOk, OnOk, OnErr};
ghost use Rattle.kp_types.specs.Rules.{rule_of};
ghost use Rattle.kp_types.specs.declared.rule.Target.TheVariants.{Jump, SetMark};
ghost use Rattle.kp_table_defs.specs.Layout as layout;
ghost use Rattle.kp_chains.specs.Rows.{rows_of_texts};
ghost use Rattle.kp_chains.specs.Fixed as spec;

use crate::rows::{add_row, one, one_jump, outside_loopback};
use crate::rules::{rule0, rule1, rule2};
use kp_base::{Family, Items, NoMemory};
use kp_types::{ChainName, ChainText, Match, Rule, TableName, Target};
use std::alloc::Global;

/// Adds the fixed chains of a family's nat, with these rules for node ports and for Services.
/// Without memory the rows stay.
pub fn nat_rows(
    alloc: Global,
    family: Family,
    rows: &mut Vec<ChainText>,
    node_ports: Items<Rule>,
    services: Items<Rule>,
) -> Result<(), NoMemory>
    ensures rows { OnOk result (rows_of_texts rows.new.items ≡ rows_of_texts rows.old.items
        ++ layout.nat_rows_with family node_ports services) }
    ensures kept { OnErr result (rows.new.items ≡ rows.old.items) }
{
    let mut fixed = fixed_of_nat(alloc, family, node_ports, services)?;
    Ok(rows.append(&mut fixed)?)
}

/// The fixed chains of a family's nat.
fn fixed_of_nat(
    alloc: Global,
    family: Family,
    node_ports: Items<Rule>,
    services: Items<Rule>,
) -> Result<Vec<ChainText>, NoMemory>
    ensures { IfOk result (λ rows. rows_of_texts rows.items
        ≡ layout.nat_rows_with family node_ports services) }
{
    let mut rows = Vec::new(alloc);
    let table = TableName::nat_of(family);
    hooks_of_nat(alloc, family, &mut rows)?;
    marks_of_nat(alloc, family, &mut rows)?;
    add_row(&mut rows, table, "KUBE-NODEPORTS", node_ports)?;
    let services = with_own_addresses(family, services.into_vec())?;
    add_row(&mut rows, table, "KUBE-SERVICES", services)?;
    Ok(rows)
}

fn hooks_of_nat(alloc: Global, family: Family, rows: &mut Vec<ChainText>) -> Result<(), NoMemory>
    ensures { OnOk result (rows_of_texts rows.new.items
        ≡ rows_of_texts rows.old.items ++ spec.nat_hooks family) }
{
    let table = TableName::nat_of(family);
    let services = one_jump(alloc, "KUBE-SERVICES")?;
    add_row(rows, table, "PREROUTING", services)?;
    let empty = Items::new(alloc);
    add_row(rows, table, "INPUT", empty)?;
    let output = one_jump(alloc, "KUBE-SERVICES")?;
    add_row(rows, table, "OUTPUT", output)?;
    let postrouting = one_jump(alloc, "KUBE-POSTROUTING")?;
    add_row(rows, table, "POSTROUTING", postrouting)?;
    Ok(())
}

fn marks_of_nat(alloc: Global, family: Family, rows: &mut Vec<ChainText>) -> Result<(), NoMemory>
    ensures { OnOk result (rows_of_texts rows.new.items
        ≡ rows_of_texts rows.old.items ++ spec.nat_marks family) }
{
    let table = TableName::nat_of(family);
    let mark = mark_rules(alloc)?;
    add_row(rows, table, "KUBE-MARK-MASQ", mark)?;
    let rules = masquerade_rules(alloc)?;
    add_row(rows, table, "KUBE-POSTROUTING", rules)?;
    Ok(())
}

fn mark_rules(alloc: Global) -> Result<Items<Rule>, NoMemory>
    ensures { IfOk result (λ rs. rs ≡ rule_of [] SetMark ∷ []) }
{
    one(alloc, rule0(Target::SetMark))
}

fn masquerade_rules(alloc: Global) -> Result<Items<Rule>, NoMemory>
    ensures { IfOk result (λ rs. rs ≡ spec.masquerade_rules) }
{
    let mut rules = Vec::new(alloc);
    rules.push(rule1(Match::Marked { not: true }, Target::Return))?;
    rules.push(rule0(Target::FlipMark))?;
    rules.push(rule0(Target::Masquerade))?;
    Ok(Items::from_vec(rules))
}

/// The rules for Services, and behind them the jump for the node's own addresses.
fn with_own_addresses(family: Family, mut services: Vec<Rule>) -> Result<Items<Rule>, NoMemory>
    ensures { IfOk result (λ rs. rs ≡ services.items
        ++ rule_of (layout.own_addresses family) (Jump layout.kube_node_ports) ∷ []) }
{
    services.push(own_address_rule(family))?;
    Ok(Items::from_vec(services))
}

fn own_address_rule(family: Family) -> Rule
    ensures { result ≡ rule_of (layout.own_addresses family) (Jump layout.kube_node_ports) }
{
    let target = Target::Jump(ChainName::new("KUBE-NODEPORTS"));
    rule2(outside_loopback(family), Match::DstLocal, target)
}
