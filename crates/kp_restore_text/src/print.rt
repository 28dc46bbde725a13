//! Tables are printed as `iptables-restore` takes them.
ghost use Rattle.std.specs.Prelude.{◌≡◌, ◌∷◌, ◌++◌, map, IfOk, OnOk, string_bytes};
ghost use Rattle.std.specs.List.{flat_map};
ghost use Rattle.kp_base.specs.declared.address.Family.TheVariants.{V4, V6};
ghost use Rattle.kp_restore_defs.specs.RuleText.{rule_line};
ghost use Rattle.kp_restore_defs.specs.TableText as defs;
ghost use Rattle.kp_restore_text.specs.Printed as spec;

use crate::places::{built_in_places, other_places};
use crate::tables::{filter_of, nat_of};
use kp_base::{Family, NoMemory, Text};
use kp_rule_text::push_rule;
use kp_rules::Table;
use kp_types::{ChainAt, ChainName, Rule, TableName};
use std::alloc::Global;

/// The section of one table as iptables-restore(8) takes it: the line that names the table, its
/// chains, built-in ones first and the others by their bytes, the rules of each, and `COMMIT`.
pub fn section_text(alloc: Global, table: &Table, which: TableName) -> Result<Text, NoMemory>
    ensures { IfOk result (λ t. t ≡ defs.section_text_of table.now.chains which) }
{
    let mut text = String::new(alloc);
    push_section(alloc, &mut text, table, which)?;
    Text::from_string(text)
}

/// The sections of both IPv4 tables as iptables-restore(8) takes them, nat before filter.
pub fn table_text(alloc: Global, table: &Table) -> Result<Text, NoMemory>
    ensures { IfOk result (λ t. t ≡ defs.table_text_of V4 table.now.chains) }
{
    family_text(alloc, table, Family::V4)
}

/// The sections of both IPv6 tables as ip6tables-restore(8) takes them, nat before filter.
pub fn table_text_six(alloc: Global, table: &Table) -> Result<Text, NoMemory>
    ensures { IfOk result (λ t. t ≡ defs.table_text_of V6 table.now.chains) }
{
    family_text(alloc, table, Family::V6)
}

/// The sections of both tables of a family.
fn family_text(alloc: Global, table: &Table, family: Family) -> Result<Text, NoMemory>
    ensures { IfOk result (λ t. t ≡ defs.table_text_of family table.now.chains) }
{
    let mut text = String::new(alloc);
    push_table(alloc, &mut text, table, family)?;
    Text::from_string(text)
}

/// Adds the sections of both tables of a family.
fn push_table(
    alloc: Global,
    text: &mut String,
    table: &Table,
    family: Family,
) -> Result<(), NoMemory>
    ensures { OnOk result (string_bytes text.new
        ≡ string_bytes text.old ++ defs.table_text_of family table.now.chains) }
{
    push_section(alloc, text, table, nat_of(family))?;
    push_section(alloc, text, table, filter_of(family))
}

/// Adds the section of one table.
fn push_section(
    alloc: Global,
    text: &mut String,
    table: &Table,
    which: TableName,
) -> Result<(), NoMemory>
    ensures { OnOk result (string_bytes text.new
        ≡ string_bytes text.old ++ defs.section_text_of table.now.chains which) }
{
    let built_in = built_in_places(alloc, table, which)?;
    let others = other_places(alloc, table, which)?;
    push_line(text, table_line(which))?;
    push_chains(text, built_in.as_slice(), " ACCEPT [0:0]")?;
    push_chains(text, others.as_slice(), " - [0:0]")?;
    push_rules(text, table, built_in.as_slice())?;
    push_rules(text, table, others.as_slice())?;
    push_line(text, "COMMIT")
}

/// The first line of a table's section.
pub(crate) fn table_line(which: TableName) -> &'static str
    ensures { result.now ≡ defs.table_line which }
{
    match which {
        TableName::Nat | TableName::Nat6 => "*nat",
        TableName::Filter | TableName::Filter6 => "*filter",
    }
}

/// Adds the lines that declare chains, with what stands behind a chain's name.
fn push_chains(text: &mut String, places: &[ChainAt], end: &str) -> Result<(), NoMemory>
    ensures { OnOk result (string_bytes text.new
        ≡ string_bytes text.old ++ flat_map (spec.chain_text end.now) places.now) }
{
    for at in places {
        push_chain(text, &at.chain, end)?;
    }
    Ok(())
}

/// Adds the line that declares a chain.
pub(crate) fn push_chain(text: &mut String, chain: &ChainName, end: &str) -> Result<(), NoMemory>
    ensures { OnOk result (string_bytes text.new
        ≡ string_bytes text.old ++ spec.ended (58 ∷ chain.now ++ end.now)) }
{
    push(text, ":")?;
    push(text, chain.as_str())?;
    push_line(text, end)
}

/// Adds the rules of the chains at these places.
fn push_rules(text: &mut String, table: &Table, places: &[ChainAt]) -> Result<(), NoMemory>
    ensures { OnOk result (string_bytes text.new
        ≡ string_bytes text.old ++ flat_map (spec.rules_at table.now.chains) places.now) }
{
    for at in places {
        push_rules_at(text, table, at)?;
    }
    Ok(())
}

/// Adds the rules of the chain at a place.
fn push_rules_at(text: &mut String, table: &Table, at: &ChainAt) -> Result<(), NoMemory>
    ensures { OnOk result (string_bytes text.new
        ≡ string_bytes text.old ++ spec.rules_at table.now.chains at.now) }
{
    match table.chain(at) {
        None => Ok(()),
        Some(rules) => push_chain_rules(text, &at.chain, rules.as_slice()),
    }
}

/// Adds the rules of a chain.
pub(crate) fn push_chain_rules(
    text: &mut String,
    chain: &ChainName,
    rules: &[Rule],
) -> Result<(), NoMemory>
    ensures { OnOk result (string_bytes text.new
        ≡ string_bytes text.old ++ defs.text_of_lines (map (rule_line chain.now) rules.now)) }
{
    for rule in rules {
        push_rule(text, chain, rule)?;
        push(text, "\n")?;
    }
    Ok(())
}

/// Adds a line and its line feed.
pub(crate) fn push_line(text: &mut String, line: &str) -> Result<(), NoMemory>
    ensures { OnOk result (string_bytes text.new ≡ string_bytes text.old ++ spec.ended line.now) }
{
    push(text, line)?;
    push(text, "\n")
}

/// Adds a text.
pub(crate) fn push(text: &mut String, added: &str) -> Result<(), NoMemory>
    ensures { OnOk result (string_bytes text.new ≡ string_bytes text.old ++ added.now) }
{
    Ok(text.push_str(added)?)
}
