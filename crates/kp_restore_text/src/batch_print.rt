//! Edits are printed as `iptables-restore --noflush` takes them.
ghost use Rattle.std.specs.Prelude.{◌≡◌, ◌++◌, IfOk, OnOk, string_bytes};
ghost use Rattle.std.specs.List.{flat_map, list_any};
ghost use Rattle.kp_base.specs.declared.address.Family.TheVariants.{V4, V6};
ghost use Rattle.kp_restore_defs.specs.BatchText as defs;
ghost use Rattle.kp_restore_text.specs.PrintedEdits as spec;

use crate::print::{push, push_chain, push_chain_rules, push_line, table_line};
use crate::tables::{filter_of, nat_of};
use kp_base::{Family, NoMemory, Text};
use kp_types::{Batch, ChainAt, ChainName, Edit, TableName};
use std::alloc::Global;
use std::collections::BTreeSet;

/// The edits of IPv4's tables as iptables-restore(8) takes them with `--noflush`: a section for
/// each table with an edit, nat before filter. It declares each chain that is written or removed,
/// by bytes, has the rules that are written, and then removes chains.
pub fn batch_text(alloc: Global, batch: &Batch) -> Result<Text, NoMemory>
    ensures { IfOk result (λ t. t ≡ defs.batch_text_of V4 batch.now.edits) }
{
    family_text(alloc, batch, Family::V4)
}

/// The edits of IPv6's tables as ip6tables-restore(8) takes them with `--noflush`, in the form of
/// `batch_text`.
pub fn batch_text_six(alloc: Global, batch: &Batch) -> Result<Text, NoMemory>
    ensures { IfOk result (λ t. t ≡ defs.batch_text_of V6 batch.now.edits) }
{
    family_text(alloc, batch, Family::V6)
}

/// The edits of a family's tables.
fn family_text(alloc: Global, batch: &Batch, family: Family) -> Result<Text, NoMemory>
    ensures { IfOk result (λ t. t ≡ defs.batch_text_of family batch.now.edits) }
{
    let mut text = String::new(alloc);
    push_batch(alloc, &mut text, batch.edits.as_slice(), family)?;
    Text::from_string(text)
}

/// Adds the sections of the edits of both tables of a family.
fn push_batch(
    alloc: Global,
    text: &mut String,
    edits: &[Edit],
    family: Family,
) -> Result<(), NoMemory>
    ensures { OnOk result (string_bytes text.new
        ≡ string_bytes text.old ++ defs.batch_text_of family edits.now) }
{
    push_edits(alloc, text, edits, nat_of(family))?;
    push_edits(alloc, text, edits, filter_of(family))
}

/// Adds the section of one table's edits, if there are any.
fn push_edits(
    alloc: Global,
    text: &mut String,
    edits: &[Edit],
    which: TableName,
) -> Result<(), NoMemory>
    ensures { OnOk result (string_bytes text.new
        ≡ string_bytes text.old ++ spec.edits_text which edits.now) }
{
    if !is_edited(edits, which) {
        return Ok(());
    }
    let names = names_of(alloc, edits, which)?;
    push_line(text, table_line(which))?;
    push_names(text, &names)?;
    push_writes(text, edits, which)?;
    push_removes(text, edits, which)?;
    push_line(text, "COMMIT")
}

/// Whether a table has an edit.
fn is_edited(edits: &[Edit], which: TableName) -> bool
    ensures { result ≡ list_any (λ e. spec.is_in which (defs.place_of e)) edits.now }
{
    for edit in edits {
        if place(edit).table == which {
            return true;
        }
    }
    false
}

/// The place of an edit.
fn place(edit: &Edit) -> &ChainAt
    ensures { result.now ≡ defs.place_of edit.now }
{
    match edit {
        Edit::Write { at, .. } => at,
        Edit::Remove { at } => at,
    }
}

/// The names of a table's chains that are edited, once each, by their bytes.
fn names_of(
    alloc: Global,
    edits: &[Edit],
    which: TableName,
) -> Result<BTreeSet<ChainName>, NoMemory>
    ensures { IfOk result (λ names. names.keys ≡ spec.edited_names which edits.now) }
{
    let mut names = BTreeSet::new(alloc);
    for i in (0..edits.len()).rev() {
        add_name(&mut names, place(&edits[i]), which)?;
    }
    Ok(names)
}

/// Adds the name of a chain, if it is in the table.
fn add_name(names: &mut BTreeSet<ChainName>, at: &ChainAt, which: TableName) -> Result<(), NoMemory>
    ensures { OnOk result (names.new.keys ≡ spec.with_name which at.now names.old.keys) }
{
    if at.table == which {
        names.insert(at.chain.same())?;
    }
    Ok(())
}

/// Adds the lines that declare chains of these names.
fn push_names(text: &mut String, names: &BTreeSet<ChainName>) -> Result<(), NoMemory>
    ensures { OnOk result (string_bytes text.new
        ≡ string_bytes text.old ++ flat_map spec.declared_text names.now.keys) }
{
    for name in names.iter() {
        push_chain(text, name, " - [0:0]")?;
    }
    Ok(())
}

/// Adds the rules that a table's edits write.
fn push_writes(text: &mut String, edits: &[Edit], which: TableName) -> Result<(), NoMemory>
    ensures { OnOk result (string_bytes text.new
        ≡ string_bytes text.old ++ flat_map (spec.written_text which) edits.now) }
{
    for edit in edits {
        push_write(text, edit, which)?;
    }
    Ok(())
}

/// Adds the rules that an edit writes, if it is of the table.
fn push_write(text: &mut String, edit: &Edit, which: TableName) -> Result<(), NoMemory>
    ensures { OnOk result (string_bytes text.new
        ≡ string_bytes text.old ++ spec.written_text which edit.now) }
{
    match edit {
        Edit::Write { at, rules } => {
            if at.table == which {
                push_chain_rules(text, &at.chain, rules.as_slice())?;
            }
            Ok(())
        }
        Edit::Remove { .. } => Ok(()),
    }
}

/// Adds the lines of the chains that a table's edits remove.
fn push_removes(text: &mut String, edits: &[Edit], which: TableName) -> Result<(), NoMemory>
    ensures { OnOk result (string_bytes text.new
        ≡ string_bytes text.old ++ flat_map (spec.removed_text which) edits.now) }
{
    for edit in edits {
        push_remove(text, edit, which)?;
    }
    Ok(())
}

/// Adds the line of a chain that an edit removes, if it is of the table.
fn push_remove(text: &mut String, edit: &Edit, which: TableName) -> Result<(), NoMemory>
    ensures { OnOk result (string_bytes text.new
        ≡ string_bytes text.old ++ spec.removed_text which edit.now) }
{
    match edit {
        Edit::Write { .. } => Ok(()),
        Edit::Remove { at } => {
            if at.table == which {
                push(text, "-X ")?;
                push_line(text, at.chain.as_str())?;
            }
            Ok(())
        }
    }
}
