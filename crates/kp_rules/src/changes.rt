//! The edits that lead from one table to another.
ghost use Rattle.std.specs.Prelude.{◌≡◌, ◌++◌, false, IfOk, OnOk};
ghost use Rattle.std.specs.FinMap as finite;
ghost use Rattle.std.specs.List.{filter_map};
ghost use Rattle.std.specs.Option.{option_copied, option_to_list};
ghost use Rattle.kp_base.specs.declared.address.Family.TheVariants.{V6};
ghost use Rattle.kp_table_defs.specs.Edits as Edits;
ghost use Rattle.kp_table_defs.specs.Edits.{changes_between, changes_of, table_changes};
ghost use Rattle.kp_rules.specs.Changes as Changes;

use crate::table::Table;
use kp_base::{Copied, Family, Items, NoMemory, Shared};
use kp_types::{Batch, ChainAt, Edit, Rule, TableName};
use std::alloc::Global;

/// The edits that lead from one table to another: in the tables of IPv4 and then in those of IPv6,
/// nat before filter, a write of each chain that is new or whose rules differ, and then a remove of
/// each that is gone, each by name.
pub fn changed(alloc: Global, before: &Table, after: &Table) -> Result<Batch, NoMemory>
    ensures { IfOk result (λ b. b.edits ≡ changes_between before.now.chains after.now.chains) }
{
    let mut edits = Vec::new(alloc);
    add_changes(alloc, before, after, TableName::Nat, &mut edits)?;
    add_changes(alloc, before, after, TableName::Filter, &mut edits)?;
    add_six(alloc, before, after, &mut edits)?;
    Ok(Batch {
        edits: Items::from_vec(edits),
    })
}

/// Adds the changes of the tables of IPv6, where there is a chain of them.
fn add_six(
    alloc: Global,
    before: &Table,
    after: &Table,
    edits: &mut Vec<Edit>,
) -> Result<(), NoMemory>
    ensures { OnOk result (edits.new.items
        ≡ edits.old.items ++ changes_of V6 before.now.chains after.now.chains) }
{
    if !has_six(before) && !has_six(after) {
        return Ok(());
    }
    add_changes(alloc, before, after, TableName::Nat6, edits)?;
    add_changes(alloc, before, after, TableName::Filter6, edits)
}

/// Whether there is a chain of IPv6. These stand after all others, so that the last place tells.
fn has_six(table: &Table) -> bool
    ensures { result ≡ false → Changes.AreOutside V6 (finite.keys table.now.chains) }
{
    match table.places().last() {
        None => false,
        Some(last) => match last.table.family() {
            Family::V4 => false,
            Family::V6 => true,
        },
    }
}

/// Adds the changes of one table.
fn add_changes(
    alloc: Global,
    before: &Table,
    after: &Table,
    table: TableName,
    edits: &mut Vec<Edit>,
) -> Result<(), NoMemory>
    ensures { OnOk result (edits.new.items
        ≡ edits.old.items ++ table_changes before.now.chains after.now.chains table) }
{
    add_writes(alloc, before, after, table, edits)?;
    add_removes(before, after, table, edits)
}

/// Adds the writes of one table's chains.
fn add_writes(
    alloc: Global,
    before: &Table,
    after: &Table,
    table: TableName,
    edits: &mut Vec<Edit>,
) -> Result<(), NoMemory>
    ensures { OnOk result (edits.new.items
        ≡ edits.old.items ++ filter_map
        (Changes.write_at before.now.chains after.now.chains table)
        (finite.keys after.now.chains)) }
{
    for at in after.places() {
        add(write_at(alloc, before, after, table, at)?, edits)?;
    }
    Ok(())
}

/// The write of one table's chain at this place, where it is new or its rules differ.
fn write_at(
    alloc: Global,
    before: &Table,
    after: &Table,
    table: TableName,
    at: &ChainAt,
) -> Result<Option<Edit>, NoMemory>
    ensures { IfOk result (λ e. e
        ≡ Changes.write_at before.now.chains after.now.chains table at.now) }
{
    if !is_in(table, at) {
        return Ok(None);
    }
    let Some(rules) = after.chain(at) else {
        return Ok(None);
    };
    if is_found_with(rules, before.chain(at)) {
        return Ok(None);
    }
    Ok(Some(Edit::Write {
        at: at.same(),
        rules: rules.copy(alloc)?,
    }))
}

/// Adds the removes of one table's chains.
fn add_removes(
    before: &Table,
    after: &Table,
    table: TableName,
    edits: &mut Vec<Edit>,
) -> Result<(), NoMemory>
    ensures { OnOk result (edits.new.items
        ≡ edits.old.items ++ filter_map (Changes.remove_at after.now.chains table)
        (finite.keys before.now.chains)) }
{
    for at in before.places() {
        add(remove_at(after, table, at), edits)?;
    }
    Ok(())
}

/// The remove of one table's chain at this place, where it is gone.
fn remove_at(after: &Table, table: TableName, at: &ChainAt) -> Option<Edit>
    ensures { result ≡ Changes.remove_at after.now.chains table at.now }
{
    if is_in(table, at) && after.chain(at).is_none() {
        Some(Edit::Remove { at: at.same() })
    } else {
        None
    }
}

/// Adds an edit, if there is one.
fn add(edit: Option<Edit>, edits: &mut Vec<Edit>) -> Result<(), NoMemory>
    ensures { OnOk result (edits.new.items ≡ edits.old.items ++ option_to_list edit) }
{
    if let Some(edit) = edit {
        edits.push(edit)?;
    }
    Ok(())
}

/// Whether a place is in a table.
fn is_in(table: TableName, at: &ChainAt) -> bool
    ensures { result ≡ Changes.is_in table at.now }
{
    at.table == table
}

/// Whether a chain is found with these rules.
fn is_found_with(rules: &Shared<Rule>, found: Option<&Shared<Rule>>) -> bool
    ensures { result ≡ Edits.is_found_with rules.now (option_copied found.entry) }
{
    match found {
        None => false,
        Some(found) => found.as_slice() == rules.as_slice(),
    }
}
