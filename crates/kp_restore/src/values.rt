//! What sections say: a table, or the edits of a batch.
ghost use Rattle.std.specs.Prelude.{◌≡◌, ◌++◌, IfOk, OnOk};
ghost use Rattle.kp_restore.specs.Steps as spec;

use crate::left::Left;
use crate::section::{Row, Section};
use kp_base::{Items, NoMemory, Shared};
use kp_rules::Table;
use kp_types::{Batch, ChainAt, Edit, TableName};
use std::alloc::Global;

/// The table with the chains of sections.
pub(crate) fn table_of(alloc: Global, sections: Items<Section>) -> Result<Table, NoMemory>
    ensures { IfOk result (λ t. t ≡ spec.with_sections spec.no_chains sections) }
{
    let mut table = Table::bare(alloc)?;
    let mut left = Left::of(alloc, sections)?;
    while let Some(section) = left.pop() {
        put_rows(&mut table, section.table, section.rows)?;
    }
    Ok(table)
}

/// Puts the rules of chains into a table.
fn put_rows(table: &mut Table, which: TableName, mut left: Left<Row>) -> Result<(), NoMemory>
    ensures { OnOk result (table.new ≡ spec.with_rows which table.old left) }
{
    while let Some(row) = left.pop() {
        let at = ChainAt {
            table: which,
            chain: row.chain,
        };
        table.put(at, row.rules)?;
    }
    Ok(())
}

/// The edits of sections.
pub(crate) fn batch_of(alloc: Global, sections: Items<Section>) -> Result<Batch, NoMemory>
    ensures { IfOk result (λ batch. batch.edits ≡ spec.edits_in_sections sections) }
{
    let mut edits = Vec::new(alloc);
    let mut left = Left::of(alloc, sections)?;
    while let Some(section) = left.pop() {
        add_edits(alloc, section.table, section.rows, &mut edits)?;
    }
    Ok(Batch {
        edits: Items::from_vec(edits),
    })
}

/// Adds the edits of a section: first its writes, and then its removes.
fn add_edits(
    alloc: Global,
    table: TableName,
    mut left: Left<Row>,
    edits: &mut Vec<Edit>,
) -> Result<(), NoMemory>
    ensures { OnOk result (edits.new.items ≡ edits.old.items ++ spec.edits_of table left) }
{
    let mut removes = Vec::new(alloc);
    while let Some(row) = left.pop() {
        add_edit(alloc, table, row, edits, &mut removes)?;
    }
    edits.append(&mut removes)?;
    Ok(())
}

/// Adds the edit of a chain to the writes or to the removes.
fn add_edit(
    alloc: Global,
    table: TableName,
    row: Row,
    writes: &mut Vec<Edit>,
    removes: &mut Vec<Edit>,
) -> Result<(), NoMemory>
    ensures writes { OnOk result (writes.new.items
        ≡ writes.old.items ++ spec.written table row) }
    ensures removes { OnOk result (removes.new.items
        ≡ removes.old.items ++ spec.removed table row) }
{
    let Row {
        chain,
        rules,
        removed,
    } = row;
    let at = ChainAt { table, chain };
    if removed {
        removes.push(Edit::Remove { at })?;
    } else {
        let rules = Shared::of(alloc, rules)?;
        writes.push(Edit::Write { at, rules })?;
    }
    Ok(())
}
