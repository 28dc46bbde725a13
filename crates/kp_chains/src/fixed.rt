//! The table of no objects.
ghost use Rattle.std.specs.Prelude.{◌≡◌, ◌++◌, IfOk, OnOk};
ghost use Rattle.std.specs.List.{flat_map};
ghost use Rattle.kp_chains.specs.Rows.{rows_of_texts};
ghost use Rattle.kp_chains.specs.Tables as spec;
ghost use Rattle.kp_chains.specs.Tables.{table_with};

use crate::filter::filter_rows;
use crate::nat::nat_rows;
use crate::table::table_of;
use kp_base::{Family, Items, NoMemory};
use kp_rules::Table;
use kp_types::ChainText;
use std::alloc::Global;

/// The table of no objects, with the tables of these families. Its count of batches is 0.
pub fn fixed_chains(alloc: Global, families: &[Family]) -> Result<Table, NoMemory>
    ensures { IfOk result (λ t. t ≡ table_with (flat_map spec.fixed_rows families.now)) }
{
    let rows = fixed_rows(alloc, families)?;
    table_of(alloc, rows)
}

/// The rows of the tables of these families.
fn fixed_rows(alloc: Global, families: &[Family]) -> Result<Vec<ChainText>, NoMemory>
    ensures { IfOk result (λ rows. rows_of_texts rows.items
        ≡ flat_map spec.fixed_rows families.now) }
{
    let mut rows = Vec::new(alloc);
    for family in families {
        add_fixed_rows(alloc, *family, &mut rows)?;
    }
    Ok(rows)
}

/// Adds the rows of a family's tables of no objects.
fn add_fixed_rows(alloc: Global, family: Family, rows: &mut Vec<ChainText>) -> Result<(), NoMemory>
    ensures { OnOk result (rows_of_texts rows.new.items
        ≡ rows_of_texts rows.old.items ++ spec.fixed_rows family) }
{
    nat_rows(alloc, family, rows, Items::new(alloc), Items::new(alloc))?;
    let empty = Items::new(alloc);
    filter_rows(
        alloc,
        family,
        rows,
        empty,
        Items::new(alloc),
        Items::new(alloc),
    )?;
    Ok(())
}
