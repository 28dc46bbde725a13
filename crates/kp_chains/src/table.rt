//! The table of rows.
ghost use Rattle.std.specs.Prelude.{◌≡◌, IfOk, OnErr, OnOk};
ghost use Rattle.kp_chains.specs.Rows.{rows_of_texts};
ghost use Rattle.kp_chains.specs.Tables.{HasLastRows, table_with, with_rows};

use kp_base::NoMemory;
use kp_rules::Table;
use kp_types::ChainText;
use std::alloc::Global;

/// The table of rows. Of two rows with one place the first counts.
pub fn table_of(alloc: Global, rows: Vec<ChainText>) -> Result<Table, NoMemory>
    ensures { IfOk result (λ t. t ≡ table_with (rows_of_texts rows.items)) }
{
    let mut table = Table::bare(alloc)?;
    put_rows(&mut table, rows)?;
    Ok(table)
}

/// Puts rows into a table, in place of the chains at their places. Of two rows with one place the
/// first counts, so it is put last. Where memory runs out the table has some of the last rows.
pub fn put_rows(table: &mut Table, mut rows: Vec<ChainText>) -> Result<(), NoMemory>
    ensures ok { OnOk result (table.new ≡ with_rows (rows_of_texts rows.items) table.old) }
    ensures err { OnErr result (HasLastRows rows.items table.old table.new) }
{
    while let Some(row) = rows.pop() {
        table.put(row.at, row.rules)?;
    }
    Ok(())
}
