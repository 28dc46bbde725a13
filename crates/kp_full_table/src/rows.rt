//! Rows that are put into a table, and whether each makes a chain more.
ghost use Rattle.std.specs.Prelude.{◌≡◌, ◌+◌, ◌==◌, length, IfOk, OnOk};
ghost use Rattle.std.specs.FinMap as finite;
ghost use Rattle.kp_chains.specs.Rows.{rows_of_texts};
ghost use Rattle.kp_chains.specs.Tables.{with_rows};

use kp_base::NoMemory;
use kp_chains::put_rows;
use kp_rules::Table;
use kp_types::ChainText;

/// Puts rows into a table, of two rows with one place the first, and tells whether each made a
/// chain more.
pub fn put_rows_apart(table: &mut Table, rows: Vec<ChainText>) -> Result<bool, NoMemory>
    ensures table { OnOk result (
        table.new ≡ with_rows (rows_of_texts rows.items) table.old) }
    ensures apart { IfOk result (λ apart. apart ≡ (length (finite.keys table.new.chains)
        == length (finite.keys table.old.chains) + length rows.items)) }
{
    let all = table.count() as u128 + rows.len() as u128;
    put_rows(table, rows)?;
    Ok(table.count() as u128 == all)
}
