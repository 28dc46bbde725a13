//! Which tables can be walked.
ghost use Rattle.std.specs.Prelude.{◌≡◌};
ghost use Rattle.kp_table_defs.specs.Ranks.{is_ranked};

use kp_rules::Table;

/// Whether a table can be walked: each jump goes to a chain of greater rank. A hook whose chain
/// isn't there leaves packets alone.
pub fn can_walk(table: &Table) -> bool
    ensures { result ≡ is_ranked table.now.chains }
{
    table.is_ranked()
}
