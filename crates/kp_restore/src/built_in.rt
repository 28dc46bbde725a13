//! The built-in chains of the tables (iptables(8)) that a section owes.
ghost use Rattle.std.specs.Prelude.{◌≡◌, ◌∷◌, None, IfOk, OnOk, true};
ghost use Rattle.kp_types.specs.Chains.{is_chain_name};
ghost use Rattle.kp_restore.specs.Sections as sections;

use crate::left::Left;
use crate::section::Form;
use kp_base::NoMemory;
use kp_types::{ChainName, TableName};
use std::alloc::Global;

/// The built-in chains that a section of a form owes, in the order of their lines.
pub(crate) fn owed(alloc: Global, form: Form, table: TableName) -> Result<Left<ChainName>, NoMemory>
    ensures { IfOk result (λ names. names ≡ sections.owed form table) }
{
    let mut names = Left::none(alloc);
    match (form, table) {
        (Form::Changes, _) => {}
        (Form::Whole, TableName::Nat | TableName::Nat6) => {
            names.put(ChainName::new("POSTROUTING"))?;
            names.put(ChainName::new("OUTPUT"))?;
            names.put(ChainName::new("INPUT"))?;
            names.put(ChainName::new("PREROUTING"))?;
        }
        (Form::Whole, TableName::Filter | TableName::Filter6) => {
            names.put(ChainName::new("OUTPUT"))?;
            names.put(ChainName::new("FORWARD"))?;
            names.put(ChainName::new("INPUT"))?;
        }
    }
    Ok(names)
}
