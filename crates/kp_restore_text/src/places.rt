//! The places of a table's chains, in the order of its text.
ghost use Rattle.std.specs.Prelude.{◌≡◌, [], ◌∷◌, ◌++◌, IfOk, OnOk, true};
ghost use Rattle.std.specs.List.{filter};
ghost use Rattle.kp_types.specs.Chains.{is_chain_name};
ghost use Rattle.kp_table_defs.specs.Ranks.{nat_chains, filter_chains};
ghost use Rattle.kp_restore_text.specs.Printed as spec;

use kp_base::{Items, NoMemory};
use kp_rules::{Table, is_built_in};
use kp_types::{ChainAt, ChainName, TableName};
use std::alloc::Global;

/// The places of the built-in chains that there are, in their order.
pub(crate) fn built_in_places(
    alloc: Global,
    table: &Table,
    which: TableName,
) -> Result<Items<ChainAt>, NoMemory>
    ensures { IfOk result (λ places. places ≡ spec.built_in_places table.now.chains which) }
{
    let mut places = Vec::new(alloc);
    add_built_in(table, which, &mut places)?;
    Ok(Items::from_vec(places))
}

/// Adds the places of a table's built-in chains.
fn add_built_in(table: &Table, which: TableName, places: &mut Vec<ChainAt>) -> Result<(), NoMemory>
    ensures { OnOk result (places.new.items
        ≡ places.old.items ++ spec.built_in_places table.now.chains which) }
{
    match which {
        TableName::Nat | TableName::Nat6 => add_nat(table, which, places),
        TableName::Filter | TableName::Filter6 => add_filter(table, which, places),
    }
}

/// Adds the places of the built-in chains of a nat table.
fn add_nat(table: &Table, which: TableName, places: &mut Vec<ChainAt>) -> Result<(), NoMemory>
    ensures { OnOk result (places.new.items
        ≡ places.old.items ++ spec.places_there table.now.chains which nat_chains) }
{
    add_if_there(table, place(which, "PREROUTING"), places)?;
    add_if_there(table, place(which, "INPUT"), places)?;
    add_if_there(table, place(which, "OUTPUT"), places)?;
    add_if_there(table, place(which, "POSTROUTING"), places)
}

/// Adds the places of the built-in chains of a filter table.
fn add_filter(table: &Table, which: TableName, places: &mut Vec<ChainAt>) -> Result<(), NoMemory>
    ensures { OnOk result (places.new.items
        ≡ places.old.items ++ spec.places_there table.now.chains which filter_chains) }
{
    add_if_there(table, place(which, "INPUT"), places)?;
    add_if_there(table, place(which, "FORWARD"), places)?;
    add_if_there(table, place(which, "OUTPUT"), places)
}

/// The place of a chain.
fn place(table: TableName, name: &str) -> ChainAt
    requires { is_chain_name name.now ≡ true }
    ensures { result ≡ spec.place table name.now }
{
    ChainAt {
        table,
        chain: ChainName::new(name),
    }
}

/// Adds a place that has a chain.
fn add_if_there(table: &Table, at: ChainAt, places: &mut Vec<ChainAt>) -> Result<(), NoMemory>
    ensures { OnOk result (places.new.items
        ≡ places.old.items ++ spec.if_there table.now.chains at) }
{
    if table.chain(&at).is_some() {
        places.push(at)?;
    }
    Ok(())
}

/// The places of the other chains, by the bytes of their names.
pub(crate) fn other_places(
    alloc: Global,
    table: &Table,
    which: TableName,
) -> Result<Items<ChainAt>, NoMemory>
    ensures { IfOk result (λ places. places ≡ spec.other_places table.now.chains which) }
{
    let mut places = Vec::new(alloc);
    for at in table.places() {
        add_if_other(at, which, &mut places)?;
    }
    Ok(Items::from_vec(places))
}

/// Adds a place of a table whose chain isn't built in.
fn add_if_other(at: &ChainAt, which: TableName, places: &mut Vec<ChainAt>) -> Result<(), NoMemory>
    ensures { OnOk result (places.new.items
        ≡ places.old.items ++ filter (spec.is_other which) (at.now ∷ [])) }
{
    if at.table == which && !is_built_in(which, at.chain.as_str()) {
        places.push(at.same())?;
    }
    Ok(())
}
