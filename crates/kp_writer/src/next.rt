//! What stands after a sync at the places that it may change.
ghost use Rattle.std.specs.Prelude.{◌≡◌, ◌++◌, ◌&&◌, true, false, map, IfOk, OnOk};
ghost use Rattle.std.specs.BTreeMap.{IsOrdered};
ghost use Rattle.std.specs.FinMap as finite;
ghost use Rattle.std.specs.List.{filter_map};
ghost use Rattle.std.specs.Option.{option_copied, option_to_list};
ghost use Rattle.kp_table_defs.specs.Edits as Edits;
ghost use Rattle.kp_types.specs.Places.{chain_cmp};
ghost use Rattle.kp_types.specs.contracts.chain.ChainAtOrd.TheImpl as order;
ghost use Rattle.kp_chains.specs.Rows.{row_of};
ghost use Rattle.kp_rules.specs.Changes as Changes;
ghost use Rattle.kp_writer.specs.Next as spec;

use kp_base::{Copied, Family, Items, NoMemory, Shared};
use kp_rules::Table;
use kp_types::{Batch, ChainAt, ChainText, Edit, Rule, TableName};
use std::alloc::Global;
use std::collections::BTreeMap;
use std::marker::Model;

/// What stands after a sync at the places that it may change: a chain, or none. Contracts see a
/// finite map, and whether each port's chain that was written found its place free.
pub struct NextChains {
    places: BTreeMap<ChainAt, Option<Shared<Rule>>>,
    free: bool,
}

impl Drop for NextChains {
    fn drop(self) {
        let NextChains { places, free: _ } = self;
    }
}

impl Model for NextChains {
    ghost use Rattle.std.specs.FinMap as finite;
    ghost use Rattle.kp_types.specs.Places.{chain_cmp};
    ghost use Rattle.kp_writer.specs.Next.{NextParts, next_code};

    ghost Value = { NextParts };

    ghost coded = { next_code };

    ghost view = { λ n. record {
      places = finite.from_entries {R = chain_cmp} n.places.entries;
      free = n.free;
    } };
}

impl NextChains {
    /// No place changes.
    pub fn new(alloc: Global) -> NextChains
        ensures { result ≡ record { places = finite.empty; free = true } }
    {
        NextChains {
            places: BTreeMap::new(alloc),
            free: true,
        }
    }

    /// Whether each chain of a port found its place free: none stood there, or one that goes.
    pub fn all_free(&self) -> bool
        ensures { result ≡ self.now.free }
    {
        self.free
    }

    /// No chain stands at a place.
    pub fn leave(&mut self, at: ChainAt) -> Result<(), NoMemory>
        ensures { OnOk result (self.new ≡ spec.leave self.old at) }
    {
        put(&mut self.places, at, None)?;
        Ok(())
    }

    /// A port's chain stands at a place.
    pub fn write(&mut self, alloc: Global, before: &Table, row: ChainText) -> Result<(), NoMemory>
        ensures { OnOk result (self.new ≡ spec.write before.now.chains self.old (row_of row)) }
    {
        let ChainText { at, rules } = row;
        let place = at.same();
        let had = put(&mut self.places, at, Some(Shared::of(alloc, rules)?))?;
        let free = stays_free(self.free, before, &place, had.as_ref());
        self.free = free;
        Ok(())
    }

    /// A shared chain stands at a place.
    pub fn join(&mut self, alloc: Global, at: ChainAt, rules: Items<Rule>) -> Result<(), NoMemory>
        ensures { OnOk result (self.new ≡ spec.join self.old at rules) }
    {
        put(&mut self.places, at, Some(Shared::of(alloc, rules)?))?;
        Ok(())
    }

    /// The edits of a family's tables at these places: in nat and then in filter a write of each
    /// chain that is new or whose rules differ, and then a remove of each that is gone, each by
    /// name.
    pub fn edits(&self, alloc: Global, family: Family, table: &Table) -> Result<Batch, NoMemory>
        ensures { IfOk result (λ b. b.edits
            ≡ spec.edits_of family table.now.chains (finite.entries self.now.places)) }
    {
        edits_of(alloc, family, table, &self.places)
    }
}

/// Puts what stands at a place, and answers what stood there so far.
fn put(
    places: &mut BTreeMap<ChainAt, Option<Shared<Rule>>>,
    at: ChainAt,
    chain: Option<Shared<Rule>>,
) -> Result<Option<Option<Shared<Rule>>>, NoMemory>
    ensures places { OnOk result (finite.from_entries {R = chain_cmp} places.new.entries
        ≡ finite.insert (finite.from_entries places.old.entries) at chain) }
    ensures had { IfOk result (λ had. had
        ≡ finite.get (finite.from_entries {R = chain_cmp} places.old.entries) at) }
{
    Ok(places.insert(at, chain)?)
}

/// Whether all places so far are free, and this one too.
fn stays_free(free: bool, before: &Table, at: &ChainAt, next: Option<&Option<Shared<Rule>>>) -> bool
    ensures { result
        ≡ (free && spec.is_free_by before.now.chains at.now (option_copied next.entry)) }
{
    free && is_free(before, at, next)
}

/// Whether a place is free, by what stands there after: a chain that goes leaves it free.
fn is_free(before: &Table, at: &ChainAt, next: Option<&Option<Shared<Rule>>>) -> bool
    ensures { result ≡ spec.is_free_by before.now.chains at.now (option_copied next.entry) }
{
    match next {
        None => before.chain(at).is_none(),
        Some(chain) => chain.is_none(),
    }
}

/// The edits of a family's tables at places, which stand in order.
fn edits_of(
    alloc: Global,
    family: Family,
    table: &Table,
    places: &BTreeMap<ChainAt, Option<Shared<Rule>>>,
) -> Result<Batch, NoMemory>
    ensures edits { IfOk result (λ b. b.edits
        ≡ spec.edits_of family table.now.chains places.now.entries) }
    ensures in_order { IsOrdered order.ghosts.cmp places.now }
{
    let mut edits = Vec::with_capacity(alloc, places.len())?;
    add_edits(alloc, table, places, TableName::nat_of(family), &mut edits)?;
    add_edits(
        alloc,
        table,
        places,
        TableName::filter_of(family),
        &mut edits,
    )?;
    Ok(Batch {
        edits: Items::from_vec(edits),
    })
}

/// Adds the edits of one table.
fn add_edits(
    alloc: Global,
    before: &Table,
    places: &BTreeMap<ChainAt, Option<Shared<Rule>>>,
    table: TableName,
    edits: &mut Vec<Edit>,
) -> Result<(), NoMemory>
    ensures edits { OnOk result (edits.new.items ≡ edits.old.items
        ++ spec.table_edits before.now.chains places.now.entries table) }
    ensures in_order { IsOrdered order.ghosts.cmp places.now }
{
    add_writes(alloc, before, places, table, edits)?;
    add_removes(before, places, table, edits)
}

/// Adds the writes of one table's chains.
fn add_writes(
    alloc: Global,
    before: &Table,
    places: &BTreeMap<ChainAt, Option<Shared<Rule>>>,
    table: TableName,
    edits: &mut Vec<Edit>,
) -> Result<(), NoMemory>
    ensures edits { OnOk result (edits.new.items ≡ edits.old.items
        ++ filter_map (spec.write_of before.now.chains table) places.now.entries) }
    ensures in_order { IsOrdered order.ghosts.cmp places.now }
{
    for (at, chain) in places.iter() {
        add(write_of(alloc, before, table, at, chain)?, edits)?;
    }
    Ok(())
}

/// The write at a place of a table, where its chain is new or has other rules.
fn write_of(
    alloc: Global,
    before: &Table,
    table: TableName,
    at: &ChainAt,
    chain: &Option<Shared<Rule>>,
) -> Result<Option<Edit>, NoMemory>
    ensures { IfOk result (λ e. e
        ≡ spec.write_of before.now.chains table (at.now, chain.now)) }
{
    if !is_in(table, at) {
        return Ok(None);
    }
    let Some(rules) = chain else {
        return Ok(None);
    };
    if is_found_with(rules, before.chain(at)) {
        return Ok(None);
    }
    Ok(Some(Edit::Write {
        at: at.same(),
        rules: rules.copy(alloc)?,
    }))
}

/// Adds the removes of one table's chains.
fn add_removes(
    before: &Table,
    places: &BTreeMap<ChainAt, Option<Shared<Rule>>>,
    table: TableName,
    edits: &mut Vec<Edit>,
) -> Result<(), NoMemory>
    ensures edits { OnOk result (edits.new.items ≡ edits.old.items
        ++ filter_map (spec.remove_of before.now.chains table) places.now.entries) }
    ensures in_order { IsOrdered order.ghosts.cmp places.now }
{
    for (at, chain) in places.iter() {
        add(remove_of(before, table, at, chain), edits)?;
    }
    Ok(())
}

/// The remove at a place of a table, where its chain is gone.
fn remove_of(
    before: &Table,
    table: TableName,
    at: &ChainAt,
    chain: &Option<Shared<Rule>>,
) -> Option<Edit>
    ensures { result ≡ spec.remove_of before.now.chains table (at.now, chain.now) }
{
    if is_in(table, at) && chain.is_none() && before.chain(at).is_some() {
        Some(Edit::Remove { at: at.same() })
    } else {
        None
    }
}

/// Adds an edit, if there is one.
fn add(edit: Option<Edit>, edits: &mut Vec<Edit>) -> Result<(), NoMemory>
    ensures { OnOk result (edits.new.items ≡ edits.old.items ++ option_to_list edit) }
{
    if let Some(edit) = edit {
        edits.push(edit)?;
    }
    Ok(())
}

/// Whether a place is in a table.
fn is_in(table: TableName, at: &ChainAt) -> bool
    ensures { result ≡ Changes.is_in table at.now }
{
    at.table == table
}

/// Whether a chain is found with these rules.
fn is_found_with(rules: &Shared<Rule>, found: Option<&Shared<Rule>>) -> bool
    ensures { result ≡ Edits.is_found_with rules.now (option_copied found.entry) }
{
    match found {
        None => false,
        Some(found) => found.as_slice() == rules.as_slice(),
    }
}
