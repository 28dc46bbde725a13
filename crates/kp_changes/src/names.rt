//! Names of ports in order, and dirty ports by their names.
ghost use Rattle.std.specs.Prelude.{◌≡◌, ◌++◌, map, IfOk, OnOk, option_copied};
ghost use Rattle.std.specs.FinMap.{find};
ghost use Rattle.std.specs.Map.Iter.{deref_pair};
ghost use Rattle.kp_base.specs.Keys.{port_key_cmp};
ghost use Rattle.kp_object_defs.specs.Order.{distinct_in_order, in_order};

use kp_base::{Copied, NoMemory, PortKey};
use kp_history_defs::DirtyPort;
use std::alloc::Global;
use std::collections::BTreeMap;

/// Names of ports, in order and once each.
pub fn distinct_names<'a>(alloc: Global, names: &'a [PortKey]) -> Result<Vec<&'a PortKey>, NoMemory>
    ensures { IfOk result (λ found. map (λ k. k.now) found.items
        ≡ distinct_in_order port_key_cmp names.now) }
{
    keys(alloc, by_themselves(alloc, names)?)
}

/// Names by themselves. The last is put first.
fn by_themselves<'a>(
    alloc: Global,
    names: &'a [PortKey],
) -> Result<BTreeMap<&'a PortKey, &'a PortKey>, NoMemory>
    ensures { IfOk result (λ named. map deref_pair named.entries
        ≡ in_order port_key_cmp (map (λ k. (k, k)) names.now)) }
{
    let mut named = BTreeMap::new(alloc);
    for place in (0..names.len()).rev() {
        let name = &names[place];
        named.insert(name, name)?;
    }
    Ok(named)
}

/// The keys of a map, in their order.
fn keys<K: Ord + Drop, V: Drop>(alloc: Global, by_key: BTreeMap<K, V>) -> Result<Vec<K>, NoMemory>
    ensures { IfOk result (λ keys. keys.items ≡ map (λ e. e.0) by_key.entries) }
{
    Ok(by_key.into_keys().collect(alloc)?)
}

/// Dirty ports by their names. The last is put first.
pub fn by_name<'a>(
    alloc: Global,
    dirty: &'a [DirtyPort],
) -> Result<BTreeMap<&'a PortKey, &'a DirtyPort>, NoMemory>
    ensures { IfOk result (λ named. map deref_pair named.entries
        ≡ in_order port_key_cmp (map (λ d. (d.key, d)) dirty.now)) }
{
    let mut named = BTreeMap::new(alloc);
    for place in (0..dirty.len()).rev() {
        let port = &dirty[place];
        named.insert(&port.key, port)?;
    }
    Ok(named)
}

/// The dirty port of a name.
pub fn dirty_named<'a>(
    dirty: &BTreeMap<&'a PortKey, &'a DirtyPort>,
    name: &'a PortKey,
) -> Option<&'a DirtyPort>
    ensures { option_copied result ≡ find port_key_cmp name.now (map deref_pair dirty.now.entries) }
{
    match dirty.get(&name) {
        Some(port) => Some(*port),
        None => None,
    }
}

/// The names of dirty ports of both families.
pub fn names_of_both(
    alloc: Global,
    four: &[DirtyPort],
    six: &[DirtyPort],
) -> Result<Vec<PortKey>, NoMemory>
    ensures { IfOk result (λ names. names.items
        ≡ map (λ d. d.key) four.now ++ map (λ d. d.key) six.now) }
{
    let mut names = Vec::new(alloc);
    add_names(alloc, &mut names, four)?;
    add_names(alloc, &mut names, six)?;
    Ok(names)
}

/// Adds the names of dirty ports.
fn add_names(alloc: Global, names: &mut Vec<PortKey>, dirty: &[DirtyPort]) -> Result<(), NoMemory>
    ensures { OnOk result (names.new.items
        ≡ names.old.items ++ map (λ d. d.key) dirty.now) }
{
    for port in dirty {
        names.push(port.key.copy(alloc)?)?;
    }
    Ok(())
}
