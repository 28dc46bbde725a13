//! Names of dirty ports in order.
ghost use Rattle.std.specs.Prelude.{◌≡◌, ◌++◌, List, map, IfOk, OnOk};
ghost use Rattle.kp_base.specs.Keys.{port_key_cmp};
ghost use Rattle.kp_base.specs.declared.key.PortKey.{PortKey as Name};
ghost use Rattle.kp_object_defs.specs.Order.{distinct_in_order};

use kp_base::{Copied, NoMemory, PortKey};
use kp_history_defs::DirtyPort;
use std::alloc::Global;
use std::collections::BTreeSet;

/// The names of dirty ports of both families, in order and once each.
pub(crate) fn names_of_dirty(
    alloc: Global,
    four: &[DirtyPort],
    six: &[DirtyPort],
) -> Result<Vec<PortKey>, NoMemory>
    ensures { IfOk result (λ names. names.items ≡ distinct_in_order port_key_cmp
        (map (λ d. d.key) four.now ++ map (λ d. d.key) six.now)) }
{
    let names = set_of_both(alloc, four, six)?;
    Ok(names.into_iter().collect(alloc)?)
}

/// These names.
fn set_of_both(
    alloc: Global,
    four: &[DirtyPort],
    six: &[DirtyPort],
) -> Result<BTreeSet<PortKey>, NoMemory>
    ensures { IfOk result (λ names. names.keys ≡ distinct_in_order port_key_cmp
        (map (λ d. d.key) four.now ++ map (λ d. d.key) six.now)) }
{
    let mut names = BTreeSet::new(alloc);
    add_names(alloc, &mut names, six)?;
    add_names(alloc, &mut names, four)?;
    Ok(names)
}

/// Adds the names of dirty ports. The last is put first.
fn add_names(
    alloc: Global,
    names: &mut BTreeSet<PortKey>,
    dirty: &[DirtyPort],
) -> Result<(), NoMemory>
    ensures { (others : List Name) → names.old.keys ≡ distinct_in_order port_key_cmp others →
        OnOk result (names.new.keys
        ≡ distinct_in_order port_key_cmp (map (λ d. d.key) dirty.now ++ others)) }
{
    for place in (0..dirty.len()).rev() {
        let port = &dirty[place];
        names.insert(port.key.copy(alloc)?)?;
    }
    Ok(())
}
