//! What is known of the ports of one Service, taken over together.
ghost use Rattle.std.specs.Prelude.{◌≡◌, ◌+◌, ◌≤◌, ◌∷◌, [], ℕ, cond, drop, map, IfOk, OnOk, OnErr};
ghost use Rattle.std.specs.FinMap as finite;
ghost use Rattle.kp_blocks.specs.Joined.{is_port_of};
ghost use Rattle.kp_writer.specs.Old.{unwritten};
ghost use Rattle.kp_writer.specs.Refresh as spec;
ghost use Rattle.kp_writer.specs.Shared.{shared_rule_count};
ghost use Rattle.kp_writer.specs.Written.{setting_in, with_newest};

use crate::writer::Writer;
use kp_base::{Copied, NoMemory, ObjectKey, PortKey, Steps};
use kp_types::PortInfo;
use std::alloc::Global;
use std::sync::ledger::Ledger;

/// Copies of names of ports.
pub fn copies(alloc: Global, ports: &[&PortKey]) -> Result<Vec<PortKey>, NoMemory>
    ensures { IfOk result (λ copies. copies.items ≡ map (λ k. k.now) ports.now) }
{
    let mut copies = Vec::new(alloc);
    for port in ports {
        copies.push(port.copy(alloc)?)?;
    }
    Ok(copies)
}

/// Takes over that ports are gone. Where memory is out, the last of them are.
pub fn drop_all(alloc: Global, writer: &mut Writer, mut ports: Vec<PortKey>) -> Result<(), NoMemory>
    ensures ok { OnOk result (writer.new
        ≡ with_newest writer.old (spec.without writer.old.newest ports.items)) }
    ensures part { (left : ℕ) × (writer.new
        ≡ with_newest writer.old (spec.without writer.old.newest (drop left ports.items))) }
{
    while let Some(port) = ports.pop() {
        writer.drop_port(alloc, &port)?;
    }
    Ok(())
}

/// Takes over what is known of ports, as far as they are a Service's. It takes at most a step for
/// each rule in the shared chains that those have of which something else was written. Where
/// memory is out, the last of them are taken over.
pub fn put_all<L: Ledger>(
    alloc: Global,
    writer: &mut Writer,
    service: &ObjectKey,
    mut infos: Vec<PortInfo>,
    steps: &mut Steps<L>,
) -> Result<(), NoMemory>
    ensures ok { OnOk result (writer.new ≡ with_newest writer.old
        (spec.with_infos service.now writer.old.newest infos.items)) }
    ensures part { (left : ℕ) × (writer.new ≡ with_newest writer.old
        (spec.with_infos service.now writer.old.newest (drop left infos.items))) }
    ensures more { steps.old ≤ steps.new }
    ensures steps { steps.new
        ≤ steps.old + shared_rule_count (setting_in writer.old)
        (unwritten writer.old.written infos.items) }
{
    while let Some(info) = infos.pop() {
        put_if(alloc, writer, service, info, steps)?;
    }
    Ok(())
}

/// Takes over what is known of a port, where it is a Service's.
fn put_if<L: Ledger>(
    alloc: Global,
    writer: &mut Writer,
    service: &ObjectKey,
    info: PortInfo,
    steps: &mut Steps<L>,
) -> Result<(), NoMemory>
    ensures ok { OnOk result (writer.new ≡ with_newest writer.old
        (cond (is_port_of service.now info.key)
        (finite.insert writer.old.newest info.key info) writer.old.newest)) }
    ensures err { OnErr result (writer.new ≡ writer.old) }
    ensures more { steps.old ≤ steps.new }
    ensures steps { steps.new
        ≤ steps.old + shared_rule_count (setting_in writer.old)
        (unwritten writer.old.written (info ∷ [])) }
{
    if *service == info.key.object {
        writer.put(alloc, info, steps)
    } else {
        Ok(())
    }
}
