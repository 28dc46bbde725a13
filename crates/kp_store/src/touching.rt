//! Which Services an event touches.
ghost use Rattle.std.specs.Prelude.{◌≡◌, ◌&&◌, ◌↔◌, IfOk, IsFalse, IsOk, OnErr, OnOk};
ghost use Rattle.std.specs.Prelude.{bytes_eq, option_copied};
ghost use Rattle.std.specs.Option.{option_eq};
ghost use Rattle.kp_base.specs.declared.key.ObjectKey.{ObjectKey};
ghost use Rattle.kp_object_defs.specs.Objects.{objects_step};
ghost use Rattle.kp_store.specs.Touched.{AddsTo, StaysIn, is_touched};
ghost use Rattle.kp_touch_defs.specs.Touches as spec;

use crate::indexed::Tagged;
use crate::objects::Objects;
use crate::touched::Touched;
use kp_base::{Config, Copied, NoMemory, ObjectKey, Text};
use kp_types::{Event, Kind, Node, Object, Pod, Slice};
use std::alloc::Global;

impl Objects {
    /// Applies one more event, and adds the Services that it touches. Tells whether any object
    /// changed: an event that leaves all as they are touches nothing, and takes no memory. Where
    /// memory is out, the objects stay, and all that were touched still are.
    pub fn apply_touching(
        &mut self,
        alloc: Global,
        config: &Config,
        event: &Event,
        touched: &mut Touched,
    ) -> Result<bool, NoMemory>
        ensures changed { IfOk result (λ changed.
            IsFalse changed ↔ (objects_step self.old event.now ≡ self.old)) }
        ensures ok { OnOk result (self.new ≡ objects_step self.old event.now) }
        ensures adds { IfOk result (λ changed. AddsTo (λ k. changed
            && spec.touches config.now.node config.now.controller self.old event.now k)
            touched.old touched.new) }
        ensures idle { objects_step self.old event.now ≡ self.old → IsOk result }
        ensures err { OnErr result (self.new ≡ self.old) }
        ensures stay { OnErr result (StaysIn touched.old touched.new) }
    {
        if self.changes(event) {
            let new = touched_by(alloc, config, self, event)?;
            touched.join(alloc, &new)?;
            self.apply(alloc, event)?;
            Ok(true)
        } else {
            Ok(false)
        }
    }
}

/// The Services that an event touches.
fn touched_by(
    alloc: Global,
    config: &Config,
    objects: &Objects,
    event: &Event,
) -> Result<Touched, NoMemory>
    ensures { IfOk result (λ t. (k : ObjectKey) → is_touched t k
        ≡ spec.touches config.now.node config.now.controller objects.now event.now k) }
{
    let mut touched = Touched::new(alloc);
    add_by_event(alloc, config, objects, event, &mut touched)?;
    Ok(touched)
}

/// Adds the Services that an event touches.
fn add_by_event(
    alloc: Global,
    config: &Config,
    objects: &Objects,
    event: &Event,
    touched: &mut Touched,
) -> Result<(), NoMemory>
    ensures { OnOk result (AddsTo
        (spec.touches config.now.node config.now.controller objects.now event.now)
        touched.old touched.new) }
{
    match event {
        Event::Apply(object) => add_applied(alloc, config, objects, object, touched),
        Event::Delete { kind, key } => add_deleted(alloc, config, objects, *kind, key, touched),
    }
}

/// Adds the Services that an apply touches.
fn add_applied(
    alloc: Global,
    config: &Config,
    objects: &Objects,
    object: &Object,
    touched: &mut Touched,
) -> Result<(), NoMemory>
    ensures { OnOk result (AddsTo
        (spec.apply_touches config.now.node config.now.controller objects.now object.now)
        touched.old touched.new) }
{
    match object {
        Object::Service(kept) => touched.add(kept.get().key.copy(alloc)?),
        Object::EndpointSlice(kept) => {
            let slice = kept.get();
            add_named(alloc, objects.slice(&slice.key), Some(slice), touched)
        }
        Object::Pod(kept) => {
            let pod = kept.get();
            add_selecting(
                alloc,
                config,
                objects,
                objects.pod(&pod.key),
                Some(pod),
                touched,
            )
        }
        Object::Node(kept) => {
            let node = kept.get();
            add_by_zone(
                alloc,
                config,
                objects,
                &node.name,
                node.zone.as_ref(),
                touched,
            )
        }
    }
}

/// Adds the Services that a delete touches.
fn add_deleted(
    alloc: Global,
    config: &Config,
    objects: &Objects,
    kind: Kind,
    key: &ObjectKey,
    touched: &mut Touched,
) -> Result<(), NoMemory>
    ensures { OnOk result (AddsTo
        (spec.delete_touches config.now.node config.now.controller objects.now kind key.now)
        touched.old touched.new) }
{
    match kind {
        Kind::Service => touched.add(key.copy(alloc)?),
        Kind::EndpointSlice => add_named(alloc, objects.slice(key), None, touched),
        Kind::Pod => add_selecting(alloc, config, objects, objects.pod(key), None, touched),
        Kind::Node => add_lost_node(alloc, config, objects, objects.node_at(key), touched),
    }
}

/// Adds the Services that a slice names before and after.
fn add_named(
    alloc: Global,
    before: Option<&Slice>,
    after: Option<&Slice>,
    touched: &mut Touched,
) -> Result<(), NoMemory>
    ensures { OnOk result (AddsTo
        (spec.slice_touches (option_copied before.entry) (option_copied after.entry))
        touched.old touched.new) }
{
    add_named_by(alloc, before, touched)?;
    add_named_by(alloc, after, touched)
}

/// Adds the Service that a slice names, if there is a slice and it names one.
fn add_named_by(alloc: Global, slice: Option<&Slice>, touched: &mut Touched) -> Result<(), NoMemory>
    ensures { OnOk result (AddsTo (spec.names_service (option_copied slice.entry))
        touched.old touched.new) }
{
    match slice {
        Some(slice) => {
            let owners = slice.tags(alloc)?;
            touched.add_each(alloc, owners.as_slice())
        }
        None => Ok(()),
    }
}

/// Adds the Services that select a pod before and after, where the controller makes slices.
fn add_selecting(
    alloc: Global,
    config: &Config,
    objects: &Objects,
    before: Option<&Pod>,
    after: Option<&Pod>,
    touched: &mut Touched,
) -> Result<(), NoMemory>
    ensures { OnOk result (AddsTo (spec.pod_touches config.now.controller objects.now
        (option_copied before.entry) (option_copied after.entry)) touched.old touched.new) }
{
    if config.controller {
        add_selecting_one(alloc, objects, before, touched)?;
        add_selecting_one(alloc, objects, after, touched)
    } else {
        Ok(())
    }
}

/// Adds the Services that select a pod, if there is one.
fn add_selecting_one(
    alloc: Global,
    objects: &Objects,
    pod: Option<&Pod>,
    touched: &mut Touched,
) -> Result<(), NoMemory>
    ensures { OnOk result (AddsTo (spec.is_selected objects.now (option_copied pod.entry))
        touched.old touched.new) }
{
    match pod {
        Some(pod) => {
            let keys = objects.services_selecting(alloc, pod)?;
            touched.add_each(alloc, keys.as_slice())
        }
        None => Ok(()),
    }
}

/// Adds the Services that a node touches that goes, if there is one.
fn add_lost_node(
    alloc: Global,
    config: &Config,
    objects: &Objects,
    node: Option<&Node>,
    touched: &mut Touched,
) -> Result<(), NoMemory>
    ensures { OnOk result (AddsTo (spec.lost_node_touches config.now.node config.now.controller
        objects.now (option_copied node.entry)) touched.old touched.new) }
{
    match node {
        Some(node) => add_by_zone(alloc, config, objects, &node.name, None, touched),
        None => Ok(()),
    }
}

/// Adds the Services that the zone of a node counts for, where it is another than before.
fn add_by_zone(
    alloc: Global,
    config: &Config,
    objects: &Objects,
    name: &Text,
    zone: Option<&Text>,
    touched: &mut Touched,
) -> Result<(), NoMemory>
    ensures { OnOk result (AddsTo (spec.node_touches config.now.node config.now.controller
        objects.now name.now (option_copied zone.entry)) touched.old touched.new) }
{
    if is_same_zone(objects.zone_of(name), zone) {
        Ok(())
    } else {
        add_of_node(alloc, config, objects, name, touched)
    }
}

/// Whether two zones, if there are any, are one.
fn is_same_zone(a: Option<&Text>, b: Option<&Text>) -> bool
    ensures { result ≡ option_eq bytes_eq (option_copied a.entry) (option_copied b.entry) }
{
    match (a, b) {
        (None, None) => true,
        (Some(a), Some(b)) => *a == *b,
        _ => false,
    }
}

/// Adds the Services that the zone of a node counts for.
fn add_of_node(
    alloc: Global,
    config: &Config,
    objects: &Objects,
    name: &Text,
    touched: &mut Touched,
) -> Result<(), NoMemory>
    ensures { OnOk result (AddsTo (spec.zone_touches config.now.node config.now.controller
        objects.now name.now) touched.old touched.new) }
{
    if *name == config.node {
        touched.add_all();
        Ok(())
    } else if config.controller {
        add_selecting_on(alloc, objects, name, touched)
    } else {
        Ok(())
    }
}

/// Adds the Services that select a pod on a node.
fn add_selecting_on(
    alloc: Global,
    objects: &Objects,
    name: &Text,
    touched: &mut Touched,
) -> Result<(), NoMemory>
    ensures { OnOk result (AddsTo (spec.selects_on objects.now name.now)
        touched.old touched.new) }
{
    let pods = objects.pods_on(alloc, name)?;
    for pod in pods.as_slice() {
        add_selecting_one(alloc, objects, Some(*pod), touched)?;
    }
    Ok(())
}
