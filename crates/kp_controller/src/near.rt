//! What slices are found by when a Service is packed.
ghost use Rattle.std.specs.Prelude.{◌≡◌, ◌++◌, map, IfOk, OnOk, option_copied};
ghost use Rattle.std.specs.Option.{option_to_list};
ghost use Rattle.kp_controller.specs.Clashing as clashing;
ghost use Rattle.kp_controller.specs.Near as spec;

use kp_base::{Copied, Items, NoMemory, ObjectKey, Text};
use kp_store::Tagged;
use kp_types::Slice;
use std::alloc::Global;

/// A Service that a slice is near to: the slice's label names it, or the slice has a name that the
/// controller could give to one of the Service's.
#[derive(PartialEq, Eq, Hash)]
pub struct Near {
    pub service: ObjectKey,
}

impl Drop for Near {
    fn drop(self) {
        let Near { service } = self;
    }
}

impl Copied for Near {
    fn copy(&self, alloc: Global) -> Result<Near, NoMemory> {
        Ok(Near {
            service: self.service.copy(alloc)?,
        })
    }
}

/// A slice is found by the Services that it is near to.
impl Tagged<Near> for Slice {
    ghost use Rattle.kp_controller.specs.Near.{near_tags};

    ghost tags = { near_tags };

    fn tags(&self, alloc: Global) -> Result<Items<Near>, NoMemory> {
        let mut tags = Vec::new(alloc);
        add_owner(alloc, &mut tags, self)?;
        add_stem(alloc, &mut tags, self)?;
        Ok(Items::from_vec(tags))
    }
}

/// Adds the Service that a slice's label names, if it names one.
fn add_owner(alloc: Global, tags: &mut Vec<Near>, slice: &Slice) -> Result<(), NoMemory>
    ensures { OnOk result (tags.new.items ≡ tags.old.items
        ++ map (spec.near_to slice.now) (option_to_list slice.now.service)) }
{
    if let Some(name) = &slice.service {
        tags.push(near_to(alloc, slice, name.copy(alloc)?)?)?;
    }
    Ok(())
}

/// Adds the Service whose name a slice's name has before its last hyphen, if it has one.
fn add_stem(alloc: Global, tags: &mut Vec<Near>, slice: &Slice) -> Result<(), NoMemory>
    ensures { OnOk result (tags.new.items ≡ tags.old.items
        ++ map (spec.near_to slice.now) (option_to_list (clashing.stem slice.now.key.name))) }
{
    if let Some(stem) = stem(slice.key.name.as_str()) {
        tags.push(near_to(alloc, slice, Text::of(alloc, stem)?)?)?;
    }
    Ok(())
}

/// The Service of a name in a slice's namespace.
fn near_to(alloc: Global, slice: &Slice, name: Text) -> Result<Near, NoMemory>
    ensures { IfOk result (λ n. n ≡ spec.near_to slice.now name) }
{
    Ok(Near {
        service: ObjectKey {
            namespace: slice.key.namespace.copy(alloc)?,
            name,
        },
    })
}

/// What stands before the last hyphen of a name.
fn stem(name: &str) -> Option<&str>
    ensures { option_copied result ≡ clashing.stem name.now }
{
    match name.rsplit_once('-') {
        Some((front, _)) => Some(front),
        None => None,
    }
}
