//! Slices as they fill, and the second step.
ghost use Rattle.std.specs.Prelude.{◌≡◌, ◌≤◌, ◌-◌, List, [], ◌∷◌, ◌++◌, drop, length, IfOk, OnOk};
ghost use Rattle.kp_object_defs.specs.Packing as spec;
ghost use Rattle.kp_object_defs.specs.Packing.{with_more};
ghost use Rattle.kp_packer.specs.Views.{shown, filling_of, progress_of};

use kp_base::NoMemory;
use kp_types::{Slice, SliceEndpoint, Wanted};

/// A slice with its endpoints by now, and whether it has to be changed.
pub struct Fill<'a> {
    pub slice: &'a Slice,
    pub endpoints: Vec<&'a SliceEndpoint>,
    pub is_changed: bool,
}

impl Drop for Fill<'_> {
    fn drop(self) {
        let Fill {
            slice,
            endpoints,
            is_changed,
        } = self;
    }
}

impl<'a> Fill<'a> {
    /// Adds endpoints at the end.
    pub fn take_more(&mut self, more: &[&'a Wanted]) -> Result<(), NoMemory>
        ensures { OnOk result (filling_of self.new
            ≡ with_more (filling_of self.old) (shown more.now)) }
    {
        for wanted in more {
            self.endpoints.push(&wanted.entry)?;
        }
        self.is_changed = true;
        Ok(())
    }

    /// Fills a slice that is changed up to the most, and counts what it takes.
    fn fill_up(&mut self, most: usize, left: &[&'a Wanted]) -> Result<usize, NoMemory>
        ensures count { IfOk result (λ count. count ≤ length left.now) }
        ensures filled { IfOk result (λ count. (before : List spec.Filling)
            → record {
              fillings = before ++ filling_of self.new ∷ [];
              left = shown (drop count left.now);
            }
            ≡ spec.fill_if self.old.is_changed (most - length (filling_of self.old).endpoints)
            (record { fillings = before; left = shown left.now }) (filling_of self.old)) }
    {
        if !self.is_changed {
            return Ok(0);
        }
        let count = most.saturating_sub(self.endpoints.len()).min(left.len());
        let (more, _) = left.split_at(count);
        self.take_more(more)?;
        Ok(count)
    }
}

/// Fills the slices that are changed, in their order, and counts what they take.
pub fn fill_changed<'a>(
    most: usize,
    fills: &mut [Fill<'a>],
    left: &[&'a Wanted],
) -> Result<usize, NoMemory>
    ensures used { IfOk result (λ used. used ≤ length left.now) }
    ensures filled { IfOk result (λ used. progress_of fills.new (shown (drop used left.now))
        ≡ spec.fill_changed most (progress_of fills.old (shown left.now))) }
{
    let mut used = 0;
    for fill in fills.iter_mut() {
        let (_, rest) = left.split_at(used);
        used += fill.fill_up(most, rest)?;
    }
    Ok(used)
}
