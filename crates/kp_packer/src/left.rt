//! The wanted endpoints of a group that no slice has kept yet.
ghost use Rattle.std.specs.Prelude.{◌≡◌, true, IfOk, IfSome, Some, slice_get, option_copied, option_map, option_and_then};
ghost use Rattle.std.specs.List.{find};
ghost use Rattle.kp_object_defs.specs.Packing.{is_entry_of, without_first};
ghost use Rattle.kp_object_defs.specs.PackingLaws.{have_own_pods};
ghost use Rattle.kp_packer.specs.Views.{shown, left_in, AtOwnPlaces};

use indexmap::IndexMap;
use kp_base::{NoMemory, ObjectKey};
use kp_types::{SliceEndpoint, Wanted};
use std::alloc::Global;

/// The wanted endpoints of a group, each at its place until a slice keeps it, and the places of
/// their pods.
pub struct Left<'a> {
    pub places: Vec<Option<&'a Wanted>>,
    pub by_pod: IndexMap<&'a ObjectKey, usize>,
}

impl Drop for Left<'_> {
    fn drop(self) {
        let Left { places, by_pod } = self;
    }
}

impl<'a> Left<'a> {
    /// All wanted endpoints of a group.
    pub fn of(alloc: Global, wanted: &[&'a Wanted]) -> Result<Left<'a>, NoMemory>
        requires pods { have_own_pods (shown wanted.now) ≡ true }
        ensures all { IfOk result (λ left. left_in left.places.items ≡ shown wanted.now) }
        ensures own { IfOk result (λ left. AtOwnPlaces left.by_pod.entries left.places.items) }
    {
        let mut places = Vec::new(alloc);
        let mut by_pod = IndexMap::new(alloc);
        for endpoint in wanted {
            by_pod.insert(&endpoint.pod, places.len())?;
            places.push(Some(*endpoint))?;
        }
        Ok(Left { places, by_pod })
    }

    /// Takes the wanted endpoint that an entry of a slice is of, if it is left.
    pub fn take(&mut self, entry: &SliceEndpoint) -> Option<&'a Wanted>
        requires own { AtOwnPlaces self.old.by_pod.entries self.old.places.items }
        ensures found { option_copied result
            ≡ find (is_entry_of entry.now) (left_in self.old.places.items) }
        ensures rest { left_in self.new.places.items
            ≡ without_first (is_entry_of entry.now) (left_in self.old.places.items) }
        ensures own { AtOwnPlaces self.new.by_pod.entries self.new.places.items }
    {
        let (place, endpoint) = self.find(entry)?;
        self.places[place] = None;
        Some(endpoint)
    }

    /// The wanted endpoint that an entry of a slice is of, with its place, if it is left.
    fn find(&self, entry: &SliceEndpoint) -> Option<(usize, &'a Wanted)>
        requires own { AtOwnPlaces self.now.by_pod.entries self.now.places.items }
        ensures found { option_map (λ f. f.1.now) result
            ≡ find (is_entry_of entry.now) (left_in self.now.places.items) }
        ensures place { IfSome result (λ f. slice_get self.now.places.items f.0 ≡ Some (Some f.1)) }
        ensures entry { IfSome result (λ f. is_entry_of entry.now f.1.now ≡ true) }
    {
        let pod = entry.pod.as_ref()?;
        let place = *self.by_pod.get(&pod)?;
        let endpoint = self.at(place)?;
        if entry.address != endpoint.entry.address {
            return None;
        }
        Some((place, endpoint))
    }

    /// The wanted endpoint at a place, if it is left.
    fn at(&self, place: usize) -> Option<&'a Wanted>
        ensures value { result ≡ option_and_then (λ p. p) (slice_get self.now.places.items place) }
        ensures some { IfSome result (λ w. slice_get self.now.places.items place ≡ Some (Some w)) }
    {
        match self.places.get(place) {
            Some(endpoint) => *endpoint,
            None => None,
        }
    }

    /// The wanted endpoints that are left, in their order.
    pub fn rest(&self, alloc: Global) -> Result<Vec<&'a Wanted>, NoMemory>
        ensures { IfOk result (λ rest. shown rest.items ≡ left_in self.now.places.items) }
    {
        let mut rest = Vec::new(alloc);
        for place in self.places.as_slice() {
            if let Some(endpoint) = place {
                rest.push(*endpoint)?;
            }
        }
        Ok(rest)
    }
}
