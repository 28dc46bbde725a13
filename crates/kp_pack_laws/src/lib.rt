//! The laws of packing endpoints into slices, for all slices and all wanted endpoints. Each is the
//! contract of a function that does nothing.
#![tactic(auto)]

ghost use Rattle.kp_object_defs.specs.PackingLaws.{PackingPlacesEach, PackingGoesOn, PackedStay, PackingAgainChangesNothing};

/// Packing slices with different names puts each endpoint that is wanted into one slice, once and
/// with its own ports, and gives no slice that is empty or that has too many endpoints (KEP-752,
/// "EndpointSlice Controller").
pub fn packing_places_each()
    ensures { PackingPlacesEach }
{}

/// Packing can go on from the slices that it gave: they are again the Service's managed ones, with
/// names of their own.
pub fn packing_goes_on()
    ensures { PackingGoesOn }
{}

/// Slices that have the wanted endpoints already stay as they are.
pub fn packed_stay()
    ensures { PackedStay }
{}

/// Packing the same wanted endpoints again changes nothing.
pub fn packing_again_changes_nothing()
    ensures { PackingAgainChangesNothing }
{}
