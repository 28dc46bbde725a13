//! Laws of verdict maps. Each is the contract of a function that does nothing.
ghost use Rattle.kp_vmap_defs.specs.MapLaws as laws;

/// What the map of some objects knows decides each packet as the objects do.
pub fn map_decisions()
    ensures ports { laws.MapKnowsPorts }
    ensures decides { laws.MapDecides }
{}

/// The pick changes neither the door that translates a packet nor its list, and where affinity finds
/// an endpoint it changes nothing.
pub fn doors_and_lists()
    ensures same { laws.SameDoorAndList }
    ensures found { laws.SameWhereFound }
{}
