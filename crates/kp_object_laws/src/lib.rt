//! The laws of objects: each stands under its own key, what the controller wants of them doesn't
//! depend on the order in which they are given, and the lists of a Service port are made of its
//! endpoints in order. Each law is a clause of a function that does nothing.
#![tactic(auto)]

ghost use Rattle.kp_object_laws.specs.ListLaws as lists;
ghost use Rattle.kp_object_laws.specs.ObjectLaws as objects;
ghost use Rattle.kp_object_laws.specs.PortLaws as ports;
ghost use Rattle.kp_object_laws.specs.SliceLaws as slices;

/// Each object stands under its own key, after any events.
pub fn own_keys()
    ensures at_first { objects.OwnKeysAtFirst }
    ensures after_event { objects.OwnKeysAfterEvent }
    ensures after_events { objects.OwnKeysAfterEvents }
{}

/// The endpoints that a Service wants of the objects, whose pods and nodes are given in any order,
/// and which are of different pods. Their entries name these pods.
pub fn wanted_endpoints()
    ensures of_objects { objects.WantedOfObjects }
    ensures own_pods { objects.WantedOfOwnPods }
    ensures desired { objects.DesiredOfOwnPods }
    ensures named { objects.WantedNamePods }
    ensures desired_named { objects.DesiredNamePods }
{}

/// The endpoints of a Service port stand in order of family, address and port, each once. Those of
/// a family among those of both are its own.
pub fn endpoints_in_order()
    ensures counted { lists.CountedInOrder }
    ensures entries { lists.EntriesInOrder }
    ensures both { lists.EntriesOfBothInOrder }
    ensures by_family { lists.EntriesByFamily }
{}

/// The lists of a Service port have usable endpoints alone, in order, and are empty only where none
/// is usable.
pub fn lists_of_usable()
    ensures among { lists.ListsAmongUsable }
    ensures in_order { lists.ListsInOrder }
    ensures none { lists.NoneUsable }
    ensures cluster { lists.ClusterListEmpty }
    ensures local { lists.LocalListEmpty }
{}

/// A Service port is found by its name, and what is known of all ports is what is found by their
/// names in order.
pub fn ports_by_key()
    ensures named { ports.PortIsNamed }
    ensures key { ports.InfoHasKey }
    ensures all { ports.InfosByKeys }
{}

/// The slices as they are now: as they were fed, until the controller acts at a sync. What packing
/// asks of a Service's managed slices holds of them at any time.
pub fn slices_now()
    ensures as_fed { slices.SlicesAsFed }
    ensures without_controller { slices.SlicesWithoutController }
    ensures after_event { slices.SlicesAfterEvent }
    ensures after_sync { slices.SlicesAfterSync }
    ensures own_keys { slices.SlicesUnderOwnKeys }
    ensures can_be_packed { slices.ManagedCanBePacked }
{}
