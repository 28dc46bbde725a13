//! Worked examples of paths: what is printed behind an explanation, worked out by hand from public
//! documents. Each is a clause of a function that does nothing.
#![tactic(auto)]

ghost use Rattle.kp_worked_paths.specs.Texts as texts;

/// Chances of the places of a list.
pub fn worked_chances()
    ensures four { texts.OfFour }
    ensures three { texts.OfThree }
    ensures one { texts.OfOne }
{}

/// Paths to the endpoints of a Service, or to none.
pub fn worked_paths()
    ensures pod { texts.PodOfTheService }
    ensures no_door { texts.NoDoor }
    ensures no_endpoints { texts.NoEndpoints }
    ensures no_local { texts.NoLocalEndpoint }
    ensures refused { texts.RefusedBehind }
{}

/// Endpoints that a packet isn't sent to.
pub fn worked_asides()
    ensures zone { texts.OtherZone }
    ensures node { texts.OtherNode }
    ensures kept { texts.KeptElsewhere }
    ensures one_way { texts.OneWay }
{}

/// Load balancers with source ranges.
pub fn worked_sources()
    ensures local { texts.ClosedAndNotLocal }
    ensures admitted { texts.NotAdmitted }
{}
