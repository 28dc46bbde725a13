//! The laws of touched Services, over the definitions alone. Each is the contract of a function
//! that does nothing but name the laws that it rests on.
#![tactic(auto)]

ghost use Rattle.kp_touch_laws.specs.FewTouched as few;
ghost use Rattle.kp_touch_laws.specs.KnownObjects.{KnownObjectsStay};
ghost use Rattle.kp_touch_laws.specs.TouchLaws as touches;
ghost use Rattle.kp_touch_laws.specs.WorkedTouches as worked;

/// An event leaves the inputs of each port of a Service that it doesn't touch, and in each family
/// what is known of the port and its contribution to the tables. So do events one after the other.
pub fn untouched_ports()
    ensures inputs { touches.UntouchedInputs }
    ensures infos { touches.UntouchedInfos }
    ensures rules { touches.UntouchedRules }
    ensures inputs_by_all { touches.InputsByAll }
    ensures infos_by_all { touches.InfosByAll }
    ensures rules_by_all { touches.RulesByAll }
{
    kp_object_laws::own_keys();
    kp_history_laws::unaffected_ports();
    kp_history_laws::changed_ports();
    kp_history_laws::dirty_ports();
}

/// An event affects the ports of each Service that it touches. One about a node touches no Service
/// for which the zones that count stay: so none where all zones stay and, without the controller,
/// none where the zone of the proxy's own node stays.
pub fn few_touched()
    ensures affected { few.TouchedAreAffected }
    ensures count { few.ZonesCount }
    ensures stay { few.AllZonesStay }
    ensures own { few.OwnZoneStays }
{}

/// An event leaves the objects where the object that it applies is the stored one, or there is none
/// that it deletes. So it may be passed over.
#[tactic(auto, using(crate::proofs::Known::known_objects_stay))]
pub fn known_events()
    ensures { KnownObjectsStay }
{}

/// For each kind of event a Service that it touches and one that it doesn't. Another zone of the
/// proxy's own node touches both, and that of a node without pods neither.
pub fn worked_touches()
    ensures services { worked.ServiceTouches }
    ensures slices { worked.SliceTouches }
    ensures pods { worked.PodTouches }
    ensures nodes { worked.NodeTouches }
    ensures own_node { worked.OwnNodeTouches }
    ensures empty_node { worked.EmptyNodeTouches }
{}
