//! The laws of a controller that packs touched Services alone: what it leaves after a sync stays so
//! for each Service that no event touches, so packing the others gives what packing all would give
//! (KEP-752). Each law is a clause of a function that does nothing.
#![tactic(auto)]

ghost use Rattle.kp_settle_laws.specs.SettleLaws as laws;

/// Packing a Service in a family leaves it as it is where it is settled there, and settles it
/// otherwise. It leaves the slices of the other family and those of all other Services, as taking
/// out those that are left over does.
pub fn packing_settles()
    ensures stay { laws.SettledStay }
    ensures packed { laws.PackedSettle }
    ensures settles { laws.PackingSettles }
    ensures others { laws.OthersStay }
    ensures other_family { laws.OtherFamilyStays }
    ensures one_more { laws.OneMoreSettled }
    ensures leftovers { laws.LeftoversStay }
{
    kp_object_laws::slices_now();
    kp_object_laws::wanted_endpoints();
}

/// At a sync it is enough to pack the touched Services, and none is left over after it.
pub fn touched_are_enough()
    ensures touched { laws.TouchedAreEnough }
    ensures left { laws.NoneLeft }
{
    packing_settles();
}

/// Between syncs the slices are as the controller left them, but for the Services that events
/// touched.
pub fn controlled_between_syncs()
    ensures at_first { laws.ControlledAtFirst }
    ensures more { laws.MoreArePicked }
    ensures objects { laws.ObjectsTouch }
    ensures slices { laws.SlicesTouch }
{
    kp_touch_laws::known_events();
}
