//! Laws of where UDP packets are sent. Each is the contract of a function that does nothing but name
//! the laws that it rests on.
ghost use Rattle.kp_track_laws.specs.StandingLaws as laws;

/// A UDP packet is sent to an endpoint alone that stands by the objects.
pub fn sent_where_it_stands()
    ensures { laws.UdpSent }
{}

/// In a full table without a clash an endpoint is the target of a rule for UDP exactly where it
/// stands by the objects.
pub fn targets_stand()
    ensures { laws.TargetsStand }
{}

/// To clear the endpoints that fell at a sync leaves what settling by the table after it does.
pub fn cleared_as_settled()
    ensures { laws.ClearedAsSettled }
{
    kp_track_defs::laws::kept_openers();
}
