//! Pending keys, worked out.
ghost use Rattle.kp_tracker.specs.Worked as worked;

/// Of a tracker of which five keys were updated, the pending keys are its three changed ones, in
/// order. Lists with one less, one more or in another order are none.
pub fn worked_pending()
    ensures pending { worked.ChangedArePending }
    ensures lost { worked.WithoutLost }
    ensures old { worked.WithOld }
    ensures in_order { worked.OutOfOrder }
{}
