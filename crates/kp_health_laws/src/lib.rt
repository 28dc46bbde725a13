//! Laws of health ports: the rules that accept their packets change no verdict, what a port answers
//! stays where no event touches its Service, and worked examples.
//! Each law is the contract of a function that does nothing.
#![tactic(auto)]

ghost use Rattle.kp_health_laws.specs.AcceptLaws.{BatchDecidesAlike, JumpDecidesAlike};
ghost use Rattle.kp_health_laws.specs.AcceptLaws.{FullTableMayAccept};
ghost use Rattle.kp_health_laws.specs.AcceptLaws.{HealthDecidesAlike, HealthJumpDecidesAlike};
ghost use Rattle.kp_health_laws.specs.UntouchedHealth.{HealthByAll};
ghost use Rattle.kp_health_laws.specs.Worked as worked;

/// The accept rules of any ports change no verdict of a table whose jumps go to chains of greater
/// ranks, while nothing jumps to them.
pub fn batch_decides_alike()
    ensures { BatchDecidesAlike }
{}

/// Nor do they where packets to the node pass them last.
pub fn jump_decides_alike()
    ensures { JumpDecidesAlike }
{}

/// The full table of any objects is such a table.
pub fn full_table_may_accept()
    ensures { FullTableMayAccept }
{}

/// So the accept rules of the health ports of objects change no verdict of the objects' full table,
/// without a further rule and where packets to the node pass them last.
pub fn health_decides_alike()
    ensures alone { HealthDecidesAlike }
    ensures jump { HealthJumpDecidesAlike }
{}

/// Events leave what the health port of a Service answers, where none of them touches the Service.
pub fn untouched_health()
    ensures { HealthByAll }
{
    kp_touch_laws::untouched_ports();
}

/// What counts: ready endpoints of this node, by their addresses.
pub fn worked_counts()
    ensures here { worked.OneHere }
    ensures none { worked.NoneHere }
    ensures terminates { worked.Terminates }
    ensures without_ports { worked.WithoutPorts }
    ensures two_ports { worked.TwoPorts }
    ensures other_family { worked.OtherFamily }
    ensures both_families { worked.BothFamilies }
{}

/// Services without a health port.
pub fn worked_services()
    ensures cluster { worked.PolicyCluster }
    ensures other { worked.OtherType }
    ensures headless { worked.NoAddress }
    ensures none { worked.NoPort }
{}

/// Lines, responses and accept rules.
pub fn worked_texts()
    ensures line { worked.Line }
    ensures body { worked.Body }
    ensures length { worked.BodyLength }
    ensures ok { worked.HeadOk }
    ensures unavailable { worked.HeadUnavailable }
    ensures accept { worked.AcceptText }
    ensures no_accept { worked.NoAcceptText }
{}
