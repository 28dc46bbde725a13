//! Worked examples of the definitions. Each is a clause of a function that does nothing.
ghost use Rattle.kp_vmap_defs.specs.Worked as worked;

/// Where packets go by the remainder of a draw.
pub fn worked_remainders()
    ensures first { worked.FirstByZero }
    ensures second { worked.SecondByFour }
    ensures third { worked.ThirdByFive }
    ensures without_draws { worked.SecondByNone }
    ensures reason { worked.DrawnReason }
    ensures no_local { worked.NoLocalEndpoint }
    ensures no_endpoint { worked.NoEndpointAtAll }
{}

/// Where doors stand.
pub fn worked_doors()
    ensures doors { worked.BalancedDoors }
    ensures external { worked.ExternalDoor }
    ensures node { worked.NodeDoor }
    ensures none { worked.NoDoor }
{}
