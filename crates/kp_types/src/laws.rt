//! Laws of the tests of equality, for all values: a test that holds tells one value. Each is a call
//! that does nothing.
ghost use Rattle.kp_lemmas.specs.Exact.{IsExact};
ghost use Rattle.kp_base.specs.contracts.key.PairPartialEq.TheImpl as pair;
ghost use Rattle.kp_types.specs.contracts.service.TargetPortPartialEq.TheImpl as target_port;
ghost use Rattle.kp_types.specs.contracts.service.ServicePortPartialEq.TheImpl as service_port;
ghost use Rattle.kp_types.specs.contracts.service.ServicePartialEq.TheImpl as service;
ghost use Rattle.kp_types.specs.contracts.lists.CandidatePartialEq.TheImpl as candidate;

/// Services, what they are made of and the endpoints of their ports are equal only where they are
/// one value.
pub fn equal_is_one()
    ensures pair { IsExact pair.ghosts.eq }
    ensures target_port { IsExact target_port.ghosts.eq }
    ensures service_port { IsExact service_port.ghosts.eq }
    ensures service { IsExact service.ghosts.eq }
    ensures candidate { IsExact candidate.ghosts.eq }
{}
