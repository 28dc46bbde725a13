//! The law that tells ports apart by what is known of them, over the definitions alone. It is the
//! contract of a function that does nothing.
#![tactic(auto)]

ghost use Rattle.kp_info_laws.specs.InfoLaws.{InfosAreTold};

/// The same is known of two ports exactly where they are equal.
#[tactic(auto, using(crate::proofs::Infos::infos_are_told))]
pub fn infos_are_told()
    ensures { InfosAreTold }
{}
