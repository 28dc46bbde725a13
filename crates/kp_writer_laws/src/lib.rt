//! Laws of tables that are edited in the size of a change, over the definitions alone. Each is the
//! contract of a function that does nothing.
#![tactic(auto)]

ghost use Rattle.kp_writer_laws.specs.LocalLaws.{LookUpsAreLocal, TablesAgreeElsewhere};
ghost use Rattle.kp_writer_laws.specs.LocalLaws.{ChangesAreLocal, OtherPortsStay};
ghost use Rattle.kp_writer_laws.specs.LocalLaws.{NoClashIsLocal, SomeHaveNoClash};

/// A look-up among the chains of ports finds what it finds among those of the ports that have a
/// chain at its place: others don't matter there.
#[tactic(auto, using(crate::proofs::LocalLookUps::look_ups_are_local))]
pub fn look_ups_are_local()
    ensures { LookUpsAreLocal }
{}

/// The full tables of ports that are known alike but for some have the same chain at each place
/// that isn't a fixed chain's and where none of these ports has a chain, before or after.
#[tactic(auto, using(crate::proofs::LocalLookUps::tables_agree_elsewhere))]
pub fn tables_agree_elsewhere()
    ensures { TablesAgreeElsewhere }
{}

/// Ports in order are the same but for those of some names, where of each other name the same is
/// known before and after. That meets the premise on ports of `tables_agree_elsewhere`.
#[tactic(auto, using(crate::proofs::OtherPorts::other_ports_stay))]
pub fn other_ports_stay()
    ensures { OtherPortsStay }
{}

/// Ports of which only some are known otherwise than before have no clash, where the ports before
/// had none, exactly where the places of the chains of these are free and differ: the chains of the
/// others needn't be compared.
pub fn no_clash_is_local()
    ensures some { SomeHaveNoClash }
    ensures changed { NoClashIsLocal }
{}

/// The changes of a family's tables are told by any places in order that hold all at which the
/// tables differ.
#[tactic(auto, using(crate::proofs::LocalChanges::changes_are_local))]
pub fn changes_are_local()
    ensures { ChangesAreLocal }
{}
