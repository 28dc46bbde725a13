//! Laws of the full table over the definitions alone. Each is the contract of a function that does
//! nothing.
#![tactic(auto)]

ghost use Rattle.kp_table_laws.specs.Laws.{PortsAreInOrder, PortsMakeTheTable, NoClashIsOwnNames, OwnChainsAreFound, NoClashOfChangedPorts, TraversalIsWalk};
ghost use Rattle.kp_table_laws.specs.Families.{RowsStandInFamily, FamilyStandsAlone, NoneBeside, ChangesByTables, ChangesOfFamily, NoChangesBeside, ChangesOfNode, PortsMakeTheTables, PortsOfObjectsMakeTheTable, NoClashInFamilies};

/// What is known of the ports of some objects stands in the order of the ports' names, each once.
#[tactic(auto, using(crate::proofs::PortOrder::ports_are_in_order))]
pub fn ports_are_in_order()
    ensures { PortsAreInOrder }
{}

/// The table of what ports contribute, between the fixed rules, is the full table of these ports.
#[tactic(auto, using(crate::proofs::PortRows::ports_make_the_table))]
pub fn ports_make_the_table()
    ensures { PortsMakeTheTable }
{}

/// No two chains that ports need have one name exactly where their own chains' keys have names of
/// their own.
#[tactic(auto, using(crate::proofs::NeededKeys::no_clash_is_own_names))]
pub fn no_clash_is_own_names()
    ensures { NoClashIsOwnNames }
{}

/// Then the chain that is found under the name of a port's key has that key's rules.
#[tactic(auto, using(crate::proofs::KeyRows::own_chains_are_found))]
pub fn own_chains_are_found()
    ensures { OwnChainsAreFound }
{}

/// Where some ports changed, no two chains clash exactly where the places of the changed ports'
/// chains differ and none of them is that of another port's chain.
pub fn no_clash_of_changed_ports()
    ensures { NoClashOfChangedPorts }
{}

/// The traversal of rules as a relation is their walk with a bound on jumps, whatever the bound,
/// where that isn't stuck.
#[tactic(auto, using(crate::proofs::Traversed::traversal_is_walk))]
pub fn traversal_is_walk()
    ensures { TraversalIsWalk }
{}

/// All chains of a family stand in its tables.
#[tactic(auto, using(crate::proofs::Families::rows_stand_in_family))]
pub fn rows_stand_in_family()
    ensures { RowsStandInFamily }
{}

/// The full table has the tables of each family as they stand alone.
#[tactic(auto, using(crate::proofs::Families::family_stands_alone))]
pub fn family_stands_alone()
    ensures { FamilyStandsAlone }
{}

/// It has no chain of a family that the node has no tables of.
#[tactic(auto, using(crate::proofs::Families::none_beside))]
pub fn none_beside()
    ensures { NoneBeside }
{}

/// The changes of a family's tables depend on these tables alone.
#[tactic(auto, using(crate::proofs::Families::changes_by_tables))]
pub fn changes_by_tables()
    ensures { ChangesByTables }
{}

/// So they are those of the family alone.
#[tactic(auto, using(crate::proofs::Families::changes_of_family))]
pub fn changes_of_family()
    ensures { ChangesOfFamily }
{}

/// A family that the node has no tables of has no changes.
pub fn no_changes_beside()
    ensures { NoChangesBeside }
{}

/// All changes are those of each family that the node has tables of, in their order.
#[tactic(auto, using(crate::proofs::Families::changes_of_node))]
pub fn changes_of_node()
    ensures { ChangesOfNode }
{}

/// The contributions of ports in each family make the chains of all.
#[tactic(auto, using(crate::proofs::PortRows::ports_make_the_tables))]
pub fn ports_make_the_tables()
    ensures { PortsMakeTheTables }
{}

/// The contributions of all ports of some objects make the full table of these objects.
#[tactic(auto, using(crate::proofs::PortRows::ports_of_objects_make_the_table))]
pub fn ports_of_objects_make_the_table()
    ensures { PortsOfObjectsMakeTheTable }
{}

/// No chains clash exactly where none do in a family that the node has tables of.
#[tactic(auto, using(crate::proofs::FamilyClash::no_clash_in_families))]
pub fn no_clash_in_families()
    ensures { NoClashInFamilies }
{}
