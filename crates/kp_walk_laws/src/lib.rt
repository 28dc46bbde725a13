//! Laws of the walk over the full table: where walking its rules sends a packet, the objects say
//! that it goes.
//! Each law is the contract of a function that does nothing.
#![tactic(auto)]

ghost use Rattle.kp_walk_laws.specs.Laws.{WalkDecides, WalkDecidesAmong, WalkDecidesObjects, ProductDecides, PortKeysOnce, KnownPorts, StandInApart, StandInNames, FullTablePlain, FullTableRanked, FullTablesRanked, FullTableRankedObjects, StandInPrefixed, HashedPrefixed};
ghost use Rattle.kp_walk_laws.specs.Rows.{OneEndpoint, FirstOfThree, SecondOfThree, ThirdOfThree, ToItself, FromOutside, NoEndpoints, OtherProtocol, TwoUnclashed, FirstOfTwo, SecondOfTwo, TwoDecided, TwoClashed, ClientOutside, PodOutside, NodeOutside, ClientAdmitted, OtherDropped, ClientAtNode, EveryDoorDecided};

/// Walking a family's full table of any Service ports, with every kind of door, with session
/// affinity or without it, gives each packet of the family the verdict that the objects give it,
/// and leaves the recent lists that they leave, where no two chains that are needed have one name.
#[tactic(auto, using(crate::proofs::Theorem::walk_decides_by))]
pub fn walk_decides()
    ensures { WalkDecides }
{}

/// So does walking the tables of all families of a node, each packet through those of its own
/// family; a packet of a family that the node has no tables of is left alone.
pub fn walk_decides_among()
    ensures { WalkDecidesAmong }
{}

/// So it does over objects, whose ports are such as the law asks for.
pub fn walk_decides_objects()
    ensures { WalkDecidesObjects }
{}

/// And under the product's names and picks nothing else is asked.
pub fn product_decides()
    ensures { ProductDecides }
{}

/// The ports of some objects have keys of their own.
pub fn port_keys_once()
    ensures { PortKeysOnce }
{}

/// What is known of them is such as the law of walking asks for.
pub fn known_ports()
    ensures { KnownPorts }
{}

/// The names that stand in for those of hashes give the chains of one port no clash.
#[tactic(auto, using(crate::proofs::StandInNames::stand_in_apart_by))]
pub fn stand_in_apart()
    ensures { StandInApart }
{}

/// Each stand-in name is a name that a chain may have.
#[tactic(auto, using(crate::proofs::StandInNames::stand_in_names_by))]
pub fn stand_in_names()
    ensures { StandInNames }
{}

/// Without session affinity the full table has no recent match.
#[tactic(auto, using(crate::proofs::PlainRows::full_table_plain_by))]
pub fn full_table_plain()
    ensures { FullTablePlain }
{}

/// A family's full table has the built-in chains, and each of its jumps goes to a chain of a
/// greater rank.
pub fn full_table_ranked()
    ensures { FullTableRanked }
{}

/// And so have the tables of all families of a node.
pub fn full_tables_ranked()
    ensures { FullTablesRanked }
{}

/// And so has the full table of any objects.
pub fn full_table_ranked_objects()
    ensures { FullTableRankedObjects }
{}

/// The stand-in names begin as kube-proxy's names do.
#[tactic(auto, using(crate::proofs::Ranked::stand_in_prefixed_by))]
pub fn stand_in_prefixed()
    ensures { StandInPrefixed }
{}

/// Hashed names begin so too.
pub fn hashed_prefixed()
    ensures { HashedPrefixed }
{}

/// Walks of a few packets, worked out.
pub fn worked_walks()
    ensures one { OneEndpoint }
    ensures first { FirstOfThree }
    ensures second { SecondOfThree }
    ensures third { ThirdOfThree }
    ensures itself { ToItself }
    ensures outside { FromOutside }
    ensures none { NoEndpoints }
    ensures other { OtherProtocol }
{}

/// Walks over two Services, one of them without endpoints, whose chains have prefixes for names.
#[tactic(auto, using(crate::proofs::WorkedPorts::two_decided_by))]
pub fn worked_prefixes()
    ensures unclashed { TwoUnclashed }
    ensures first { FirstOfTwo }
    ensures second { SecondOfTwo }
    ensures decided { TwoDecided }
    ensures clashed { TwoClashed }
{}

/// Walks to a Service with every kind of door.
#[tactic(auto, using(crate::proofs::WorkedPorts::every_door_by))]
pub fn worked_doors()
    ensures client { ClientOutside }
    ensures pod { PodOutside }
    ensures node { NodeOutside }
    ensures admitted { ClientAdmitted }
    ensures other { OtherDropped }
    ensures node_port { ClientAtNode }
    ensures decided { EveryDoorDecided }
{}
