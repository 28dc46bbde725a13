//! Laws of changes over the definitions alone: where no door that differs is in a packet's way, it
//! is decided as before. Each law is the contract of a function that does nothing.
#![tactic(auto)]

ghost use Rattle.kp_change_laws.specs.Chains.{DoorsMakeTheRules};
ghost use Rattle.kp_change_laws.specs.Laws.{DecidesAsBefore, ObjectsDecideAsBefore, SilenceDecidesAsBefore};
ghost use Rattle.kp_change_laws.specs.WorkedLines as lines;
ghost use Rattle.kp_change_laws.specs.WorkedMoves as moves;

/// A packet is decided as before, with the same verdict, reason and recent lists, for all draws and
/// recent lists, where it fits no door whose values differ, neither as it comes nor at an endpoint
/// of the list or the inside list of a door, before or after, that it fits.
pub fn decides_as_before()
    ensures { DecidesAsBefore }
{}

/// So it is over objects, by the doors of its own family.
pub fn objects_decide_as_before()
    ensures { ObjectsDecideAsBefore }
{}

/// Where no line is printed, every packet is decided as before.
pub fn silence_decides_as_before()
    ensures { SilenceDecidesAsBefore }
{}

/// The rules of a port in nat's KUBE-SERVICES and KUBE-NODEPORTS are those of its doors, each of
/// which jumps to the chain that the door's line would name.
pub fn doors_make_the_rules()
    ensures { DoorsMakeTheRules }
{}

/// Lines of changes, worked out: what comes, turns, opens and closes.
pub fn worked_lines()
    ensures address { lines.AddressGoes }
    ensures service { lines.ServiceComes }
    ensures policy { lines.PolicyTurns }
    ensures back { lines.PolicyTurnsBack }
    ensures affinity { lines.AffinityTurns }
    ensures nothing { lines.NothingChanges }
    ensures ranges { lines.RangesSet }
    ensures closed { lines.DoorCloses }
    ensures lifted { lines.RangesLifted }
    ensures both { lines.ComesInBoth }
{}

/// What moves and what goes.
pub fn worked_moves()
    ensures rollout { moves.Rollout }
    ensures gone { moves.ServiceGoes }
    ensures moved { moves.AddressMoves }
    ensures one { moves.OneAddress }
    ensures crowded { moves.CrowdedAddress }
    ensures port { moves.PortMoves }
{}
