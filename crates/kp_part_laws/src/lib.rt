//! Laws of the parts of recent lists: the walk of a packet looks at the part that its source is in,
//! and changes that part alone. Each law is the contract of a function that does nothing.
#![tactic(auto)]

ghost use Rattle.kp_part_laws.specs.Beside.{SideBySide};
ghost use Rattle.kp_part_laws.specs.Unseen.{WalksUnseen, DecidesUnseen, PartsUnseen, OthersUnseen};

/// A change of recent lists that the calls for a packet's source can't tell makes no difference to
/// its walk, and the walk makes none to it.
pub fn walks_unseen()
    ensures { WalksUnseen }
{}

/// Nor does it to the decision on the packet, and its reason.
pub fn decides_unseen()
    ensures { DecidesUnseen }
{}

/// Such a change is to keep some parts alone, the source's among them.
#[tactic(auto, using(crate::proofs::Pointwise::parts_unseen))]
pub fn parts_unseen()
    ensures { PartsUnseen }
{}

/// And so is to put them between other lists that have nothing of the source's part.
#[tactic(auto, using(crate::proofs::Pointwise::others_unseen))]
pub fn others_unseen()
    ensures { OthersUnseen }
{}

/// Workers who each have parts of the recent lists, and do the items that look at these in order,
/// are one thread that does all items in order: so are their answers and their lists.
pub fn side_by_side<A, B>()
    ensures { SideBySide A B }
{}
