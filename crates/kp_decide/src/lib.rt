//! The decision on a packet by the objects alone: which door takes it, which endpoint it goes to,
//! whether it is masqueraded, and what the filter says.
#![tactic(auto)]

mod choice;
mod decision;
mod doors;
mod filter;
mod fitting;
mod lines;
mod local;
mod looks;
mod made;
mod masquerade;
mod offers;
mod picks;
mod sources;
mod tellers;
mod translation;

pub use choice::Choice;
pub use decision::{decide, decide_among, decide_by, sent_to};
pub use doors::{
    Door, Taking, add_address_doors, add_doors_of, add_node_door, add_node_doors, fits, taking_door,
};
pub use filter::filtered;
pub use fitting::fitting_doors;
pub use kp_types::{ChosenBy, Decision, DoorKind, ListKind, Reason};
pub use lines::{Line, Refusal};
pub use local::{is_in_cluster, is_local};
pub use looks::{Looks, OnlyRead};
pub use made::ObjectPorts;
pub use masquerade::is_masqueraded;
pub use offers::{Offer, is_admitted, offer_by_policy, offer_of};
pub use picks::{Picker, Remainder};
pub use sources::{PortRow, PortSource};
pub use tellers::{AsDecision, AsVerdict, Found, Teller};
pub use translation::{Placed, Translation, translation_of};
