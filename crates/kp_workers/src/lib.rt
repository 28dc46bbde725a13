//! Workers beside each other: each has a share of the recent lists, and does the items whose
//! sources are in it. What they do together is what one thread does with the items in order. The
//! items are packets to be walked, or whatever a caller answers by texts.
#![tactic(auto)]

mod answers;
mod beside;
mod part_lists;
mod texts;
mod walker;
mod walks;
mod work;
mod worker;

pub use beside::answer_all;
pub use part_lists::{PartLists, part_of};
pub use walks::{Numbered, walk_all};
pub use work::Work;
