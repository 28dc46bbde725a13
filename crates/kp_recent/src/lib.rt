//! Lists of the sources that were seen of late, as session affinity asks for them.
#![tactic(auto)]

mod hints;
mod key;
mod lists;
mod marked;
mod marks;
mod part;
mod shelf;

pub use lists::RecentLists;
