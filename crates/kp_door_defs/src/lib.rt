//! Where a packet goes by the objects alone: doors, offers, choice, marks, translation, the filter
//! and the decision. There are only definitions here, in `specs/`, and they know no chain and no
//! jump.
#![tactic(auto)]
