//! How events are read from JSON text: the rows of each kind of object, and the first fault of a
//! value by them. There are only definitions here, in `specs/`.
#![tactic(auto)]
