//! Definitions: the Services that an event touches, told by the objects before it.
#![tactic(auto)]
