//! What tables mean: what a rule does, the walk of a packet, the layout of the chains, the full
//! table and edits. There are only definitions here, in `specs/`.
#![tactic(auto)]
