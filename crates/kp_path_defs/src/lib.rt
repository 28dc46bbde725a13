//! Every endpoint that a packet may be sent to, with its chance, the other endpoints of the port and
//! why they are none, and what sources of other kinds get at the same destination. There are only
//! definitions here, in `specs/`.
#![tactic(auto)]
