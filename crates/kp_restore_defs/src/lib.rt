//! The text that `iptables-restore` loads: of rules, of whole tables, and of edits. There are only
//! definitions here, in `specs/`.
#![tactic(auto)]
