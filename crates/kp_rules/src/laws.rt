//! Laws of the definitions that tables rest on, for all tables. Each is a call that does nothing.
//! The last says what threads may do with a table.
ghost use Rattle.kp_table_defs.specs.Edits.{ChangesLeadOver, SameRulesAreEqual};
ghost use Rattle.kp_table_defs.specs.RankedWalk.{RankedWalksEnd};
ghost use Rattle.kp_rules.specs.Skipped.{SkippedRulesDoNothing};
ghost use Rattle.kp_rules.specs.Worked.{ToTheService, ToAnother, BehindTheLast};

use crate::table::Table;

/// The changes from one table to another, made in the first, give the chains of the second.
#[tactic(auto, using(crate::proofs::ChangesLead::changes_lead))]
pub fn changes_lead_over()
    ensures { ChangesLeadOver }
{}

/// The test by which rules are compared tells whether they are equal.
#[tactic(auto, using(crate::proofs::ChangesLead::same_rules_exact))]
pub fn same_rules_are_equal()
    ensures { SameRulesAreEqual }
{}

/// No walk of a hook gets stuck on a ranked table that has the chain of the hook.
pub fn ranked_walks_end()
    ensures { RankedWalksEnd }
{}

/// A walk from a place of a chain does what it does from the next rule that may match its packet.
#[tactic(auto, using(crate::proofs::Skipping::skipped_rules_do_nothing))]
pub fn skipped_rules_do_nothing()
    ensures { SkippedRulesDoNothing }
{}

/// The next rules of KUBE-SERVICES for a packet to its only Service, to another address, and behind
/// the last rule.
pub fn next_rules_of_a_service()
    ensures service { ToTheService }
    ensures another { ToAnother }
    ensures behind { BehindTheLast }
{}

/// A table may be sent to a thread, and threads may share it.
pub fn tables_cross_threads() {
    crosses::<Table>();
}

/// Takes a type whose values may be sent and shared.
fn crosses<T: Send + Sync>() {}
