//! Laws of restore text, for all tables and all batches. Each is a call that does nothing.
ghost use Rattle.kp_restore_defs.specs.BatchText.{BatchTextsDiffer};
ghost use Rattle.kp_restore_defs.specs.BatchesBetween.{ChangesAreCanonical, ReadChangesLeadOver};
ghost use Rattle.kp_restore_defs.specs.TableText.{TableTextsDiffer};

/// Different canonical tables have different texts.
pub fn table_texts_differ()
    ensures { TableTextsDiffer }
{}

/// Different canonical batches have different texts.
#[tactic(auto, using(crate::proofs::BatchTexts::batch_texts_differ))]
pub fn batch_texts_differ()
    ensures { BatchTextsDiffer }
{}

/// The changes between two canonical tables that agree on the built-in chains are a canonical
/// batch.
#[tactic(auto, using(crate::proofs::Changes::changes_canonical))]
pub fn changes_are_canonical()
    ensures { ChangesAreCanonical }
{}

/// What is read from the printed changes of such tables, made in the first, gives the second.
#[tactic(auto, using(crate::proofs::Changes::read_changes_lead))]
pub fn read_changes_lead_over()
    ensures { ReadChangesLeadOver }
{}
