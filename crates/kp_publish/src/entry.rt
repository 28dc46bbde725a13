//! What a history of publishing holds.
use kp_types::SyncRecord;

/// An entry of a history: a record, or the end. It exists in the proofs alone.
pub enum Entry {
    Record(SyncRecord),
    End,
}

/// What ends a history.
pub struct Ending;

/// What an entry is written from.
pub trait Entered {
    ghost use Rattle.kp_publish.specs.declared.entry.Entry.{Entry};

    ghost entry: { Self → Entry };
}

impl Entered for SyncRecord {
    ghost use Rattle.kp_publish.specs.declared.entry.Entry.TheVariants.{Record};

    ghost entry = { λ r. Record r };
}

impl Entered for Ending {
    ghost use Rattle.kp_publish.specs.declared.entry.Entry.TheVariants.{End};

    ghost entry = { λ e. End };
}
