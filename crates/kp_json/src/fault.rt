//! Why a text or a field was refused.
use crate::path::PathText;
use kp_base::NoMemory;
use std::alloc::{AllocError, AllocFailed};

/// Why no tree was made of a text.
#[derive(Clone, Copy, Debug, PartialEq, Eq)]
pub enum JsonFault {
    /// The bytes are no JSON text of at most 127 levels.
    BadJson,
    NoMemory(NoMemory),
}

/// What is wrong with a field.
#[derive(Clone, Copy, Debug, PartialEq, Eq)]
pub enum Why {
    Missing,
    WrongType,
    OutOfRange,
    BadName,
    BadAddress,
    BadCidr,
    DuplicatePort,
    TooMany,
}

/// A field that was refused.
#[derive(Debug, Drop)]
pub struct BadField {
    pub why: Why,
    /// The field's path from the root.
    pub path: PathText,
    /// How many elements there are, in `TooMany`. Else 0.
    pub count: u64,
}

/// Why a field was not read.
#[derive(Debug, Drop)]
pub enum FieldFault {
    Bad(BadField),
    NoMemory(NoMemory),
}

impl From<NoMemory> for FieldFault {
    ghost use Rattle.kp_json.specs.declared.fault.FieldFault.TheVariants.{NoMemory};
    ghost use Rattle.std.specs.Prelude.{◌≡◌};

    ghost from_gives = { λ refused e. e ≡ NoMemory refused };

    fn from(refused: NoMemory) -> FieldFault {
        FieldFault::NoMemory(refused)
    }
}

impl From<AllocError> for FieldFault {
    ghost use Rattle.kp_json.specs.Answers.{IsWant};

    ghost from_gives = { λ _ e. IsWant e };

    fn from(refused: AllocError) -> FieldFault {
        FieldFault::NoMemory(NoMemory::from(refused))
    }
}

impl<T: Drop> From<AllocFailed<T>> for FieldFault {
    ghost use Rattle.kp_json.specs.Answers.{IsWant};

    ghost from_gives = { λ _ e. IsWant e };

    fn from(refused: AllocFailed<T>) -> FieldFault {
        FieldFault::NoMemory(NoMemory::from(refused))
    }
}
