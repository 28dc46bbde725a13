//! Why a text is no list of events.
use kp_base::{NoMemory, Text};
use kp_json::{BadField, FieldFault};
use std::alloc::AllocFailed;

/// Why events were not read.
#[derive(Drop)]
pub enum EventFault {
    /// The text isn't an event.
    NotEvent,
    /// An object of another kind, or of another version of its kind.
    UnsupportedKind { kind: Text },
    /// A field is refused.
    Bad(BadField),
    NoMemory(NoMemory),
}

impl From<FieldFault> for EventFault {
    ghost use Rattle.kp_events.specs.Answers.{of_field_fault};
    ghost use Rattle.std.specs.Prelude.{◌≡◌};

    ghost from_gives = { λ f e. e ≡ of_field_fault f };

    fn from(fault: FieldFault) -> EventFault {
        match fault {
            FieldFault::Bad(field) => EventFault::Bad(field),
            FieldFault::NoMemory(refused) => EventFault::NoMemory(refused),
        }
    }
}

impl From<NoMemory> for EventFault {
    ghost use Rattle.kp_events.specs.declared.fault.EventFault.TheVariants.{NoMemory};
    ghost use Rattle.std.specs.Prelude.{◌≡◌};

    ghost from_gives = { λ refused e. e ≡ NoMemory refused };

    fn from(refused: NoMemory) -> EventFault {
        EventFault::NoMemory(refused)
    }
}

impl<T: Drop> From<AllocFailed<T>> for EventFault {
    ghost use Rattle.kp_events.specs.Answers.{IsWant};

    ghost from_gives = { λ _ e. IsWant e };

    fn from(refused: AllocFailed<T>) -> EventFault {
        EventFault::NoMemory(NoMemory::from(refused))
    }
}
