//! Why a script line was not read.
use kp_base::NoMemory;
use kp_events::EventFault;
use kp_json::FieldFault;
use kp_text_defs::LineRefusal;

/// Why a line was not read.
#[derive(Drop)]
pub enum ScriptFault {
    /// The line is refused, for this reason.
    Refused(LineRefusal),
    NoMemory(NoMemory),
}

impl From<FieldFault> for ScriptFault {
    ghost use Rattle.kp_script.specs.ScriptAnswers.{of_field_fault};
    ghost use Rattle.std.specs.Prelude.{◌≡◌};

    ghost from_gives = { λ f e. e ≡ of_field_fault f };

    fn from(fault: FieldFault) -> ScriptFault {
        match fault {
            FieldFault::Bad(field) => ScriptFault::Refused(LineRefusal::Bad(field)),
            FieldFault::NoMemory(refused) => ScriptFault::NoMemory(refused),
        }
    }
}

impl From<EventFault> for ScriptFault {
    ghost use Rattle.kp_script.specs.ScriptAnswers.{of_event_fault};
    ghost use Rattle.std.specs.Prelude.{◌≡◌};

    ghost from_gives = { λ f e. e ≡ of_event_fault f };

    fn from(fault: EventFault) -> ScriptFault {
        match fault {
            EventFault::NotEvent => ScriptFault::Refused(LineRefusal::NotEvent),
            EventFault::UnsupportedKind { kind } => {
                ScriptFault::Refused(LineRefusal::UnsupportedKind { kind })
            }
            EventFault::Bad(field) => ScriptFault::Refused(LineRefusal::Bad(field)),
            EventFault::NoMemory(refused) => ScriptFault::NoMemory(refused),
        }
    }
}
