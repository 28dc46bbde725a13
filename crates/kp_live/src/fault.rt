//! Why a live run ended before all was written.
use kp_base::NoMemory;
use kp_io::Failed;
use kp_streams::InputFault;

/// Why a live run ended before all was written.
#[derive(Clone, Copy, Debug, PartialEq, Eq)]
pub enum LiveFault {
    /// There was no memory.
    NoMemory(NoMemory),
    /// A read of the source failed.
    ReadFault,
    /// The source has more than 4,294,967,296 bytes.
    InputTooLong,
    /// A write failed.
    WriteFault,
}

impl From<NoMemory> for LiveFault {
    ghost use Rattle.std.specs.Prelude.{◌≡◌};
    ghost use Rattle.kp_live.specs.declared.fault.LiveFault.TheVariants as fault;

    ghost from_gives = { λ refused e. e ≡ fault.NoMemory refused };

    fn from(refused: NoMemory) -> LiveFault {
        LiveFault::NoMemory(refused)
    }
}

impl From<InputFault> for LiveFault {
    ghost use Rattle.std.specs.Prelude.{◌≡◌};
    ghost use Rattle.kp_live.specs.Faults.{fault_of_input};

    ghost from_gives = { λ f e. e ≡ fault_of_input f };

    fn from(fault: InputFault) -> LiveFault {
        match fault {
            InputFault::NoMemory(refused) => LiveFault::NoMemory(refused),
            InputFault::ReadFault => LiveFault::ReadFault,
            InputFault::InputTooLong => LiveFault::InputTooLong,
        }
    }
}
