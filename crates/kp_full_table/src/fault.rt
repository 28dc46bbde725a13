//! Why a table isn't made.
use kp_base::NoMemory;
use kp_names::NameFault;
use kp_types::Clash;

/// Why a table isn't made.
#[derive(Drop)]
pub enum TableFault {
    /// Two different chains that are needed have one name.
    ChainClash(Clash),
    NoMemory(NoMemory),
}

impl From<NoMemory> for TableFault {
    ghost use Rattle.std.specs.Prelude.{◌≡◌};
    ghost use Rattle.kp_full_table.specs.declared.fault.TableFault.TheVariants.{NoMemory};

    ghost from_gives = { λ refused fault. fault ≡ NoMemory refused };

    fn from(refused: NoMemory) -> TableFault {
        TableFault::NoMemory(refused)
    }
}

impl From<NameFault> for TableFault {
    ghost use Rattle.std.specs.Prelude.{◌≡◌};
    ghost use Rattle.kp_full_table.specs.Faults.{fault_of};

    ghost from_gives = { λ e fault. fault ≡ fault_of e };

    fn from(fault: NameFault) -> TableFault {
        match fault {
            NameFault::ChainClash(clash) => TableFault::ChainClash(clash),
            NameFault::NoMemory(refused) => TableFault::NoMemory(refused),
        }
    }
}
