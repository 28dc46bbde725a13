//! Why names are refused.
use kp_base::NoMemory;
use kp_types::Clash;

/// Why names were refused.
#[derive(Drop)]
pub enum NameFault {
    /// Two different chains have one name.
    ChainClash(Clash),
    NoMemory(NoMemory),
}

impl From<NoMemory> for NameFault {
    ghost use Rattle.std.specs.Prelude.{◌≡◌};
    ghost use Rattle.kp_names.specs.declared.fault.NameFault.TheVariants.{NoMemory};

    ghost from_gives = { λ refused fault. fault ≡ NoMemory refused };

    fn from(refused: NoMemory) -> NameFault {
        NameFault::NoMemory(refused)
    }
}
