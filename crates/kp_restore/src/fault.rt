//! Why a text isn't read.
use kp_base::NoMemory;

/// Why no table, or no batch, was read from a text.
#[derive(Clone, Copy, Debug, PartialEq, Eq)]
pub enum TextFault {
    /// No table, or no batch, has this text. The lines before this one, counted from 1, begin the
    /// text of some, and none has this line behind them. It may be the line after the last one
    /// that is ended.
    BadText { line: u64 },
    /// Memory ran out.
    NoMemory(NoMemory),
}

impl From<NoMemory> for TextFault {
    ghost use Rattle.std.specs.Prelude.{◌≡◌};
    ghost use Rattle.kp_restore.specs.declared.fault.TextFault.TheVariants.{NoMemory};

    ghost from_gives = { λ refused e. e ≡ NoMemory refused };

    fn from(refused: NoMemory) -> TextFault {
        TextFault::NoMemory(refused)
    }
}
