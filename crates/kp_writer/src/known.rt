//! What is kept of a port.
ghost use Rattle.std.specs.Prelude.{◌≡◌, IfOk};

use kp_base::{Kept, NoMemory};
use kp_history_defs::same_info;
use kp_tracker::Told;
use kp_types::PortInfo;
use std::alloc::Global;
use std::marker::Model;

/// What is known of a port. What it contributes to the table is a function of this alone. It stands
/// behind a pointer, since maps move what they hold and have room for more than they hold.
pub struct Known {
    info: Kept<PortInfo>,
}

impl Drop for Known {
    fn drop(self) {
        let Known { info } = self;
    }
}

impl Model for Known {
    ghost use Rattle.kp_types.specs.contracts.info.PortInfo as info_row;
    ghost use Rattle.kp_types.specs.declared.info.PortInfo.{PortInfo};

    ghost Value = { PortInfo };

    ghost coded = { info_row.the_row.coded };

    ghost view = { λ k. k.info };
}

impl Known {
    /// What is known of a port.
    pub fn of(alloc: Global, info: PortInfo) -> Result<Known, NoMemory>
        ensures { IfOk result (λ k. k ≡ info) }
    {
        Ok(Known {
            info: Kept::of(alloc, info)?,
        })
    }

    /// It.
    pub fn info(&self) -> &PortInfo
        ensures { result.now ≡ self.now }
    {
        self.info.get()
    }
}

/// Two are alike where the same is known of both.
impl Told for Known {
    ghost use Rattle.kp_history_defs.specs.DirtyPorts.{same_info as is_same};
    ghost use Rattle.kp_writer.specs.Alike.{info_tells};

    ghost same = { is_same };

    ghost tells = { info_tells };

    fn is_same(&self, other: &Known) -> bool {
        same_info(self.info(), other.info())
    }
}
