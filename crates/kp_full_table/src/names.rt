//! Whether the chains that ports need have names of their own.
ghost use Rattle.std.specs.Prelude.{◌≡◌, None, IfErr, OnOk, map};
ghost use Rattle.kp_choice_defs.specs.Names.{chain_name, first_clash};
ghost use Rattle.kp_table_defs.specs.Rebuild.{needed_keys};
ghost use Rattle.kp_full_table.specs.Faults.{TellsClash};

use crate::fault::TableFault;
use crate::keys::needed_keys;
use kp_base::Config;
use kp_names::Namer;
use kp_types::PortInfo;
use std::alloc::Global;

/// Checks that no two different chains that ports need have one name. Otherwise the fault has the
/// clash whose first chain comes first, and of those the one whose second chain does. All names
/// are made and compared.
pub fn check_names(alloc: Global, config: &Config, infos: &[&PortInfo]) -> Result<(), TableFault>
    ensures no_clash { OnOk result (first_clash (chain_name config.now.name_length)
        (needed_keys (map (λ i. i.now) infos.now)) ≡ None) }
    ensures clash { IfErr result (TellsClash (first_clash (chain_name config.now.name_length)
        (needed_keys (map (λ i. i.now) infos.now)))) }
{
    let keys = needed_keys(alloc, infos)?;
    Ok(Namer::new(config.name_length).check_names(alloc, &keys)?)
}
