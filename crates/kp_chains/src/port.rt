//! The chains of a port of a Service.
ghost use Rattle.std.specs.Prelude.{◌≡◌, ◌+◌, IfOk, OnOk, OnErr};
ghost use Rattle.kp_choice_defs.specs.Settings.{setting_of};
ghost use Rattle.kp_chains.specs.Rows.{rows_of_texts, rule_count};
ghost use Rattle.kp_chains.specs.Ports.{rows_known};
ghost use Rattle.kp_port_info.specs.Infos.{known_of};

use crate::chains::info_chains;
use kp_base::{Config, Copied, Family, Items, NoMemory, Steps};
use kp_port_info::port_info;
use kp_types::{ChainText, Lists, Service, ServicePort};
use std::alloc::Global;
use std::sync::ledger::Ledger;

/// The chains of a port of a Service with these lists of endpoints in a family's tables, laid out
/// as kube-proxy's iptables mode lays them out (Kubernetes documents on virtual IPs): none where
/// the Service has no cluster address of the family. A step is taken for each of their rules;
/// without memory none is.
pub fn port_chains<L: Ledger>(
    alloc: Global,
    family: Family,
    service: &Service,
    port: &ServicePort,
    lists: &Lists,
    config: &Config,
    steps: &mut Steps<L>,
) -> Result<Items<ChainText>, NoMemory>
    ensures chains { IfOk result (λ cs. rows_of_texts cs
        ≡ rows_known (setting_of family config.now) (known_of family service.now port.now lists.now)) }
    ensures steps { OnOk result (steps.new ≡ steps.old + rule_count
        (rows_known (setting_of family config.now) (known_of family service.now port.now lists.now))) }
    ensures no_step { OnErr result (steps.new ≡ steps.old) }
{
    match port_info(alloc, family, service, port, lists.copy(alloc)?)? {
        Some(info) => Ok(Items::from_vec(info_chains(alloc, family, config, &info, steps)?)),
        None => Ok(Items::new(alloc)),
    }
}
