//! The filter: which packets are refused at Services without endpoints, and at load balancers.
ghost use Rattle.std.specs.Prelude.{◌≡◌, List};
ghost use Rattle.std.specs.List.{find, flat_map};
ghost use Rattle.kp_base.specs.declared.address.Family.{Family};
ghost use Rattle.kp_types.specs.Setting.{config_for};
ghost use Rattle.kp_types.specs.declared.info.PortInfo.{PortInfo};
ghost use Rattle.kp_door_defs.specs.Filter as spec;
ghost use Rattle.kp_decide.specs.Listed.{chain_lines};

use crate::lines::{Chain, Line, first_line};
use crate::local::is_local;
use crate::sources::PortRow;
use kp_base::Config;
use kp_types::{Origin, Packet};

/// The first line that a packet fits, hook by hook, by what is known of the ports of any family.
pub fn filtered<'a, R: PortRow>(config: &Config, ports: &'a R, packet: &Packet) -> Option<Line<'a>>
    ensures { (family : Family) → result
        ≡ spec.filtered (config_for family config.now) (R.infos ports.now) packet.entry.now }
{
    let chains = chains_on_way(config, packet);
    for chain in chains {
        match first_line(*chain, config, ports, packet) {
            Some(line) => return Some(line),
            None => {}
        }
    }
    None
}

/// The chains of the hooks that a packet passes.
fn chains_on_way(config: &Config, packet: &Packet) -> &'static [Chain]
    ensures { (family : Family) (infos : List PortInfo) →
        flat_map (λ c. flat_map (chain_lines c) infos) result.now
        ≡ flat_map (λ h. spec.hook_lines h infos)
        (spec.hooks_of (config_for family config.now) packet.entry.now) }
{
    match (packet.from, is_local(config, &packet.target)) {
        (Origin::Wire, true) => &[Chain::Firewall, Chain::External],
        (Origin::Wire, false) => &[Chain::Firewall, Chain::External, Chain::Services],
        (Origin::Node, true) => {
            &[
                Chain::Firewall,
                Chain::Services,
                Chain::Firewall,
                Chain::External,
            ]
        }
        (Origin::Node, false) => &[Chain::Firewall, Chain::Services],
    }
}
