//! What a line begins with: the door, and the chain by which its packets go.
ghost use Rattle.std.specs.Prelude.{◌≡◌, ◌++◌, cond, None, Some, OnErr, OnOk, codes, string_bytes};
ghost use Rattle.kp_choice_defs.specs.AddressText.{host_text};
ghost use Rattle.kp_choice_defs.specs.Names.{chain_name};
ghost use Rattle.kp_table_defs.specs.Layout as layout;
ghost use Rattle.kp_types.specs.declared.decision.DoorKind.TheVariants.{Cluster};
ghost use Rattle.kp_print.specs.Fronts.{HasFront};
ghost use Rattle.kp_change_defs.specs.DoorText as spec;

use kp_base::{Address, Config, Endpoint, Family, NoMemory, PortNo};
use kp_chains::port_chain;
use kp_decide::Door;
use kp_print::{push, push_endpoint, push_labelled};
use kp_report::{door_word, push_port};
use kp_types::{DoorKind, Policy, PortChain, PortInfo};

/// Adds what a line begins with.
pub fn push_head(text: &mut String, config: &Config, door: &Door<'_>) -> Result<(), NoMemory>
    ensures added { OnOk result (string_bytes text.new
        ≡ string_bytes text.old ++ spec.head_text (chain_name config.now.name_length) door.now) }
    ensures front { OnErr result (HasFront text.new text.old) }
{
    push(text, "change ")?;
    push_door(text, door)?;
    push_by(text, config, door)
}

/// Adds a door.
fn push_door(text: &mut String, door: &Door<'_>) -> Result<(), NoMemory>
    ensures added { OnOk result (string_bytes text.new
        ≡ string_bytes text.old ++ spec.door_text door.now) }
    ensures front { OnErr result (HasFront text.new text.old) }
{
    push_port(text, &door.info.key)?;
    push(text, " ")?;
    push(text, door_word(door.kind))?;
    push(text, " ")?;
    push_destination(text, door.info.address.family(), door.address, door.number)
}

/// Adds where a door is.
fn push_destination(
    text: &mut String,
    family: Family,
    address: Option<Address>,
    number: PortNo,
) -> Result<(), NoMemory>
    ensures added { OnOk result (string_bytes text.new
        ≡ string_bytes text.old ++ spec.destination_text family address number) }
    ensures front { OnErr result (HasFront text.new text.old) }
{
    match address {
        Some(address) => {
            let endpoint = Endpoint {
                address,
                port: number,
            };
            push_endpoint(text, &endpoint)
        }
        None => {
            push(text, node_word(family))?;
            push_labelled(text, ":", number.get() as u64)
        }
    }
}

/// The word for the node's own addresses of a family.
fn node_word(family: Family) -> &'static str
    ensures { result.now ≡ host_text family (codes "*") }
{
    match family {
        Family::V4 => "*",
        Family::V6 => "[*]",
    }
}

/// The kind of chain that a rule of nat for a port's door jumps to, where there is such a rule.
fn chain_kind_at(kind: DoorKind, info: &PortInfo) -> Option<PortChain>
    ensures { result ≡ spec.chain_kind_at kind info.now }
{
    match kind {
        DoorKind::Cluster => cluster_chain(info),
        DoorKind::External | DoorKind::Node => chain_if(info.lists.has_any, PortChain::Ext),
        DoorKind::Balancer => chain_if(info.lists.has_any, balancer_chain(info)),
    }
}

/// The kind of chain that a cluster address has, where its list has endpoints.
fn cluster_chain(info: &PortInfo) -> Option<PortChain>
    ensures { result ≡ spec.chain_kind_at Cluster info.now }
{
    let (list, chain) = match info.internal {
        Policy::Cluster => (&info.lists.cluster, PortChain::Svc),
        Policy::Local => (&info.lists.local, PortChain::Svl),
    };
    chain_if(!list.as_slice().is_empty(), chain)
}

/// The kind of chain that load-balancer addresses have.
fn balancer_chain(info: &PortInfo) -> PortChain
    ensures { result ≡ layout.balancer_chain info.now.ranges }
{
    match info.ranges {
        Some(_) => PortChain::Fw,
        None => PortChain::Ext,
    }
}

/// A kind of chain where there is a rule.
fn chain_if(is_there: bool, chain: PortChain) -> Option<PortChain>
    ensures { result ≡ cond is_there (Some chain) None }
{
    if is_there { Some(chain) } else { None }
}

/// Adds the name of the chain by which a door's packets go, where there is one.
fn push_by(text: &mut String, config: &Config, door: &Door<'_>) -> Result<(), NoMemory>
    ensures added { OnOk result (string_bytes text.new ≡ string_bytes text.old
        ++ spec.by_text (chain_name config.now.name_length) door.now.info.key
        (spec.chain_kind_at door.now.kind door.now.info)) }
    ensures front { OnErr result (HasFront text.new text.old) }
{
    push_chain(text, config, door.info, chain_kind_at(door.kind, door.info))
}

/// Adds the name of a port's chain of a kind, where there is one.
fn push_chain(
    text: &mut String,
    config: &Config,
    info: &PortInfo,
    chain: Option<PortChain>,
) -> Result<(), NoMemory>
    ensures added { OnOk result (string_bytes text.new ≡ string_bytes text.old
        ++ spec.by_text (chain_name config.now.name_length) info.now.key chain) }
    ensures front { OnErr result (HasFront text.new text.old) }
{
    match chain {
        Some(chain) => {
            push(text, " by ")?;
            push(text, port_chain(config, info, chain).as_str())
        }
        None => Ok(()),
    }
}
