//! The pieces of the line of a kind of source.
ghost use Rattle.std.specs.Prelude.{◌≡◌, ◌++◌, ◌∷◌, [], OnErr, OnOk, map, option_map, string_bytes};
ghost use Rattle.std.specs.List.{filter, flat_map};
ghost use Rattle.kp_types.specs.Setting.{config_for};
ghost use Rattle.kp_text_defs.specs.Printed.{verdict_text};
ghost use Rattle.kp_print.specs.Fronts.{HasFront};
ghost use Rattle.kp_decide.specs.Shown.{shown_refusal};
ghost use Rattle.kp_path_defs.specs.PathText as path;
ghost use Rattle.kp_path_defs.specs.Sources as spec;
ghost use Rattle.kp_paths.specs.SourceWords as words;

use crate::asides::admits;
use crate::source_kinds::{Restricted, is_within};
use crate::words::{list_word, push_door};
use kp_base::{Address, Config, Family, NoMemory, PortKey};
use kp_decide::{Door, Refusal, is_in_cluster, is_local};
use kp_print::{push, push_address, push_labelled};
use kp_report::push_port;
use kp_types::ListKind;

/// Adds what the line of a kind begins with: its number, its least address, where that is, and the
/// load balancers in whose ranges it is.
pub fn push_head(
    text: &mut String,
    family: Family,
    config: &Config,
    restricted: &[Restricted<'_>],
    number: u64,
    address: &Address,
) -> Result<(), NoMemory>
    ensures added { OnOk result (string_bytes text.new ≡ string_bytes text.old ++ words.head_text
        number (config_for family config.now) restricted.now address.now) }
    ensures front { OnErr result (HasFront text.new text.old) }
{
    push_start(text, number, address)?;
    push_where(text, family, config, restricted, address)
}

/// Adds the number and the least address.
fn push_start(text: &mut String, number: u64, address: &Address) -> Result<(), NoMemory>
    ensures added { OnOk result (string_bytes text.new
        ≡ string_bytes text.old ++ words.start_text number address.now) }
    ensures front { OnErr result (HasFront text.new text.old) }
{
    push_labelled(text, "source ", number)?;
    push(text, " ")?;
    push_address(text, address)?;
    push(text, ", ")
}

/// Adds where an address is.
fn push_where(
    text: &mut String,
    family: Family,
    config: &Config,
    restricted: &[Restricted<'_>],
    address: &Address,
) -> Result<(), NoMemory>
    ensures added { OnOk result (string_bytes text.new ≡ string_bytes text.old
        ++ words.where_text (config_for family config.now) restricted.now address.now) }
    ensures front { OnErr result (HasFront text.new text.old) }
{
    let is_inside = is_in_cluster(family, config, address);
    push(text, whence_word(is_inside, is_local(config, address)))?;
    push_within(text, restricted, address)?;
    push(text, ": ")
}

/// The word for where an address is.
fn whence_word(cluster: bool, node: bool) -> &'static str
    ensures { result.now ≡ path.whence_by cluster node }
{
    match (cluster, node) {
        (false, false) => "outside",
        (true, false) => "cluster",
        (false, true) => "node",
        (true, true) => "cluster and node",
    }
}

/// Adds the load balancers in whose ranges an address is.
fn push_within(
    text: &mut String,
    restricted: &[Restricted<'_>],
    address: &Address,
) -> Result<(), NoMemory>
    ensures added { OnOk result (string_bytes text.new ≡ string_bytes text.old
        ++ flat_map path.within_text (map (λ r. r.port)
        (filter (spec.is_within address.now) restricted.now))) }
    ensures front { OnErr result (HasFront text.new text.old) }
{
    for one in restricted {
        push_if_within(text, one, address)?;
    }
    Ok(())
}

/// Adds a load balancer, if an address is in its ranges.
fn push_if_within(
    text: &mut String,
    one: &Restricted<'_>,
    address: &Address,
) -> Result<(), NoMemory>
    ensures added { OnOk result (string_bytes text.new ≡ string_bytes text.old
        ++ flat_map path.within_text (map (λ r. r.port)
        (filter (spec.is_within address.now) (one.now ∷ [])))) }
    ensures front { OnErr result (HasFront text.new text.old) }
{
    if is_within(address, one) {
        push_range_port(text, one.port)
    } else {
        Ok(())
    }
}

/// Adds a load balancer in whose ranges an address is.
fn push_range_port(text: &mut String, port: &PortKey) -> Result<(), NoMemory>
    ensures added { OnOk result (string_bytes text.new
        ≡ string_bytes text.old ++ path.within_text port.now) }
    ensures front { OnErr result (HasFront text.new text.old) }
{
    push(text, ", in ranges of ")?;
    push_port(text, port)
}

/// Adds a number of endpoints, where it isn't 0.
pub fn push_number_of(text: &mut String, word: &str, number: u64) -> Result<(), NoMemory>
    ensures added { OnOk result (string_bytes text.new
        ≡ string_bytes text.old ++ path.number_text word.now number) }
    ensures front { OnErr result (HasFront text.new text.old) }
{
    if number == 0 {
        return Ok(());
    }
    push(text, ", ")?;
    push(text, word)?;
    push_labelled(text, " ", number)
}

/// Adds a door and its list, at the end of a line.
pub fn push_offered(text: &mut String, door: &Door<'_>, list: ListKind) -> Result<(), NoMemory>
    ensures added { OnOk result (string_bytes text.new
        ≡ string_bytes text.old ++ words.offered_text door.now list) }
    ensures front { OnErr result (HasFront text.new text.old) }
{
    push_second(text, door)?;
    push_list(text, list)
}

/// Adds a list, at the end of a line.
fn push_list(text: &mut String, list: ListKind) -> Result<(), NoMemory>
    ensures added { OnOk result (string_bytes text.new
        ≡ string_bytes text.old ++ words.list_text list) }
    ensures front { OnErr result (HasFront text.new text.old) }
{
    push(text, " list ")?;
    push(text, list_word(list))?;
    push(text, "\n")
}

/// Adds a door that isn't the first piece.
fn push_second(text: &mut String, door: &Door<'_>) -> Result<(), NoMemory>
    ensures added { OnOk result (string_bytes text.new
        ≡ string_bytes text.old ++ words.second_text door.now) }
    ensures front { OnErr result (HasFront text.new text.old) }
{
    push(text, "; ")?;
    push_door(text, door.kind, &door.info.key)
}

/// Adds why a door offers nothing to a source, and the door, at the end of a line.
pub fn push_closed(text: &mut String, door: &Door<'_>, source: &Address) -> Result<(), NoMemory>
    ensures added { OnOk result (string_bytes text.new
        ≡ string_bytes text.old ++ words.closed_text door.now source.now) }
    ensures front { OnErr result (HasFront text.new text.old) }
{
    push(text, ", ")?;
    push(text, cause_word(door, source))?;
    push_second(text, door)?;
    push(text, "\n")
}

/// What a packet that no door takes comes to.
pub fn verdict_word(refusal: Option<Refusal>) -> &'static str
    ensures { result.now
        ≡ verdict_text (words.verdict_if (option_map shown_refusal refusal)) }
{
    match refusal {
        Some(Refusal::Rejects) => "rejected",
        Some(Refusal::DropsClosed | Refusal::DropsNoLocal) => "dropped",
        None => "left alone",
    }
}

/// Why a door offers nothing to a source.
fn cause_word(door: &Door<'_>, source: &Address) -> &'static str
    ensures { result.now ≡ path.cause_text (spec.cause_at door.now source.now) }
{
    if !door.info.lists.has_any {
        return "no endpoints";
    }
    if admits(door, source) {
        "no local endpoints"
    } else {
        "not admitted"
    }
}
