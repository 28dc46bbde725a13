//! Lines that set the configuration.
ghost use Rattle.std.specs.Prelude.{◌≡◌, ◌≤◌, codes, unwrap_or, IfOk};
ghost use Rattle.kp_json.specs.Views.{place_of};
ghost use Rattle.kp_row_defs.specs.Fields.{flag_in, text_in};
ghost use Rattle.kp_row_defs.specs.Reads.{Reads};
ghost use Rattle.kp_row_defs.specs.Rows.{field_fault, name_text, optional, rows_fault, truth_value, whole};
ghost use Rattle.kp_text_defs.specs.ConfigText.{config_from, config_rows, default_config, number_in};

use kp_base::{Config, Items, NoMemory, Text};
use kp_fields::{
    TextForm, addresses_field, copied_text, flag_field, ranges_field, text_field, whole_field,
};
use kp_json::{FieldFault, Spot};
use std::alloc::Global;

/// The configuration of a script that sets none.
pub fn default_config(alloc: Global) -> Result<Config, NoMemory>
    ensures { IfOk result (λ c. c ≡ default_config) }
{
    Ok(Config {
        node: Text::of(alloc, "node")?,
        addresses: Items::new(alloc),
        cluster: None,
        cluster6: None,
        dual: false,
        masquerade_all: false,
        controller: true,
        max_per_slice: 100,
        max_events: 1_000_000,
        recent_size: 100,
        name_length: 16,
    })
}

/// The configuration.
pub(crate) fn config_of<'a>(alloc: Global, spot: &'a Spot<'a>) -> Result<Config, FieldFault>
    ensures { Reads (λ c. c) result (rows_fault config_rows (place_of spot.now))
        (config_from (place_of spot.now)) }
{
    let node = node_field(alloc, spot)?;
    let addresses = addresses_field(alloc, spot, "nodeAddresses")?;
    let (cluster, cluster6) = ranges_field(alloc, spot, "clusterCIDR")?;
    let masquerade_all = flag_or(alloc, spot, "masqueradeAll", false)?;
    let dual = flag_or(alloc, spot, "dualStack", false)?;
    let controller = flag_or(alloc, spot, "controller", true)?;
    let max_per_slice = count_field(alloc, spot, "maxEndpointsPerSlice", 1000, 100)?;
    let max_events = number_field(alloc, spot, "maxEvents", 1, 1000000, 1000000)?;
    let recent_size = count_field(alloc, spot, "recentSize", 1000, 100)?;
    let name_length = name_length_field(alloc, spot)?;
    Ok(Config {
        node,
        addresses,
        cluster,
        cluster6,
        dual,
        masquerade_all,
        controller,
        max_per_slice,
        max_events,
        recent_size,
        name_length,
    })
}

/// The name of the node.
fn node_field<'a>(alloc: Global, spot: &'a Spot<'a>) -> Result<Text, FieldFault>
    ensures { Reads (λ t. t) result
        (field_fault (codes "node") optional name_text (place_of spot.now))
        (unwrap_or (text_in (codes "node") (place_of spot.now)) (codes "node")) }
{
    let name = text_field(alloc, spot, "node", TextForm::Name)?;
    copied_text(alloc, name.unwrap_or("node"))
}

/// A truth value, or else a default.
pub(crate) fn flag_or<'a>(
    alloc: Global,
    spot: &'a Spot<'a>,
    name: &'a str,
    default: bool,
) -> Result<bool, FieldFault>
    ensures { Reads (λ b. b) result (field_fault name.now optional truth_value (place_of spot.now))
        (unwrap_or (flag_in name.now (place_of spot.now)) default) }
{
    let flag = flag_field(alloc, spot, name)?;
    Ok(flag.unwrap_or(default))
}

/// A number within bounds, or else a default.
fn number_field<'a>(
    alloc: Global,
    spot: &'a Spot<'a>,
    name: &'a str,
    least: u64,
    most: u64,
    default: u64,
) -> Result<u64, FieldFault>
    requires from { least ≤ default }
    requires to { default ≤ most }
    ensures number { Reads (λ n. n) result
        (field_fault name.now optional (whole least most) (place_of spot.now))
        (number_in least most default name.now (place_of spot.now)) }
    ensures bounds { IfOk result (λ n. (least ≤ n) × (n ≤ most)) }
{
    match whole_field(alloc, spot, name, least, most)? {
        None => Ok(default),
        Some(number) => Ok(number),
    }
}

/// A number from 1 on, or else a default.
fn count_field<'a>(
    alloc: Global,
    spot: &'a Spot<'a>,
    name: &'a str,
    most: u32,
    default: u32,
) -> Result<u32, FieldFault>
    requires from { 1 ≤ default }
    requires to { default ≤ most }
    ensures number { Reads (λ n. n) result
        (field_fault name.now optional (whole 1 most) (place_of spot.now))
        (number_in 1 most default name.now (place_of spot.now)) }
    ensures bounds { IfOk result (λ n. (1 ≤ n) × (n ≤ most)) }
{
    let number = number_field(alloc, spot, name, 1, most as u64, default as u64)?;
    Ok(number as u32)
}

/// How many characters of its hash a chain's name has.
fn name_length_field<'a>(alloc: Global, spot: &'a Spot<'a>) -> Result<u8, FieldFault>
    ensures number { Reads (λ n. n) result
        (field_fault (codes "nameLength") optional (whole 0 16) (place_of spot.now))
        (number_in 0 16 16 (codes "nameLength") (place_of spot.now)) }
    ensures bounds { IfOk result (λ n. n ≤ 16) }
{
    let number = number_field(alloc, spot, "nameLength", 0, 16, 16)?;
    Ok(number as u8)
}
