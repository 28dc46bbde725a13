//! Numbers and truth values.
ghost use Rattle.std.specs.Prelude.{◌≡◌, ◌≤◌, IfOk, IfSome, unwrap_or};
ghost use Rattle.kp_json.specs.Views.{place_of};
ghost use Rattle.kp_row_defs.specs.Fields.{flag_in, whole_in};
ghost use Rattle.kp_row_defs.specs.Reads.{Reads};
ghost use Rattle.kp_row_defs.specs.Rows.{optional, needed, whole, truth_value, field_fault};

use kp_base::PortNo;
use kp_json::{FieldFault, Spot};
use std::alloc::Global;

/// A whole number that may be absent.
pub fn whole_field<'a>(
    alloc: Global,
    spot: &'a Spot<'a>,
    name: &'a str,
    least: u64,
    most: u64,
) -> Result<Option<u64>, FieldFault>
    ensures number { Reads (λ n. n) result
        (field_fault name.now optional (whole least most) (place_of spot.now))
        (whole_in name.now (place_of spot.now)) }
    ensures bounds { IfOk result (λ o. IfSome o (λ n. (least ≤ n) × (n ≤ most))) }
{
    match spot.field(alloc, name)? {
        None => Ok(None),
        Some(member) => Ok(Some(member.whole_at(alloc, least, most)?)),
    }
}

/// A port number that may be absent.
pub fn port_field<'a>(
    alloc: Global,
    spot: &'a Spot<'a>,
    name: &'a str,
) -> Result<Option<PortNo>, FieldFault>
    ensures { Reads (λ n. n) result
        (field_fault name.now optional (whole 1 65535) (place_of spot.now))
        (whole_in name.now (place_of spot.now)) }
{
    match spot.field(alloc, name)? {
        None => Ok(None),
        Some(member) => Ok(PortNo::new(member.whole_at(alloc, 1, 65535)?)),
    }
}

/// A port number that has to be there.
pub fn needed_port<'a>(
    alloc: Global,
    spot: &'a Spot<'a>,
    name: &'a str,
) -> Result<PortNo, FieldFault>
    ensures { Reads (λ n. n) result
        (field_fault name.now needed (whole 1 65535) (place_of spot.now))
        (unwrap_or (whole_in name.now (place_of spot.now)) 0) }
{
    let member = spot.needed(alloc, name)?;
    let number = member.whole_at(alloc, 1, 65535)?;
    Ok(PortNo::new(number).unwrap())
}

/// A truth value that may be absent.
pub fn flag_field<'a>(
    alloc: Global,
    spot: &'a Spot<'a>,
    name: &'a str,
) -> Result<Option<bool>, FieldFault>
    ensures { Reads (λ b. b) result
        (field_fault name.now optional truth_value (place_of spot.now))
        (flag_in name.now (place_of spot.now)) }
{
    match spot.field(alloc, name)? {
        None => Ok(None),
        Some(member) => Ok(Some(member.flag_at(alloc)?)),
    }
}
