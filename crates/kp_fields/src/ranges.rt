//! The ranges of a node that has addresses of one family or of both.
ghost use Rattle.std.specs.Prelude.{◌≡◌, [], ◌∷◌, option_map, option_and_then, unwrap_or};
ghost use Rattle.kp_json.specs.Views.{place_of};
ghost use Rattle.kp_row_defs.specs.Fields.{of_both_families, ranges_in, ranges_of_text, text_of};
ghost use Rattle.kp_row_defs.specs.Reads.{Reads};
ghost use Rattle.kp_row_defs.specs.Rows.{optional, ranges_text, field_fault, form_fault};
ghost use Rattle.kp_fields.specs.FamilyRanges.{by_family};

use kp_base::{Cidr, Family, split_once};
use kp_json::{FieldFault, Spot, Why};
use std::alloc::Global;

/// A range of IPv4 and one of IPv6, where they are there.
type FamilyRanges = (Option<Cidr>, Option<Cidr>);

/// The ranges of a member that may be absent: one, or one of each family with a comma between them.
pub fn ranges_field<'a>(
    alloc: Global,
    spot: &'a Spot<'a>,
    name: &'a str,
) -> Result<FamilyRanges, FieldFault>
    ensures { Reads (λ r. r) result
        (field_fault name.now optional ranges_text (place_of spot.now))
        (by_family (ranges_in name.now (place_of spot.now))) }
{
    match spot.field(alloc, name)? {
        None => Ok((None, None)),
        Some(member) => match member.as_text() {
            Some(text) if text.is_empty() => Ok((None, None)),
            _ => ranges_here(alloc, &member),
        },
    }
}

/// The ranges here.
fn ranges_here(alloc: Global, spot: &Spot<'_>) -> Result<FamilyRanges, FieldFault>
    ensures { Reads (λ r. r) result (form_fault ranges_text (place_of spot.now))
        (by_family (unwrap_or (option_and_then ranges_of_text (text_of (place_of spot.now))) [])) }
{
    match ranges_of_text(spot.str_at(alloc)?.as_bytes()) {
        Some(ranges) => Ok(ranges),
        None => Err(spot.bad(alloc, Why::BadCidr)),
    }
}

/// The ranges that a text writes.
fn ranges_of_text(text: &[u8]) -> Option<FamilyRanges>
    ensures { result ≡ option_map by_family (ranges_of_text text.now) }
{
    match split_once(text, b',') {
        None => Some(of_one(Cidr::parse_any(text).ok()?)),
        Some((first, second)) => {
            of_both(Cidr::parse_any(first).ok()?, Cidr::parse_any(second).ok()?)
        }
    }
}

/// A range by its family.
fn of_one(range: Cidr) -> FamilyRanges
    ensures { result ≡ by_family (range ∷ []) }
{
    match range.base().family() {
        Family::V4 => (Some(range), None),
        Family::V6 => (None, Some(range)),
    }
}

/// Two ranges by their families, which have to differ.
fn of_both(first: Cidr, second: Cidr) -> Option<FamilyRanges>
    ensures { result ≡ option_map by_family (of_both_families first second) }
{
    match (first.base().family(), second.base().family()) {
        (Family::V4, Family::V6) => Some((Some(first), Some(second))),
        (Family::V6, Family::V4) => Some((Some(second), Some(first))),
        _ => None,
    }
}
