//! Objects whose members are texts: labels and selectors.
ghost use Rattle.std.specs.Prelude.{◌≡◌, None, map};
ghost use Rattle.kp_json.specs.Places.{members_of};
ghost use Rattle.kp_json.specs.Views.{place_of};
ghost use Rattle.kp_row_defs.specs.Fields.{pair_of, pairs_in};
ghost use Rattle.kp_row_defs.specs.Reads.{Reads};
ghost use Rattle.kp_row_defs.specs.Rows.{optional, texts, field_fault, form_fault};

use crate::text::copied_text;
use kp_base::{Items, Pair};
use kp_json::{FieldFault, Spot};
use std::alloc::Global;

/// The pairs of an object of texts, by bytes of the keys.
pub fn pairs_field<'a>(
    alloc: Global,
    spot: &'a Spot<'a>,
    name: &'a str,
) -> Result<Items<Pair>, FieldFault>
    ensures { Reads (λ p. p) result (field_fault name.now optional texts (place_of spot.now))
        (pairs_in name.now (place_of spot.now)) }
{
    match spot.field(alloc, name)? {
        None => Ok(Items::new(alloc)),
        Some(member) => pairs_here(alloc, &member),
    }
}

fn pairs_here<'a>(alloc: Global, spot: &'a Spot<'a>) -> Result<Items<Pair>, FieldFault>
    ensures { Reads (λ p. p) result (form_fault texts (place_of spot.now))
        (map pair_of (members_of (place_of spot.now))) }
{
    let count = spot.member_len(alloc)? as usize;
    let mut pairs = Vec::with_capacity(alloc, count)?;
    for (key, member) in spot.members(alloc)? {
        let value = member.str_at(alloc)?;
        pairs.push(copied_pair(alloc, key, value)?)?;
    }
    Ok(Items::from_vec(pairs))
}

fn copied_pair(alloc: Global, key: &str, value: &str) -> Result<Pair, FieldFault>
    ensures { Reads (λ p. p) result None (record { key = key.now; value = value.now }) }
{
    Ok(Pair {
        key: copied_text(alloc, key)?,
        value: copied_text(alloc, value)?,
    })
}

/// Refuses an object that holds another thing than texts, and reads nothing of it.
pub fn check_texts<'a>(alloc: Global, spot: &'a Spot<'a>, name: &'a str) -> Result<(), FieldFault>
    ensures { Reads (λ u. u) result (field_fault name.now optional texts (place_of spot.now)) tt }
{
    match spot.field(alloc, name)? {
        None => Ok(()),
        Some(member) => check_texts_here(alloc, &member),
    }
}

fn check_texts_here<'a>(alloc: Global, spot: &'a Spot<'a>) -> Result<(), FieldFault>
    ensures { Reads (λ u. u) result (form_fault texts (place_of spot.now)) tt }
{
    for (_key, member) in spot.members(alloc)? {
        member.str_at(alloc)?;
    }
    Ok(())
}
