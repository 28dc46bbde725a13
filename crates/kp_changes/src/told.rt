//! Values of doors as lines tell them.
ghost use Rattle.std.specs.Prelude.{
  ◌≡◌,
  ◌++◌,
  ℕ,
  Bool,
  List,
  Some,
  OnErr,
  OnOk,
  codes,
  string_bytes,
  option_copied,
};
ghost use Rattle.std.specs.List.{flat_map};
ghost use Rattle.kp_types.specs.contracts.service.PolicyPartialEq.TheImpl as policy_eq;
ghost use Rattle.kp_print.specs.Fronts.{HasFront};
ghost use Rattle.kp_change_defs.specs.DoorValues as values;
ghost use Rattle.kp_change_defs.specs.ValueText as spec;

use kp_base::{Cidr, NoMemory};
use kp_print::{push, push_address, push_labelled};
use kp_types::Policy;

/// A value of a door that a line tells where it differs.
pub trait Told {
    /// What is told of it.
    ghost told: { Self → List ℕ };

    /// Whether two values are one.
    ghost same: { Self → Self → Bool };

    /// Adds what is told of it.
    fn push_to(&self, text: &mut String) -> Result<(), NoMemory>
        ensures added { OnOk result (string_bytes text.new
            ≡ string_bytes text.old ++ told self.now) }
        ensures front { OnErr result (HasFront text.new text.old) };

    /// Whether it is one with another.
    fn is_same(&self, other: &Self) -> bool
        ensures { result ≡ same self.now other.now };
}

/// Adds a value before and after, where it differs, or at a door that comes that after alone.
pub fn push_value<V: Told>(
    text: &mut String,
    comes: bool,
    before: &V,
    after: &V,
) -> Result<(), NoMemory>
    ensures added { OnOk result (string_bytes text.new ≡ string_bytes text.old
        ++ spec.unless (V.same before.now after.now)
        (codes "; " ++ spec.before_after_text comes (V.told before.now) (V.told after.now))) }
    ensures front { OnErr result (HasFront text.new text.old) }
{
    if before.is_same(after) {
        return Ok(());
    }
    push(text, "; ")?;
    push_before_after(text, comes, before, after)
}

/// Adds a value after that of before, or by itself at a door that comes.
fn push_before_after<V: Told>(
    text: &mut String,
    comes: bool,
    before: &V,
    after: &V,
) -> Result<(), NoMemory>
    ensures added { OnOk result (string_bytes text.new ≡ string_bytes text.old
        ++ spec.before_after_text comes (V.told before.now) (V.told after.now)) }
    ensures front { OnErr result (HasFront text.new text.old) }
{
    if comes {
        return after.push_to(text);
    }
    before.push_to(text)?;
    push(text, ", now ")?;
    after.push_to(text)
}

/// A traffic policy.
impl Told for Policy {
    ghost told = { spec.policy_text };

    ghost same = { policy_eq.ghosts.eq };

    fn push_to(&self, text: &mut String) -> Result<(), NoMemory> {
        match self {
            Policy::Cluster => push(text, "policy Cluster"),
            Policy::Local => push(text, "policy Local"),
        }
    }

    fn is_same(&self, other: &Policy) -> bool {
        *self == *other
    }
}

/// Session affinity, by its timeout.
impl Told for Option<u32> {
    ghost told = { spec.affinity_text };

    ghost same = { values.same_affinity };

    fn push_to(&self, text: &mut String) -> Result<(), NoMemory> {
        match self {
            Some(seconds) => push_labelled(text, "affinity ", *seconds as u64),
            None => push(text, "affinity none"),
        }
    }

    fn is_same(&self, other: &Option<u32>) -> bool {
        *self == *other
    }
}

/// The source ranges that are admitted, where sources are restricted.
impl<'a> Told for Option<&'a [Cidr]> {
    ghost told = { λ ranges. spec.sources_text (option_copied ranges) };

    ghost same = { λ a b. values.same_sources (option_copied a) (option_copied b) };

    fn push_to(&self, text: &mut String) -> Result<(), NoMemory> {
        match self {
            Some(ranges) => push_ranges(text, *ranges),
            None => push(text, "sources any"),
        }
    }

    fn is_same(&self, other: &Option<&'a [Cidr]>) -> bool {
        match (self, other) {
            (None, None) => true,
            (Some(a), Some(b)) => *a == *b,
            _ => false,
        }
    }
}

/// Adds ranges with commas between them, or a word where there are none.
fn push_ranges(text: &mut String, ranges: &[Cidr]) -> Result<(), NoMemory>
    ensures added { OnOk result (string_bytes text.new
        ≡ string_bytes text.old ++ spec.sources_text (Some ranges.now)) }
    ensures front { OnErr result (HasFront text.new text.old) }
{
    let Some((first, rest)) = ranges.split_first() else {
        return push(text, "sources none");
    };
    push(text, "sources ")?;
    push_range(text, first)?;
    push_more_ranges(text, rest)
}

fn push_more_ranges(text: &mut String, ranges: &[Cidr]) -> Result<(), NoMemory>
    ensures added { OnOk result (string_bytes text.new
        ≡ string_bytes text.old ++ flat_map spec.next_range_text ranges.now) }
    ensures front { OnErr result (HasFront text.new text.old) }
{
    for range in ranges {
        push(text, ", ")?;
        push_range(text, range)?;
    }
    Ok(())
}

/// Adds a range.
fn push_range(text: &mut String, range: &Cidr) -> Result<(), NoMemory>
    ensures added { OnOk result (string_bytes text.new
        ≡ string_bytes text.old ++ spec.range_text range.now) }
    ensures front { OnErr result (HasFront text.new text.old) }
{
    push_address(text, &range.base())?;
    push_labelled(text, "/", range.bits() as u64)
}
