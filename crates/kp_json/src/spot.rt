//! Positions in a tree.
ghost use Rattle.std.specs.Prelude.{◌≡◌, ◌<◌, ◌≤◌, ◌^◌, Ok, Some, length, is_some, option_map, slice_get, IfOk};
ghost use Rattle.serde_json.specs.Find.{as_object, as_str};
ghost use Rattle.serde_json.specs.View.{view};
ghost use Rattle.kp_json.specs.Answers.{Gives, IsFault, fault_at, too_many_at};
ghost use Rattle.kp_json.specs.Paths.{way_path, member_path, item_path};
ghost use Rattle.kp_json.specs.Places.{field_at, needed_at, text_at, flag_at, whole_at, list_len_at, member_len_at, members_at, elements_at, elements_of, members_of, present_member, member_at, member_place, item_place};
ghost use Rattle.kp_json.specs.Views.{place_of, named_place, elements_left, members_left};

use crate::elements::Elements;
use crate::fault::{BadField, FieldFault, Why};
use crate::members::Members;
use crate::path::{PathText, Way};
use serde_json::Value;
use std::alloc::Global;

/// A position in a tree. Contracts see the data there and the path from the root.
#[derive(Drop)]
pub struct Spot<'a> {
    value: &'a Value,
    way: Way<'a>,
}

impl<'a> Spot<'a> {
    pub(crate) fn new(value: &'a Value, way: Way<'a>) -> Spot<'a>
        ensures { place_of result
            ≡ record { value = view value.entry.now; path = way_path way.entry } }
    {
        Spot { value, way }
    }

    /// Whether an object is here.
    pub fn is_object(&self) -> bool
        ensures { result ≡ is_some (as_object (place_of self.now).value) }
    {
        self.value.is_object()
    }

    /// The member of this name, unless it is absent or null. Where no object is here, it is absent.
    pub fn get(&'a self, name: &'a str) -> Option<Spot<'a>>
        ensures { option_map place_of result ≡ member_at (place_of self.now) name.now }
    {
        match present_member(self.value, name) {
            Some(value) => Some(self.member_spot(name, value)),
            None => None,
        }
    }

    /// The member of this name in the object here, unless it is absent or null.
    pub fn field(&'a self, alloc: Global, name: &'a str) -> Result<Option<Spot<'a>>, FieldFault>
        ensures { Gives (option_map place_of) result (field_at (place_of self.now) name.now) }
    {
        match self.value.as_object() {
            Some(_) => Ok(self.get(name)),
            None => Err(self.bad(alloc, Why::WrongType)),
        }
    }

    /// The member of this name, which has to be there.
    pub fn needed(&'a self, alloc: Global, name: &'a str) -> Result<Spot<'a>, FieldFault>
        ensures place { Gives place_of result (needed_at (place_of self.now) name.now) }
        ensures there { IfOk result (λ s.
            field_at (place_of self.now) name.now ≡ Ok (Some (place_of s))) }
    {
        match self.field(alloc, name)? {
            Some(spot) => Ok(spot),
            None => Err(self.missing(alloc, name)),
        }
    }

    /// The text here, if there is one.
    pub fn as_text(&self) -> Option<&'a str>
        ensures { option_map (λ t. t.now) result ≡ as_str (place_of self.now).value }
    {
        self.value.as_str()
    }

    /// The text here, as a slice of the tree.
    pub fn str_at(&self, alloc: Global) -> Result<&'a str, FieldFault>
        ensures { Gives (λ s. s.now) result (text_at (place_of self.now)) }
    {
        match self.value.as_str() {
            Some(text) => Ok(text),
            None => Err(self.bad(alloc, Why::WrongType)),
        }
    }

    /// A copy of the text here.
    pub fn text_at(&self, alloc: Global) -> Result<PathText, FieldFault>
        ensures { Gives (λ t. t) result (text_at (place_of self.now)) }
    {
        let text = self.str_at(alloc)?;
        PathText::of(alloc, text)
    }

    /// The truth value here.
    pub fn flag_at(&self, alloc: Global) -> Result<bool, FieldFault>
        ensures { Gives (λ b. b) result (flag_at (place_of self.now)) }
    {
        match self.value.as_bool() {
            Some(flag) => Ok(flag),
            None => Err(self.bad(alloc, Why::WrongType)),
        }
    }

    /// The whole number here.
    pub fn whole_at(&self, alloc: Global, least: u64, most: u64) -> Result<u64, FieldFault>
        ensures number { Gives (λ n. n) result (whole_at (place_of self.now) least most) }
        ensures bounds { IfOk result (λ n. (least ≤ n) × (n ≤ most)) }
    {
        match self.value.as_u64() {
            None => Err(self.bad(alloc, Why::WrongType)),
            Some(number) if number < least || most < number => {
                Err(self.bad(alloc, Why::OutOfRange))
            }
            Some(number) => Ok(number),
        }
    }

    /// How many elements the list here has.
    pub fn list_len(&self, alloc: Global) -> Result<u64, FieldFault>
        ensures { Gives (λ n. n) result (list_len_at (place_of self.now)) }
    {
        match self.value.as_array() {
            Some(items) => Ok(items.as_slice().len() as u64),
            None => Err(self.bad(alloc, Why::WrongType)),
        }
    }

    /// The i-th element of the list here, from 0.
    pub fn item(&'a self, _alloc: Global, i: u64) -> Result<Spot<'a>, FieldFault>
        requires { i < length (elements_of (place_of self.now)) }
        ensures { Gives (λ s. Some (place_of s)) result
            (Ok (slice_get (elements_of (place_of self.now)) i)) }
    {
        Ok(self.element(i).unwrap())
    }

    /// The elements of the list here, in order.
    pub fn elements(&'a self, alloc: Global) -> Result<Elements<'a>, FieldFault>
        ensures all { Gives elements_left result (elements_at (place_of self.now)) }
        ensures these { IfOk result (λ e. elements_left e ≡ elements_of (place_of self.now)) }
    {
        match self.value.as_array() {
            Some(items) => Ok(Elements::new(items.as_slice(), &self.way)),
            None => Err(self.bad(alloc, Why::WrongType)),
        }
    }

    /// The members of the object here that are not null, by bytes of their names.
    pub fn members(&'a self, alloc: Global) -> Result<Members<'a>, FieldFault>
        ensures all { Gives members_left result (members_at (place_of self.now)) }
        ensures these { IfOk result (λ m. members_left m ≡ members_of (place_of self.now)) }
        ensures fits { IfOk result (λ m. length (members_left m) < 2 ^ 63) }
    {
        match self.value.as_object() {
            Some(members) => Ok(Members::new(members.iter(), &self.way)),
            None => Err(self.bad(alloc, Why::WrongType)),
        }
    }

    /// How many members of the object here are not null.
    pub fn member_len(&self, alloc: Global) -> Result<u64, FieldFault>
        ensures { Gives (λ n. n) result (member_len_at (place_of self.now)) }
    {
        Ok(self.members(alloc)?.count() as u64)
    }

    /// The i-th member of the object here that isn't null, from 0, by bytes of their names.
    pub fn member(&'a self, alloc: Global, i: u64) -> Result<(PathText, Spot<'a>), FieldFault>
        requires { i < length (members_of (place_of self.now)) }
        ensures { Gives (λ m. Some (m.0, place_of m.1)) result
            (Ok (slice_get (members_of (place_of self.now)) i)) }
    {
        let mut members = self.members(alloc)?;
        let (name, spot) = members.member(i).unwrap();
        Ok((PathText::of(alloc, name)?, spot))
    }

    /// The fault of this field.
    pub fn bad(&self, alloc: Global, why: Why) -> FieldFault
        ensures { IsFault result (fault_at why (place_of self.now).path) }
    {
        fault_of(alloc, &self.way, why, 0)
    }

    /// The fault of this list, which has too many elements.
    pub fn too_many(&self, alloc: Global, count: u64) -> FieldFault
        ensures { IsFault result (too_many_at (place_of self.now).path count) }
    {
        fault_of(alloc, &self.way, Why::TooMany, count)
    }

    /// The path from the root.
    pub fn path(&self, alloc: Global) -> Result<PathText, FieldFault>
        ensures { Gives (λ t. t) result (Ok (place_of self.now).path) }
    {
        self.way.path(alloc)
    }

    /// The fault of an element that isn't there.
    pub fn missing_item(&'a self, alloc: Global, i: u64) -> FieldFault
        ensures { IsFault result (fault_at Why.Missing (item_path (place_of self.now).path i)) }
    {
        fault_of(alloc, &Way::Item(&self.way, i), Why::Missing, 0)
    }

    /// The fault of a member that isn't there.
    pub fn missing(&'a self, alloc: Global, name: &'a str) -> FieldFault
        ensures { IsFault result
            (fault_at Why.Missing (member_path (place_of self.now).path name.now)) }
    {
        fault_of(alloc, &Way::Member(&self.way, name), Why::Missing, 0)
    }

    fn member_spot(&'a self, name: &'a str, value: &'a Value) -> Spot<'a>
        ensures { place_of result
            ≡ member_place (place_of self.now) name.now (view value.now) }
    {
        Spot {
            value,
            way: Way::Member(&self.way, name),
        }
    }

    fn element(&'a self, i: u64) -> Option<Spot<'a>>
        ensures { option_map place_of result ≡ slice_get (elements_of (place_of self.now)) i }
    {
        match self.value.get(i as usize) {
            Some(value) => Some(self.element_spot(i, value)),
            None => None,
        }
    }

    fn element_spot(&'a self, i: u64, value: &'a Value) -> Spot<'a>
        ensures { place_of result ≡ item_place (place_of self.now) i (view value.now) }
    {
        Spot {
            value,
            way: Way::Item(&self.way, i),
        }
    }
}

fn present_member<'a>(value: &'a Value, name: &str) -> Option<&'a Value>
    ensures { option_map (λ v. view v.now) result ≡ present_member name.now (view value.now) }
{
    match value.get(name) {
        None | Some(Value::Null) => None,
        Some(member) => Some(member),
    }
}

fn fault_of(alloc: Global, way: &Way<'_>, why: Why, count: u64) -> FieldFault
    ensures { IsFault result (record { why = why; path = way_path way.now; count = count }) }
{
    match way.path(alloc) {
        Ok(path) => FieldFault::Bad(BadField { why, path, count }),
        Err(refused) => refused,
    }
}
