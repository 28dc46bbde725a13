//! The members of an object, one after another.
ghost use Rattle.std.specs.Prelude.{◌≡◌, option_map, slice_get};
ghost use Rattle.kp_json.specs.Views.{members_left, named_place};

use crate::path::Way;
use crate::spot::Spot;
use serde_json::Value;
use std::collections::btree_map::Iter;

/// The members of an object that are not null, by bytes of their names.
#[derive(Drop)]
pub struct Members<'a> {
    rest: Iter<'a, String, Value>,
    way: &'a Way<'a>,
}

impl<'a> Members<'a> {
    pub(crate) fn new(rest: Iter<'a, String, Value>, way: &'a Way<'a>) -> Members<'a>
        ensures rest { result.rest ≡ rest.entry }
        ensures way { result.way.now ≡ way.entry.now }
    {
        Members { rest, way }
    }

    /// The i-th member, from 0, of those that are left.
    pub(crate) fn member(&mut self, i: u64) -> Option<(&'a str, Spot<'a>)>
        ensures { option_map named_place result ≡ slice_get (members_left self.old) i }
    {
        self.nth(i as usize)
    }
}

impl<'a> Iterator for Members<'a> {
    ghost use Rattle.std.specs.Iterator.{YieldsFirstBy, item_count};
    ghost use Rattle.kp_json.specs.Views.{members_left, named_place};

    type Item = (&'a str, Spot<'a>);

    ghost next_gives = { YieldsFirstBy named_place members_left };

    ghost remaining = { item_count members_left };

    fn next(&mut self) -> Option<(&'a str, Spot<'a>)> {
        while let Some((name, value)) = self.rest.next() {
            if let Value::Null = value {
                continue;
            }
            let name = name.as_str();
            return Some((name, Spot::new(value, Way::Member(self.way, name))));
        }
        None
    }
}
