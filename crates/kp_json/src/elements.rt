//! The elements of a list, one after another.
ghost use Rattle.std.specs.Prelude.{◌≡◌};

use crate::path::Way;
use crate::spot::Spot;
use serde_json::Value;

/// The elements of a list, in order.
#[derive(Drop)]
pub struct Elements<'a> {
    items: &'a [Value],
    index: usize,
    way: &'a Way<'a>,
}

impl<'a> Elements<'a> {
    pub(crate) fn new(items: &'a [Value], way: &'a Way<'a>) -> Elements<'a>
        ensures items { result.items.now ≡ items.entry.now }
        ensures index { result.index ≡ 0 }
        ensures way { result.way.now ≡ way.entry.now }
    {
        Elements {
            items,
            index: 0,
            way,
        }
    }
}

impl<'a> Iterator for Elements<'a> {
    ghost use Rattle.std.specs.Iterator.{YieldsFirstBy, item_count};
    ghost use Rattle.kp_json.specs.Views.{elements_left, place_of};

    type Item = Spot<'a>;

    ghost next_gives = { YieldsFirstBy place_of elements_left };

    ghost remaining = { item_count elements_left };

    fn next(&mut self) -> Option<Spot<'a>> {
        let index = self.index;
        if index >= self.items.len() {
            return None;
        }
        self.index = index + 1;
        let value = &self.items[index];
        Some(Spot::new(value, Way::Item(self.way, index as u64)))
    }
}
