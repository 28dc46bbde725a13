//! The draws of a packet's line.
ghost use Rattle.std.specs.Prelude.{◌≡◌, codes, option_map};
ghost use Rattle.kp_row_defs.specs.Rows.{each_up_to, row_fault};
ghost use Rattle.kp_text_defs.specs.ListedDraws.{AreLow, listed};
ghost use Rattle.kp_text_defs.specs.PacketText.{draw_rows, draws_of, listed_in};
ghost use Rattle.kp_packet_lines.specs.Taken.{Takes, place_of};

use crate::numbers::LowNumbers;
use crate::object::{Plain, PlainObject};
use crate::untaken::Untaken;
use kp_base::Items;
use kp_text_defs::Draws;
use std::alloc::Global;

/// The most draws that a line lists.
const MAX_DRAWS: usize = 1000;

/// The list of draws, or nothing where there is none.
pub(crate) fn listed_draws(object: PlainObject<'_>) -> Result<Option<LowNumbers>, Untaken>
    ensures { Takes (option_map (λ d. d.numbers)) result
        (row_fault (each_up_to 1000 (codes "draws") draw_rows) (place_of object.entry))
        (listed_in (place_of object.entry)) }
{
    match object.into_member("draws") {
        None => Ok(None),
        Some(Plain::Numbers(list)) if list.numbers.as_slice().len() <= MAX_DRAWS => Ok(Some(list)),
        Some(_) => Err(Untaken::Unread),
    }
}

/// The listed draws, or else those of the seed, or else none.
pub(crate) fn draws_of(alloc: Global, list: Option<LowNumbers>, seed: Option<u64>) -> Draws
    ensures draws { result ≡ draws_of (option_map (λ d. d.numbers) list) seed }
    ensures low { AreLow (listed result) }
{
    match list {
        Some(list) => Draws::List(list.numbers),
        None => match seed {
            Some(seed) => Draws::Seed(seed),
            None => Draws::List(Items::new(alloc)),
        },
    }
}
