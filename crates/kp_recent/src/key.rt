//! The parts of the lists, by their names.
ghost use Rattle.std.specs.Prelude.{◌≡◌, ◌∷◌};
ghost use Rattle.std.specs.Cmp.Rules.{hashing};
ghost use Rattle.std.proofs.Common.{rules};
ghost use Rattle.std.specs.Hash as fed;
ghost use Rattle.kp_choice_defs.specs.Recent.{shard_of};
ghost use Rattle.kp_recent.specs.Tails.{tail_of};

use kp_base::Address;
use kp_types::ChainName;
use std::hash::{Hash, Hasher};
use std::marker::Model;

/// A part of the list with this name, from 0 to 15.
#[derive(PartialEq, Eq, PartialOrd, Ord, Drop)]
pub struct ListPart {
    pub(crate) list: ChainName,
    part: u8,
}

impl Model for ListPart {
    ghost use Rattle.kp_choice_defs.specs.Recent.{Shard};

    ghost Value = { Shard };

    ghost view = { λ p. record { list = p.list; part = p.part } };

    ghost inverse = { λ p. record { list = p.list; part = p.part } };
}

impl ListPart {
    /// The part of a list that a source is in, by its lowest four bits.
    pub fn of(list: &ChainName, source: &Address) -> ListPart
        ensures { result ≡ shard_of list.now source.now }
    {
        ListPart {
            list: list.same(),
            part: (source.number() % 16) as u8,
        }
    }
}

/// The end of a name tells it well enough, since the names of lists are hashes behind a few words.
impl Hash for ListPart {
    ghost hash_input = { λ p. tail_of p.list ∷ fed.u8 p.part };

    ghost respects_eq = { Prim.search (hashing, rules) };

    fn hash<H: Hasher>(&self, state: &mut H) {
        state.write(tail(self.list.as_str().as_bytes()));
        self.part.hash(state)
    }
}

/// The last eight bytes.
fn tail(bytes: &[u8]) -> &[u8]
    ensures { result.now ≡ tail_of bytes.now }
{
    let (_, tail) = bytes.split_at(bytes.len().saturating_sub(8));
    tail
}
