//! The one history of a publication. It exists in the proofs alone: what threads share is a word
//! that counts its entries, and what each has is a beginning that it has seen.
ghost use Rattle.std.specs.Prelude.{◌≡◌, [], IfOk};
ghost use Rattle.kp_publish.specs.Steps.{head_of};

use crate::entry::{Entered, Entry};
use crate::front::Front;
use logbook::{Gain, Plain, Play, Rule, Seen, Start, Word};
use std::marker::{Brand, Model, PhantomData};

/// The rule of the history: its word counts its entries.
pub struct Counted;

impl Rule<Entry, u64> for Counted {
    ghost use Rattle.std.specs.Prelude.{[]};
    ghost use base.Fml.{ftrue};
    ghost use Rattle.kp_publish.specs.Steps.{IsCounted};

    ghost holds = { λ cells log. IsCounted cells log };

    ghost first = { [] };

    ghost hinted = { λ n log. Unit {0} };

    ghost shows = { λ log. [] };

    ghost keeps = { λ names log. ftrue };

    ghost moves = { λ ask before after answer. Unit {0} };
}

/// Callers trade nothing.
pub struct Nothing;

impl Gain<Entry, u64> for Nothing {
    ghost use base.Fml.{ftrue};

    ghost after = { λ names about answer. ftrue };
}

/// A step that writes an entry.
pub struct Write;

impl Play<Entry, u64> for Write {
    ghost use Rattle.kp_publish.specs.Steps.{Writes};

    ghost then = { Writes };
}

impl<X: Entered> Plain<X, Entry, u64> for Write {
    ghost use Rattle.std.specs.Prelude.{None};

    ghost ask = { X.entry };

    ghost state = { λ x. None };
}

/// Which publication it is, and the table that it starts from. Each call of a program picks it.
pub trait Publication {
    ghost use Rattle.logbook.specs.Pages.{Book};
    ghost use Rattle.kp_table_defs.specs.Rebuild.{TableParts};

    ghost book: { Book };

    ghost start: { TableParts };
}

impl Publication for Brand {
    ghost use Rattle.std.specs.FinMap as finite;

    ghost book = { record { number = 0; log_name = 0; cells_name = 0 } };

    ghost start = { record { chains = finite.empty; syncs = 0 } };
}

/// An empty history, which is no publication's yet. Contracts see which one it is.
#[derive(Drop)]
pub struct Opened {
    head: Word<Entry, u64, Counted>,
    seen: Seen<Entry, u64, Counted>,
}

impl Model for Opened {
    ghost use Rattle.std.specs.Prelude.{◌≡◌, []};
    ghost use Rattle.logbook.specs.Pages.{Book, book_coded};
    ghost use Rattle.kp_publish.specs.Steps.{head_of};

    ghost Value = { Book };

    ghost coded = { book_coded };

    ghost view = { λ o. o.seen.book };

    ghost invariant = { λ o. (o.seen.log ≡ []) × (o.head ≡ head_of o.seen.book) };
}

impl Opened {
    /// A new history.
    pub fn new() -> Opened {
        let (seen, mut first, _second) = Seen::open(Start::alone(), 0, 0);
        Opened {
            head: Word::tracked(0, &mut first),
            seen,
        }
    }

    /// The history as this publication's, and what was seen of it: nothing.
    pub(crate) fn named<J: Publication>(self) -> (Head<J>, Front<J>)
        requires { self ≡ J.book }
        ensures { result.1 ≡ [] }
    {
        let Opened { head, seen } = self;
        (
            Head {
                head,
                of: PhantomData,
            },
            Front::first(seen),
        )
    }
}

/// The word that counts the entries.
#[derive(Drop)]
pub struct Head<J: Publication> {
    pub(crate) head: Word<Entry, u64, Counted>,
    of: PhantomData<J>,
    ghost head_is: { head ≡ head_of J.book },
}
