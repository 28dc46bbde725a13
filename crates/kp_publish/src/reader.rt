//! Readers, and what they see.
ghost use Rattle.std.specs.Prelude.{◌≡◌, ◌⊎◌, [], length, max};
ghost use mathlib.Core.List.{IsPrefix};
ghost use Rattle.kp_publish.specs.Entries.{records_of, GoesOnFrom, StandsFor};
ghost use Rattle.kp_publish.specs.Knows.{nothing_of};

use crate::front::Front;
use crate::history::Publication;
use crate::shown::Shown;
use crossbeam_utils::rule::Unruled;
use kp_rules::Table;
use left_right::reader;
use std::marker::Model;
use std::sync::Wait;

/// A reader outside. Contracts see what it saw last, the longest of the fronts that it learned, and
/// from which pair of copies it reads.
#[derive(Drop)]
pub struct Reader<J: Publication> {
    place: reader::Reader<Shown<J>, (), Unruled>,
    seen: Front<J>,
    told: Front<J>,
}

impl<J: Publication> Model for Reader<J> {
    ghost use Rattle.kp_publish.specs.Knows.{Knows, knows_code};

    ghost Value = { Knows };

    ghost coded = { knows_code };

    ghost view = { λ r. record { seen = r.seen; told = r.told; pair = r.place.place.table_id } };
}

/// A reader inside, with the table that it sees. It is ended by `leave`.
pub struct View<J: Publication> {
    reading: reader::Reading<Shown<J>, (), Unruled>,
    seen: Front<J>,
    told: Front<J>,
}

impl<J: Publication> Model for View<J> {
    ghost use Rattle.std.specs.Prelude.{◌≡◌};
    ghost use Rattle.kp_publish.specs.Knows.{Knows, knows_code};

    ghost Value = { Knows };

    ghost coded = { knows_code };

    ghost view = { λ v. record { seen = v.seen; told = v.told; pair = v.reading.place.table_id } };

    ghost invariant = { λ v. v.reading.part.value ≡ v.seen };
}

impl<J: Publication> Reader<J> {
    /// A reader that has seen nothing.
    pub(crate) fn new(place: reader::Reader<Shown<J>, (), Unruled>, nothing: Front<J>) -> Reader<J>
        requires { nothing ≡ [] }
        ensures { result ≡ nothing_of place.place.table_id }
    {
        Reader {
            place,
            seen: nothing.again(),
            told: nothing,
        }
    }

    /// Takes the published table. It tries again until it has it, and one that goes on from all
    /// that was seen or learned.
    pub fn enter<R: Wait>(self, rt: &R) -> View<J>
        ensures seen { GoesOnFrom result.seen self.seen }
        ensures told { GoesOnFrom result.seen self.told }
        ensures kept { result.told ≡ self.told }
    {
        let Reader {
            mut place,
            seen,
            told,
        } = self;
        for _ in rt.forever() {
            match place.enter_as::<Unruled>() {
                Ok(reading) => {
                    let front = reading.get().front().again();
                    if front.goes_on_from(&seen) && front.goes_on_from(&told) {
                        return View {
                            reading,
                            seen: front,
                            told,
                        };
                    }
                    place = reading.leave();
                }
                Err(back) => place = back,
            }
        }
        unreachable!()
    }

    /// How many records it knows of: those that it saw last, or learned of.
    pub fn known(&self) -> u64
        ensures { result ≡ max (length (records_of self.now.seen))
            (length (records_of self.now.told)) }
    {
        let (seen, told) = (self.seen.count(), self.told.count());
        if seen < told { told } else { seen }
    }

    /// Takes in a front. Whatever is seen from now on goes on from it too.
    pub fn learn(&mut self, front: Front<J>)
        ensures seen { self.new.seen ≡ self.old.seen }
        ensures pair { self.new.pair ≡ self.old.pair }
        ensures told { IsPrefix self.old.told self.new.told }
        ensures front { IsPrefix front self.new.told }
        ensures one { (self.new.told ≡ self.old.told) ⊎ (self.new.told ≡ front) }
    {
        self.told = self.told.longer(&front);
    }
}

impl<J: Publication> View<J> {
    /// The table after the records that are seen, from the one that the publication started from.
    /// It counts them, and may be walked.
    pub fn table(&self) -> &Table
        ensures { StandsFor J.start result.now self.now.seen }
    {
        self.reading.get().table()
    }

    /// How many records are seen.
    pub fn count(&self) -> u64
        ensures { result ≡ length (records_of self.now.seen) }
    {
        self.seen.count()
    }

    /// The reader again, which has seen what is seen here.
    pub fn leave(self) -> Reader<J>
        ensures seen { result.seen ≡ self.seen }
        ensures told { result.told ≡ self.told }
    {
        let View {
            reading,
            seen,
            told,
        } = self;
        Reader {
            place: reading.leave(),
            seen,
            told,
        }
    }
}
