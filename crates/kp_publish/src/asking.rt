//! What a writer is asked for, and how often it had no memory.
ghost use Rattle.std.specs.Prelude.{◌≡◌, ◌≤◌, [], drop, fold, None, OnOk, OnErr};
ghost use Rattle.kp_io.specs.Faults.{Rose};
ghost use Rattle.kp_publish.specs.Pending.{after, newest_of};

use crate::history::Publication;
use crate::shown::{Addition, Shown};
use core::mem::replace_with;
use crossbeam_utils::rule::Unruled;
use kp_base::NoMemory;
use left_right::writer::Writer;
use std::marker::Model;
use std::sync::Wait;

/// How often a writer had no memory. Only what asks it counts. The count stands still at its type's
/// end.
#[derive(Drop)]
pub struct Refusals {
    count: u64,
}

impl Model for Refusals {
    ghost use Rattle.std.specs.Prelude.{ℕ};

    ghost Value = { ℕ };

    ghost view = { λ r. r.count };
}

impl Refusals {
    /// None yet.
    pub(crate) fn none() -> Refusals
        ensures { result ≡ 0 }
    {
        Refusals { count: 0 }
    }

    /// One more.
    fn add(&mut self)
        ensures later { self.old ≤ self.new }
        ensures rose { Rose self.old self.new }
    {
        self.count = self.count.saturating_add(1);
    }

    /// Hands what is held to the writer. Where there is no room it stays held.
    pub(crate) fn settle<J: Publication>(
        &mut self,
        writer: &mut Writer<Shown<J>, Addition<J>, (), Unruled>,
        held: &mut Option<Addition<J>>,
    ) -> Result<(), NoMemory>
        ensures desk { writer.new.desk ≡ writer.old.desk }
        ensures newest { newest_of after writer.new.desk.shown.value
            (drop writer.new.behind writer.new.log.items) held.new
            ≡ newest_of after writer.old.desk.shown.value
            (drop writer.old.behind writer.old.log.items) held.old }
        ensures handed { OnOk result (held.new ≡ None) }
        ensures later { self.old ≤ self.new }
        ensures cause { OnErr result (Rose self.old self.new) }
    {
        let Some(addition) = held.take() else {
            return Ok(());
        };
        match writer.append(addition) {
            Ok(()) => Ok(()),
            Err(back) => {
                self.add();
                *held = Some(back);
                // The writer hands back the addition alone.
                Err(NoMemory::told_by_library())
            }
        }
    }

    /// Has readers take a copy with all that is pending.
    pub(crate) fn show<J: Publication, R: Wait>(
        &mut self,
        rt: &R,
        writer: &mut Writer<Shown<J>, Addition<J>, (), Unruled>,
    ) -> Result<(), NoMemory>
        ensures shown { OnOk result (writer.new.desk.shown.value ≡ fold after
            writer.old.desk.shown.value (drop writer.old.behind writer.old.log.items)) }
        ensures none { OnOk result (drop writer.new.behind writer.new.log.items ≡ []) }
        ensures same { OnErr result (writer.new.desk.shown.value ≡ writer.old.desk.shown.value) }
        ensures pending { OnErr result (drop writer.new.behind writer.new.log.items
            ≡ drop writer.old.behind writer.old.log.items) }
        ensures later { self.old ≤ self.new }
        ensures cause { OnErr result (Rose self.old self.new) }
    {
        let shown = replace_with(writer, rt, |writer, rt| {
            writer.publish_as::<Unruled, R>(rt)
        });
        match shown {
            Ok(()) => Ok(()),
            Err(refused) => {
                self.add();
                Err(NoMemory::from(refused))
            }
        }
    }
}
