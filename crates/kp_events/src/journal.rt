//! The journal of accepted events.
ghost use Rattle.std.specs.Prelude.{◌≡◌, ◌≤◌, [], ◌∷◌, length, OnOk, OnErr, IfErr};

use kp_base::{Items, NoMemory, handed_back};
use kp_types::Event;
use std::alloc::Global;
use std::marker::Model;

/// Why events were not added.
#[derive(Clone, Copy, Debug, PartialEq, Eq)]
pub enum JournalFault {
    /// The events that are held and the new ones are too many.
    JournalFull {
        /// How many are held.
        count: u64,
    },
    NoMemory(NoMemory),
}

/// The events that were accepted, oldest first, up to a greatest number.
#[derive(Drop)]
pub struct Journal {
    events: Vec<Event>,
    max: u64,
}

impl Model for Journal {
    ghost use Rattle.std.specs.Prelude.{◌≤◌, length};
    ghost use Rattle.kp_events.specs.JournalContents.{Contents, contents_code};

    ghost Value = { Contents };

    ghost coded = { contents_code };

    ghost view = { λ j. record { events = j.events.items; most = j.max } };

    ghost invariant = { λ j. length j.events.items ≤ j.max };
}

impl Journal {
    ghost use Rattle.kp_events.specs.JournalContents.{HasRoom, Refuses, with_events};

    /// The empty journal, which holds at most so many events.
    pub fn new(alloc: Global, max: u64) -> Journal
        ensures { result ≡ record { events = []; most = max } }
    {
        Journal {
            events: Vec::new(alloc),
            max,
        }
    }

    /// The events, oldest first.
    pub fn events(&self) -> &[Event]
        ensures { result.now ≡ self.now.events }
    {
        self.events.as_slice()
    }

    /// Adds all of the events, or none and gives them back.
    pub fn push(&mut self, events: Items<Event>) -> Result<(), (JournalFault, Items<Event>)>
        ensures ok { OnOk result (self.new ≡ with_events self.old events) }
        ensures fits { OnOk result (HasRoom self.old (length events)) }

        // On a refusal nothing is added, and the caller gets the events back.
        ensures cause { IfErr result (λ (fault, _). Refuses self.old (length events) fault) }
        ensures back { IfErr result (λ (_, returned). returned ≡ events) }
        ensures err { OnErr result (self.new ≡ self.old) }
    {
        let mut more = events.into_vec();
        let count = self.events.len() as u64;
        if more.len() as u64 > self.max - count {
            return Err((JournalFault::JournalFull { count }, Items::from_vec(more)));
        }
        match self.events.append(&mut more) {
            Ok(()) => Ok(()),
            Err(refused) => {
                let fault = JournalFault::NoMemory(refused.into());
                Err((fault, Items::from_vec(more)))
            }
        }
    }

    /// Adds an event, or gives it back.
    pub fn push_one(&mut self, event: Event) -> Result<(), (JournalFault, Event)>
        ensures ok { OnOk result (self.new ≡ with_events self.old (event ∷ [])) }
        ensures fits { OnOk result (HasRoom self.old 1) }

        // On a refusal nothing is added, and the caller gets the event back.
        ensures cause { IfErr result (λ (fault, _). Refuses self.old 1 fault) }
        ensures back { IfErr result (λ (_, returned). returned ≡ event) }
        ensures err { OnErr result (self.new ≡ self.old) }
    {
        let count = self.events.len() as u64;
        if count == self.max {
            return Err((JournalFault::JournalFull { count }, event));
        }
        match self.events.push(event) {
            Ok(()) => Ok(()),
            Err(refused) => {
                let (refused, event) = handed_back(refused);
                Err((JournalFault::NoMemory(refused), event))
            }
        }
    }

    /// The events, oldest first, of a journal that ends.
    pub fn into_events(self) -> Items<Event>
        ensures { result ≡ self.events }
    {
        let Journal { events, max } = self;
        Items::from_vec(events)
    }
}
