//! A gate for tests, which holds chosen calls.
ghost use Rattle.std.specs.Prelude.{◌≡◌, IfOk};
ghost use Rattle.kp_gate.specs.Holding.{holds_of, turns_of};

use crate::gate::Gate;
use kp_base::{Items, NoMemory};
use std::alloc::Global;
use std::sync::atomic::{AtomicBool, Ordering};
use std::thread;

/// What a hold waits for.
#[derive(Clone, Copy, Debug, PartialEq, Eq)]
pub enum Until {
    /// The other call has arrived.
    Arrived,
    /// The other call has left.
    Left,
}

/// A call that is held as it arrives, and the other call that ends this.
#[derive(Clone, Copy, Debug, PartialEq, Eq)]
pub struct Hold {
    pub worker: u32,
    pub call: u64,
    pub until: Until,
    pub other_worker: u32,
    pub other_call: u64,
}

/// A hold, and whether what it waits for has come.
#[derive(Drop)]
struct Watched {
    hold: Hold,
    has_come: AtomicBool,
}

impl Watched {
    /// Notes that a call has come so far.
    fn note(&self, until: Until, worker: u32, call: u64) {
        let hold = &self.hold;
        if hold.until == until && hold.other_worker == worker && hold.other_call == call {
            self.has_come.store(true, Ordering::SeqCst);
        }
    }

    /// Whether it holds this call.
    fn names(&self, worker: u32, call: u64) -> bool {
        self.hold.worker == worker && self.hold.call == call
    }

    /// Looks and yields for so many turns, and answers whether what it waits for has come.
    fn wait(&self, turns: u64) -> bool {
        for _ in 0..turns {
            if self.has_come.load(Ordering::SeqCst) {
                return true;
            }
            thread::yield_now();
        }
        false
    }
}

/// A gate that holds chosen calls, each until another call has arrived or left, or until it has
/// looked for that so many times. So it always returns.
#[derive(Drop)]
pub struct HoldGate {
    watched: Items<Watched>,
    turns: u64,
    ran_out: AtomicBool,
}

impl HoldGate {
    /// A gate with these holds, each of at most so many turns of looking and yielding. A call that
    /// several of them name waits for each, in the order of the list, each with turns of its own.
    pub fn new(alloc: Global, holds: Items<Hold>, turns: u64) -> Result<HoldGate, NoMemory>
        ensures holds { IfOk result (λ g. holds_of g ≡ holds) }
        ensures turns { IfOk result (λ g. turns_of g ≡ turns) }
    {
        let mut watched = Vec::new(alloc);
        for hold in holds.into_vec() {
            let has_come = AtomicBool::new(false);
            watched.push(Watched { hold, has_come })?;
        }
        Ok(HoldGate {
            watched: Items::from_vec(watched),
            turns,
            ran_out: AtomicBool::new(false),
        })
    }

    /// Whether a hold ended by its turns.
    pub fn ran_out(&self) -> bool {
        self.ran_out.load(Ordering::SeqCst)
    }

    /// Notes in each hold that a call has come so far.
    fn note(&self, until: Until, worker: u32, call: u64) {
        for watched in self.watched.as_slice() {
            watched.note(until, worker, call);
        }
    }
}

impl<R> Gate<R> for HoldGate {
    fn arrive(&self, _rt: &R, worker: u32, call: u64) {
        self.note(Until::Arrived, worker, call);
        for watched in self.watched.as_slice() {
            if watched.names(worker, call) && !watched.wait(self.turns) {
                self.ran_out.store(true, Ordering::SeqCst);
            }
        }
    }

    fn leave(&self, _rt: &R, worker: u32, call: u64) {
        self.note(Until::Left, worker, call);
    }
}
