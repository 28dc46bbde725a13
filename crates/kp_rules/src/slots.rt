//! Where chains stand, by numbers that stay while other chains come and go.
use kp_base::NoMemory;
use std::alloc::Global;

/// The indexes of a map's chains by their slots. A chain keeps its slot while it stands, whatever
/// is removed beside it, and the slot of a chain that goes is the next new chain's. Slots are
/// hints: who follows one tests the name of the chain that it leads to, so no fact rests on them.
#[derive(Drop)]
pub struct Slots {
    indexes: Vec<usize>,
    free: Vec<usize>,
}

impl Slots {
    /// No slots.
    pub fn new(alloc: Global) -> Slots {
        Slots {
            indexes: Vec::new(alloc),
            free: Vec::new(alloc),
        }
    }

    /// Makes room for this many slots that are taken or freed.
    pub fn reserve(&mut self, additional: usize) -> Result<(), NoMemory> {
        self.indexes.reserve(additional)?;
        self.free.reserve(additional)?;
        Ok(())
    }

    /// A slot for the chain at an index. Without room there is none.
    pub fn take(&mut self, index: usize) -> Option<usize> {
        if let Some(slot) = self.free.pop() {
            self.set(Some(slot), index);
            return Some(slot);
        }
        let slot = self.indexes.len();
        match self.indexes.push(index) {
            Ok(()) => Some(slot),
            Err(_) => None,
        }
    }

    /// The chain in a slot stands at this index by now.
    pub fn set(&mut self, slot: Option<usize>, index: usize) {
        if let Some(slot) = slot {
            set(&mut self.indexes, slot, index);
        }
    }

    /// The chain in a slot is gone.
    pub fn free(&mut self, slot: Option<usize>) {
        if let Some(slot) = slot {
            let _ = self.free.push(slot);
        }
    }

    /// The index of the chain in a slot.
    pub fn index(&self, slot: usize) -> Option<usize> {
        self.indexes.get(slot).copied()
    }
}

/// Sets an element, if it is there.
pub(crate) fn set<T: Drop>(list: &mut [T], i: usize, value: T) {
    if let Some(element) = list.get_mut(i) {
        *element = value;
    }
}
