//! Marks of rows.
ghost use Rattle.std.specs.Prelude.{◌≡◌, ℕ, ◌<◌, ◌||◌, false, length, slice_set};
ghost use Rattle.kp_conntrack.specs.Marked.{is_marked};

use crate::buckets::ROWS;
use kp_base::NoMemory;
use std::alloc::Global;
use std::marker::Model;

/// Which rows are marked.
#[derive(Drop)]
pub(crate) struct Marks {
    marks: Vec<bool>,
}

impl Model for Marks {
    ghost use Rattle.std.specs.Prelude.{◌≡◌, Bool, List, length};

    ghost Value = { List Bool };

    ghost view = { λ m. m.marks.items };

    ghost invariant = { λ m. length m.marks.items ≡ 65536 };
}

impl Marks {
    /// Room for all rows. Any of them may be marked.
    pub(crate) fn new(alloc: Global) -> Result<Marks, NoMemory> {
        let mut marks = Vec::new(alloc);
        marks.resize(ROWS as usize, false)?;
        Ok(Marks { marks })
    }

    /// Takes all marks away.
    pub(crate) fn clear(&mut self)
        ensures { (row : ℕ) → is_marked self.new row ≡ false }
    {
        for row in 0..ROWS {
            self.marks[row as usize] = false;
        }
    }

    /// Marks a row, where it is to be. A mark stays.
    pub(crate) fn mark(&mut self, row: u32, also: bool)
        requires { row < 65536 }
        ensures marks { self.new ≡ slice_set self.old row (is_marked self.old row || also) }
        ensures room { length self.old ≡ 65536 }
    {
        let marked = self.has(row);
        self.marks[row as usize] = marked || also;
    }

    /// Whether a row is marked.
    pub(crate) fn has(&self, row: u32) -> bool
        requires { row < 65536 }
        ensures { result ≡ is_marked self.now row }
    {
        self.marks[row as usize]
    }
}
