//! Texts in a row.
ghost use Rattle.std.specs.Prelude.{◌≡◌, ◌++◌, ◌∷◌, [], ℕ, List, OnOk, drop, take};
ghost use Rattle.std.specs.List.{concat};
ghost use Rattle.kp_workers.specs.Texts.{Keeps, kept_in, left_in};

use crate::work::Work;
use kp_base::NoMemory;
use kp_recent::RecentLists;
use std::alloc::Global;

/// What the items of a worker were answered, in order.
#[derive(Drop)]
pub(crate) struct Texts {
    text: String,
    lengths: Vec<usize>,
}

impl Texts {
    /// None.
    pub(crate) fn new(alloc: Global) -> Texts
        ensures { Keeps (kept_in result) [] }
    {
        Texts {
            text: String::new(alloc),
            lengths: Vec::new(alloc),
        }
    }

    /// Forgets them. Their memory is kept.
    pub(crate) fn clear(&mut self)
        ensures { Keeps (kept_in self.new) [] }
    {
        self.text.clear();
        self.lengths.clear();
    }

    /// Adds what an item is answered.
    pub(crate) fn add<T, W: Work<T>>(
        &mut self,
        work: &W,
        item: &T,
        lists: &mut RecentLists,
    ) -> Result<(), NoMemory>
        ensures told { OnOk result ((told : List (List ℕ)) → Keeps (kept_in self.old) told
            → Keeps (kept_in self.new) (told ++ (W.step work.now item.now lists.old).0 ∷ [])) }
        ensures lists { OnOk result (lists.new ≡ (W.step work.now item.now lists.old).1) }
        ensures size { lists.new.size ≡ lists.old.size }
    {
        let before = self.text.len();
        work.step(item, lists, &mut self.text)?;
        self.lengths.push(self.text.len() - before)?;
        Ok(())
    }

    /// All of them, to be told from the first on.
    pub(crate) fn unfold(&self) -> TextsOn<'_>
        ensures { left_in result ≡ kept_in self.now }
    {
        TextsOn {
            text: self.text.as_bytes(),
            lengths: self.lengths.as_slice(),
        }
    }
}

/// The texts that are still to be told.
#[derive(Drop)]
pub(crate) struct TextsOn<'a> {
    text: &'a [u8],
    lengths: &'a [usize],
}

impl<'a> TextsOn<'a> {
    /// The next text, or nothing where none is left.
    pub(crate) fn next(&mut self) -> &'a [u8]
        ensures { (told : List (List ℕ)) → Keeps (left_in self.old) told
            → Keeps (left_in self.new) (drop 1 told) × (result.now ≡ concat (take 1 told)) }
    {
        let Some((length, lengths)) = self.lengths.split_first() else {
            return self.text;
        };
        let (text, rest) = self.text.split_at((*length).min(self.text.len()));
        self.text = rest;
        self.lengths = lengths;
        text
    }
}
