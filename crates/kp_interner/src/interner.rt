//! Texts that are known.
ghost use Rattle.std.specs.Prelude.{◌≡◌, IfOk, IfSome};

use indexmap::IndexSet;
use kp_base::{Copied, Items, NoMemory, ObjectKey, Pair, Text};
use std::alloc::Global;
use std::marker::Model;

/// How many texts are known at most.
const MOST: usize = 16_384;

/// The most bytes of a text that is known. The key of a label is the longest that counts: a prefix
/// of 253 bytes, a slash, and a name of 63 (Kubernetes, labels and selectors).
const LONGEST: usize = 317;

/// Texts that came of late. A text that comes again is answered by the one that is known, so that
/// objects which say the same have it in memory once.
pub struct Interner {
    texts: IndexSet<Text>,
}

impl Drop for Interner {
    fn drop(self) {
        let Interner { texts } = self;
    }
}

/// Contracts see nothing of what is known, since it changes no answer.
impl Model for Interner {
    ghost use Rattle.std.specs.Prelude.{◌≤◌};
    ghost use Rattle.indexmap.specs.IndexSet.{index_set_len};
    ghost use Rattle.kp_interner.specs.declared.interner.TheConstants.{MOST};

    ghost Value = { Unit {0} };

    ghost view = { λ i. tt };

    ghost invariant = { λ i. index_set_len i.texts ≤ MOST };
}

impl Interner {
    /// No texts.
    pub fn new(alloc: Global) -> Interner {
        Interner {
            texts: IndexSet::new(alloc),
        }
    }

    /// The same text, which is the one that is known where it is.
    pub(crate) fn text(&mut self, alloc: Global, text: &Text) -> Result<Text, NoMemory>
        ensures { IfOk result (λ t. t ≡ text.now) }
    {
        match self.known(text) {
            Some(known) => known.copy(alloc),
            None => {
                self.learn(alloc, text)?;
                text.copy(alloc)
            }
        }
    }

    /// The known text that is the same, if there is one.
    fn known(&self, text: &Text) -> Option<&Text>
        ensures { IfSome result (λ t. t.now ≡ text.now) }
    {
        self.texts.get(text)
    }

    /// Knows a text from now on, unless it is long. Where too many are known, they are forgotten:
    /// those that still come are soon known again.
    fn learn(&mut self, alloc: Global, text: &Text) -> Result<(), NoMemory> {
        if text.as_str().len() <= LONGEST {
            if self.texts.len() >= MOST {
                self.texts.clear();
            }
            self.texts.insert(text.copy(alloc)?)?;
        }
        Ok(())
    }

    /// The same key.
    pub(crate) fn key(&mut self, alloc: Global, key: &ObjectKey) -> Result<ObjectKey, NoMemory>
        ensures { IfOk result (λ k. k ≡ key.now) }
    {
        Ok(ObjectKey {
            namespace: self.text(alloc, &key.namespace)?,
            name: key.name.copy(alloc)?,
        })
    }

    /// The same text, if there is one.
    pub(crate) fn optional(
        &mut self,
        alloc: Global,
        text: &Option<Text>,
    ) -> Result<Option<Text>, NoMemory>
        ensures { IfOk result (λ t. t ≡ text.now) }
    {
        match text {
            Some(text) => Ok(Some(self.text(alloc, text)?)),
            None => Ok(None),
        }
    }

    /// The same pairs.
    pub(crate) fn pairs(
        &mut self,
        alloc: Global,
        pairs: &Items<Pair>,
    ) -> Result<Items<Pair>, NoMemory>
        ensures { IfOk result (λ ps. ps ≡ pairs.now) }
    {
        let mut same = Vec::with_capacity(alloc, pairs.as_slice().len())?;
        for pair in pairs.as_slice() {
            same.push(self.pair(alloc, pair)?)?;
        }
        Ok(Items::from_vec(same))
    }

    /// The same pair.
    fn pair(&mut self, alloc: Global, pair: &Pair) -> Result<Pair, NoMemory>
        ensures { IfOk result (λ p. p ≡ pair.now) }
    {
        Ok(Pair {
            key: self.text(alloc, &pair.key)?,
            value: self.text(alloc, &pair.value)?,
        })
    }
}
