//! The variables of a header by their scope and name (IEEE 1364-2005, 18.2.3).
ghost use Rattle.std.specs.Prelude.{◌≡◌, ℕ, List, Some, None, OnOk};
ghost use Rattle.vcd_reading.specs.NameView.{number_at, with_first};

use indexmap::IndexMap;
use loc_base::NoMemory;
use std::alloc::Global;

/// A name in a scope.
#[derive(Clone, Copy, PartialEq, Eq, Hash)]
pub struct Key<'a> {
    pub scope: usize,
    pub name: &'a [u8],
}

/// The numbers of variables: at most one for each name in each scope.
#[derive(Drop)]
pub struct Names<'a> {
    numbers: IndexMap<Key<'a>, usize>,
}

impl<'a> Names<'a> {
    /// No variable. It takes no memory.
    pub fn new(alloc: Global) -> Names<'a>
        ensures { (scope : ℕ) (name : List ℕ) → number_at result scope name ≡ None }
    {
        Names {
            numbers: IndexMap::new(alloc),
        }
    }

    /// The number of the variable of a name in a scope, where there is one.
    pub fn find(&self, key: Key<'_>) -> Option<usize>
        ensures { result ≡ number_at self.now key.entry.scope key.entry.name.now }
    {
        self.numbers.get(&key).copied()
    }

    /// Gives a name in a scope a number, where it has none.
    pub fn add(&mut self, key: Key<'a>, number: usize) -> Result<(), NoMemory>
        ensures { OnOk result ((scope : ℕ) (name : List ℕ) → number_at self.new scope name ≡ with_first key.entry.scope key.entry.name.now number (number_at self.old) scope name) }
    {
        if self.numbers.contains_key(&key) {
            return Ok(());
        }
        self.numbers.insert(key, number)?;
        Ok(())
    }
}
