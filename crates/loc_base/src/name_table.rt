ghost use Rattle.std.specs.Prelude.{◌≡◌, ℕ, List, None, OnOk, OnErr, IfOk, not};
ghost use Rattle.std.specs.Bool.{OnTrue, OnFalse};
ghost use Rattle.loc_base.specs.NameTable.{number_of, has_number, with_number};

use crate::memory::NoMemory;
use indexmap::IndexMap;
use std::alloc::Global;

/// Numbers by name: at most one for each name, kept in the order in which the names came. To find or to add one takes the
/// time of its bytes, whatever the table holds.
pub struct NameTable<'a> {
    by_name: IndexMap<&'a [u8], u32>,
}

// A `drop` is written out, so that it is proved once, here: a derived one is proved again by each crate that lets a value go.
impl<'a> Drop for NameTable<'a> {
    fn drop(self) {
        let NameTable { by_name: _ } = self;
    }
}

impl<'a> NameTable<'a> {
    /// The table in which no name has a number. It takes no memory.
    pub fn new(alloc: Global) -> NameTable<'a>
        ensures { (name : List ℕ) → number_of result name ≡ None }
    {
        NameTable {
            by_name: IndexMap::new(alloc),
        }
    }

    /// The number of a name, where it has one.
    pub fn find(&self, name: &[u8]) -> Option<u32>
        ensures { result ≡ number_of self.now name.now }
    {
        self.by_name.get(name).copied()
    }

    /// Gives a name its number, and answers whether it had none before. A name that has one keeps it. Unchanged after
    /// `NoMemory`.
    pub fn add(&mut self, name: &'a [u8], number: u32) -> Result<bool, NoMemory>
        ensures fresh { IfOk result (λ added. added ≡ not (has_number self.old name.now)) }
        ensures added { IfOk result (λ added. OnTrue added ((other : List ℕ) → number_of self.new other ≡ with_number name.now number (number_of self.old) other)) }
        ensures stays { IfOk result (λ added. OnFalse added (self.new ≡ self.old)) }
        ensures err { OnErr result ((other : List ℕ) → number_of self.new other ≡ number_of self.old other) }
    {
        if self.by_name.contains_key(name) {
            return Ok(false);
        }
        self.by_name.insert(name, number)?;
        Ok(true)
    }
}
