ghost use Rattle.std.specs.Prelude.{◌≡◌, ℕ, List, None, OnOk, OnErr};
ghost use Rattle.v_hierarchy.specs.Places.{place_in, with_place};

use indexmap::IndexMap;
use loc_base::NoMemory;
use std::alloc::Global;

/// Places by name: at most one for each name. To find or to put one takes the time of its bytes, whatever the table
/// holds.
pub struct Places<'t> {
    by_name: IndexMap<&'t [u8], usize>,
}

// A `drop` is written out, so that it is proved once, here.
impl<'t> Drop for Places<'t> {
    fn drop(self) {
        let Places { by_name: _ } = self;
    }
}

impl<'t> Places<'t> {
    /// The table in which no name has a place. It takes no memory.
    pub fn new(alloc: Global) -> Places<'t>
        ensures { (name : List ℕ) → place_in result name ≡ None }
    {
        Places {
            by_name: IndexMap::new(alloc),
        }
    }

    /// The place of a name, where it has one.
    pub fn find(&self, name: &[u8]) -> Option<usize>
        ensures { result ≡ place_in self.now name.now }
    {
        self.by_name.get(name).copied()
    }

    /// Gives a name a place. Unchanged after `NoMemory`.
    pub fn put(&mut self, name: &'t [u8], place: usize) -> Result<(), NoMemory>
        ensures put { OnOk result ((other : List ℕ) → place_in self.new other ≡ with_place name.now place (place_in self.old) other) }
        ensures err { OnErr result ((other : List ℕ) → place_in self.new other ≡ place_in self.old other) }
    {
        self.by_name.insert(name, place)?;
        Ok(())
    }
}
