ghost use Rattle.std.specs.Prelude.{◌≡◌, ℕ, List, None, OnErr, OnOk, IfOk, true};
ghost use Rattle.v_sizes.specs.Table.{meaning_in, entry_in, is_in, with_entry};

use crate::meaning::Meaning;
use indexmap::IndexMap;
use loc_base::NoMemory;
use std::alloc::Global;

/// Meanings by name: at most one for each name.
#[derive(Drop)]
pub(crate) struct Table<'a> {
    by_name: IndexMap<&'a [u8], Option<Meaning>>,
}

impl<'a> Table<'a> {
    /// The table in which no name has an entry. It takes no memory.
    pub(crate) fn new(alloc: Global) -> Table<'a>
        ensures { (name : List ℕ) → entry_in result name ≡ None }
    {
        Table {
            by_name: IndexMap::new(alloc),
        }
    }

    /// The meaning of a name, where it has one.
    pub(crate) fn find(&self, name: &[u8]) -> Option<Meaning>
        ensures { result ≡ meaning_in self.now name.now }
    {
        self.by_name.get(name).copied().flatten()
    }

    /// Gives a name a meaning in place of the one that it had, and answers that one. Unchanged after `NoMemory`.
    pub(crate) fn put(
        &mut self,
        name: &'a [u8],
        meaning: Meaning,
    ) -> Result<Option<Meaning>, NoMemory>
        ensures was { IfOk result (λ was. was ≡ meaning_in self.old name.now) }
        ensures ok { OnOk result ((other : List ℕ) → entry_in self.new other ≡ with_entry name.now (Some meaning) (entry_in self.old) other) }
        ensures err { OnErr result ((other : List ℕ) → entry_in self.new other ≡ entry_in self.old other) }
    {
        let was = self.by_name.insert(name, Some(meaning))?;
        Ok(was.flatten())
    }

    /// Changes the entry of a name that has one. It takes no memory.
    pub(crate) fn set(&mut self, name: &[u8], meaning: Option<Meaning>)
        requires { is_in self.old name.now ≡ true }
        ensures { (other : List ℕ) → entry_in self.new other ≡ with_entry name.now meaning (entry_in self.old) other }
    {
        if let Some(place) = self.by_name.get_mut(name) {
            *place = meaning;
        }
    }
}
