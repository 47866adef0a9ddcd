ghost use Rattle.std.specs.Prelude.{◌≡◌, ◌≢◌, ◌++◌, [], List, ℕ, Some, unwrap_or, option_copied, IsSome, OnOk, OnErr};
ghost use Rattle.io_ports.specs.Texts.{text_of};

use indexmap::IndexMap;
use loc_base::{Bytes, NoMemory};
use std::alloc::Global;
use std::marker::Model;

/// Texts under names, in the order in which the names came. Contracts see it as a list of pairs of a name and a text, of
/// which the first of a name counts.
#[derive(Drop)]
pub struct Texts {
    alloc: Global,
    entries: IndexMap<String, Bytes>,
}

impl Model for Texts {
    ghost use Rattle.std.specs.Prelude.{List, ℕ, map, string_bytes};

    ghost Value = { List (List ℕ × List ℕ) };

    ghost view = { λ t. map (λ entry. (string_bytes entry.0, entry.1)) t.entries.entries };
}

impl Texts {
    /// No texts. It takes no memory.
    pub fn new(alloc: Global) -> Texts
        ensures { result ≡ [] }
    {
        Texts {
            alloc,
            entries: IndexMap::new(alloc),
        }
    }

    /// The text under a name.
    pub fn get(&self, name: &str) -> Option<&Bytes>
        ensures { option_copied result ≡ text_of self.now name.now }
    {
        self.entries.get(name)
    }

    /// Adds a text under a name. Where the name has one already, that one stays. Unchanged after `NoMemory`.
    pub fn add(&mut self, name: &str, text: Bytes) -> Result<(), NoMemory>
        ensures added { OnOk result (text_of self.new name.now ≡ Some (unwrap_or (text_of self.old name.now) text)) }
        ensures others { (other : List ℕ) → other ≢ name.now → text_of self.new other ≡ text_of self.old other }
        ensures err { OnErr result (text_of self.new name.now ≡ text_of self.old name.now) }
    {
        if self.entries.contains_key(name) {
            return Ok(());
        }
        let key = String::from_str(self.alloc, name)?;
        self.entries.insert(key, text)?;
        Ok(())
    }

    /// Puts the empty text under a name, in the place of what stands there. Unchanged after `NoMemory`.
    pub(crate) fn clear(&mut self, name: &str) -> Result<(), NoMemory>
        ensures cleared { OnOk result (text_of self.new name.now ≡ Some []) }
        ensures others { (other : List ℕ) → other ≢ name.now → text_of self.new other ≡ text_of self.old other }
        ensures err { OnErr result (text_of self.new name.now ≡ text_of self.old name.now) }
    {
        let key = String::from_str(self.alloc, name)?;
        self.entries.insert(key, Bytes::new(self.alloc))?;
        Ok(())
    }

    /// Appends a piece to the text under a name that has one. Unchanged after `NoMemory`.
    pub(crate) fn append(&mut self, name: &str, piece: &[u8]) -> Result<(), NoMemory>
        requires { IsSome (text_of self.old name.now) }
        ensures appended { OnOk result (text_of self.new name.now ≡ Some (unwrap_or (text_of self.old name.now) [] ++ piece.now)) }
        ensures others { (other : List ℕ) → other ≢ name.now → text_of self.new other ≡ text_of self.old other }
        ensures err { OnErr result (text_of self.new name.now ≡ text_of self.old name.now) }
    {
        match self.entries.get_mut(name) {
            Some(text) => text.append(piece)?,
            None => unreachable!(),
        }
        Ok(())
    }
}
