//! The macros that are defined (IEEE 1364-2005, 19.3).
ghost use Rattle.std.specs.Prelude.{◌≡◌, IfSome, IfNone, OnOk, Some, None};
ghost use Rattle.std.specs.FinMap as map;

use indexmap::IndexMap;
use loc_base::NoMemory;
use std::alloc::Global;
use std::marker::Model;

/// The texts of the macros by their names. Contracts see them as a finite map.
#[derive(Drop)]
pub struct Macros {
    alloc: Global,
    texts: IndexMap<Vec<u8>, Vec<u8>>,
}

impl Model for Macros {
    ghost use Rattle.std.specs.Prelude.{List, ℕ};
    ghost use Rattle.std.specs.Ordering.{nat_cmp};
    ghost use Rattle.std.specs.Cmp.Lexicographic.{slice_cmp};
    ghost use Rattle.std.specs.FinMap as map;
    ghost use Rattle.std.specs.Coded.{coded_ℕ, coded_list};
    ghost use Rattle.v_lexer.specs.Entries.{entries_of};

    ghost Value = { map.FinMap (slice_cmp nat_cmp) (List ℕ) };

    ghost coded = { map.code (coded_list coded_ℕ) (coded_list coded_ℕ) };

    ghost view = { λ m. map.from_entries (entries_of m.texts.entries) };
}

impl Macros {
    /// No macros. It takes no memory.
    pub fn new(alloc: Global) -> Macros
        ensures { result ≡ map.empty }
    {
        Macros {
            alloc,
            texts: IndexMap::new(alloc),
        }
    }

    /// The text of the macro with this name.
    pub fn text(&self, name: &[u8]) -> Option<&[u8]>
        ensures some { IfSome result (λ text. map.get self.now name.now ≡ Some text.now) }
        ensures none { IfNone result (map.get self.now name.now ≡ None) }
    {
        match self.texts.get(name) {
            Some(text) => Some(text.as_slice()),
            None => None,
        }
    }

    /// Whether a macro of this name is defined.
    pub fn contains(&self, name: &[u8]) -> bool
        ensures { result ≡ map.contains_key self.now name.now }
    {
        self.texts.contains_key(name)
    }

    /// Defines a macro, in place of one that had its name.
    pub fn insert(&mut self, name: &[u8], text: &[u8]) -> Result<(), NoMemory>
        ensures { OnOk result (self.new ≡ map.insert self.old name.now text.now) }
    {
        let name = name.to_vec(self.alloc)?;
        let text = text.to_vec(self.alloc)?;
        self.texts.insert(name, text)?;
        Ok(())
    }

    /// Takes a macro away, where one has this name.
    pub fn remove(&mut self, name: &[u8])
        ensures { self.new ≡ map.remove self.old name.now }
    {
        let _ = self.texts.swap_remove(name);
    }
}
