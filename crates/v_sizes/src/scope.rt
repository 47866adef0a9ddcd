ghost use Rattle.v_sizes.specs.Table.{meaning_in};
ghost use Rattle.v_sizes.specs.Context.{IsScope};
ghost use Rattle.v_sizes.specs.Standing.{IsScope-prop};

use crate::meaning::Meaning;
use crate::table::Table;
use loc_base::{Name, NoMemory};
use std::alloc::Global;

/// What the names of a place in the text stand for. Contracts see it as a function from names to meanings, and know
/// which names have an entry: those are the ones that were added or put.
#[derive(Drop)]
pub struct Scope<'a> {
    table: Table<'a>,
    pub ghost stands: { IsScope (meaning_in table) } by { IsScope-prop (meaning_in table) },
}

impl<'a> Scope<'a> {
    ghost use Rattle.std.specs.Prelude.{◌≡◌, ℕ, List, Some, None, OnErr, OnOk, IfOk, is_some, not, true, ◌||◌, nat_eq};
    ghost use Rattle.std.specs.Bool.{OnTrue, OnFalse};
    ghost use Rattle.std.specs.Cmp.Lexicographic.{pointwise};
    ghost use Rattle.v_sizes.specs.Table.{with_meaning, with_standing};
    ghost use Rattle.v_sizes.specs.Context.{IsMeaning};
    ghost use Rattle.v_sizes.specs.Scopes.{look_of, has_entry};

    /// The scope in which no name stands for anything. It takes no memory.
    pub fn new(alloc: Global) -> Scope<'a>
        ensures { (name : List ℕ) → look_of result name ≡ None }
    {
        Scope {
            table: Table::new(alloc),
        }
    }

    /// What a name stands for, if it does for anything.
    pub fn find(&self, name: &Name) -> Option<Meaning>
        ensures { result ≡ look_of self.now name.now }
    {
        self.table.find(name.as_bytes())
    }

    /// Lets a name stand for something, and answers whether it stood for nothing before. A name that stands for
    /// something goes on to stand for it. Unchanged after `NoMemory`.
    pub fn add(&mut self, name: &'a Name, meaning: Meaning) -> Result<bool, NoMemory>
        requires { IsMeaning meaning }
        ensures fresh { IfOk result (λ added. added ≡ not (is_some (look_of self.old name.now))) }
        ensures added { IfOk result (λ added. OnTrue added ((other : List ℕ) → look_of self.new other ≡ with_meaning name.now meaning (look_of self.old) other)) }
        ensures stays { IfOk result (λ added. OnFalse added ((other : List ℕ) → look_of self.new other ≡ look_of self.old other)) }
        ensures err { OnErr result ((other : List ℕ) → look_of self.new other ≡ look_of self.old other) }
        ensures entries { OnOk result ((other : List ℕ) → has_entry self.new other ≡ (pointwise nat_eq name.now other || has_entry self.old other)) }
        ensures err_entries { OnErr result ((other : List ℕ) → has_entry self.new other ≡ has_entry self.old other) }
    {
        if self.find(name).is_some() {
            return Ok(false);
        }
        self.put(name, meaning)?;
        Ok(true)
    }

    /// Lets a name stand for something, whatever it stood for before, and answers what that was: `set` puts it back.
    /// Unchanged after `NoMemory`.
    pub fn put(&mut self, name: &'a Name, meaning: Meaning) -> Result<Option<Meaning>, NoMemory>
        requires { IsMeaning meaning }
        ensures was { IfOk result (λ was. was ≡ look_of self.old name.now) }
        ensures ok { OnOk result ((other : List ℕ) → look_of self.new other ≡ with_meaning name.now meaning (look_of self.old) other) }
        ensures err { OnErr result ((other : List ℕ) → look_of self.new other ≡ look_of self.old other) }
        ensures entries { OnOk result ((other : List ℕ) → has_entry self.new other ≡ (pointwise nat_eq name.now other || has_entry self.old other)) }
        ensures err_entries { OnErr result ((other : List ℕ) → has_entry self.new other ≡ has_entry self.old other) }
    {
        let was = self.table.put(name.as_bytes(), meaning)?;
        Ok(was)
    }

    /// Changes what a name that has an entry stands for; `None` for nothing. It takes no memory, so it can't fail.
    pub fn set(&mut self, name: &Name, meaning: Option<Meaning>)
        requires entered { has_entry self.old name.now ≡ true }
        requires stands { (m : Meaning) → meaning ≡ Some m → IsMeaning m }
        ensures look { (other : List ℕ) → look_of self.new other ≡ with_standing name.now meaning (look_of self.old) other }
        ensures entries { (other : List ℕ) → has_entry self.new other ≡ has_entry self.old other }
    {
        self.table.set(name.as_bytes(), meaning);
    }
}
