//! The names that are seen from a place of the text (IEEE 1364-2005, 12.7).
ghost use Rattle.std.specs.Prelude.{◌≡◌, ℕ, List, reverse};
ghost use Rattle.v_sizes.specs.Scopes.{look_of};
ghost use Rattle.v_binding.specs.Names.{look_in};
ghost use Rattle.v_binding.specs.Held.{names_of, AreHeld, AreHeld-prop};

use crate::{Known, Use};
use loc_base::{Items, Name, NoMemory};
use std::alloc::Global;
use v_sizes::{Meaning, Scope};

/// A name with what it stood for before.
#[derive(Clone, Copy)]
struct Held<'t> {
    known: Known<'t>,
    was: Option<Meaning>,
}

/// The names that are seen from a place. One more, and one less, take the time of one look into a table.
pub struct Names<'t> {
    alloc: Global,
    scope: Scope<'t>,
    /// The innermost last.
    held: Items<Held<'t>>,
    pub ghost looks: { (name : List ℕ) → look_of scope name ≡ look_in (names_of held) name },
    pub ghost were: { AreHeld scope (reverse held) } by { AreHeld-prop scope (reverse held) },
}

// A `drop` is written out, so that it is proved once, here.
impl<'t> Drop for Names<'t> {
    fn drop(self) {
        let Names {
            alloc: _,
            scope: _,
            held: _,
        } = self;
    }
}

impl<'t> Names<'t> {
    ghost use Rattle.std.specs.Prelude.{[], ◌∷◌, ◌≢◌, drop, OnErr, OnOk};
    ghost use Rattle.v_binding.specs.Names.{find};
    ghost use Rattle.v_binding.specs.Held.{known_of};
    ghost use Rattle.v_binding.specs.Seen.{names_in};

    /// No names. It takes no memory.
    pub fn new(alloc: Global) -> Names<'t>
        ensures { names_in result ≡ [] }
    {
        Names {
            alloc,
            scope: Scope::new(alloc),
            held: Items::new(alloc),
        }
    }

    /// What they stand for in expressions.
    #[tactic(auto, using(crate::proofs::HeldLaws::same_look))]
    pub fn scope(&self) -> &Scope<'t>
        ensures { look_of result.now ≡ look_in (names_in self.now) }
    {
        &self.scope
    }

    /// The allocator of its tables.
    pub fn allocator(&self) -> Global {
        self.alloc
    }

    /// What a name stands for, by all names from the outermost to the innermost.
    fn search(&self, name: &Name) -> Option<Use>
        ensures { result ≡ find (names_in self.now) name.now }
    {
        let mut found = None;
        for held in self.held.iter() {
            if held.known.name.as_bytes() == name.as_bytes() {
                found = Some(held.known.use_of);
            }
        }
        found
    }

    /// What a name stands for. A signal or an array is found by one look into a table.
    #[tactic(auto, using(crate::proofs::HeldLaws::found_laws))]
    pub fn find(&self, name: &Name) -> Option<Use>
        ensures { result ≡ find (names_in self.now) name.now }
    {
        match self.scope.find(name) {
            None | Some(Meaning::Constant { .. }) => self.search(name),
            Some(meaning) => Some(Use::Stands(meaning)),
        }
    }

    /// One name more, which hides what has its name. Unchanged after `NoMemory`.
    #[tactic(auto, using(crate::proofs::HeldLaws::held_laws))]
    pub fn push(&mut self, known: Known<'t>) -> Result<(), NoMemory>
        ensures ok { OnOk result (names_in self.new ≡ known_of known.entry ∷ names_in self.old) }
        ensures err { OnErr result (names_in self.new ≡ names_in self.old) }
    {
        let was = self.scope.put(known.name, known.use_of.bare_meaning())?;
        match self.held.push(Held { known, was }) {
            Ok(()) => {
                self.scope.set(known.name, known.use_of.meaning());
                Ok(())
            }
            Err(error) => {
                self.scope.set(known.name, was);
                Err(error)
            }
        }
    }

    /// Takes the innermost name off. It takes no memory.
    pub fn pop(&mut self)
        requires { names_in self.old ≢ [] }
        ensures { names_in self.new ≡ drop 1 (names_in self.old) }
    {
        if let Some(Held { known, was }) = self.held.pop() {
            self.scope.set(known.name, was);
        }
    }
}
