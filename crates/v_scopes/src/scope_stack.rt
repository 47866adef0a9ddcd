//! The scopes around a place of a text (IEEE 1364-2005, 12.7): what each name is declared as there, and what it stands for while
//! constants are wanted.
ghost use Rattle.std.specs.Prelude.{◌≡◌, ℕ, List, ◌∷◌, option_map};
ghost use Rattle.v_sizes.specs.Scopes.{look_of};
ghost use Rattle.v_hierarchy.specs.Names.{look_in};
ghost use Rattle.v_hierarchy.specs.Frames.{names_of};
ghost use Rattle.v_scopes.specs.Outer.{around};

use crate::outward::{find_around, put_back};
use loc_base::{Items, Name, NoMemory};
use std::alloc::Global;
use std::mem;
use v_hierarchy::{Bounds, ElabErr, Entry, Frame, Standing};
use v_sizes::{Const, Scope};
use v_syntax::Identifier;

/// The scopes around a place, of which names are declared in the innermost. To find or to declare a name takes one look into a table
/// for each scope at most.
pub struct Scopes<'t> {
    alloc: Global,
    inner: Frame<'t>,
    /// The scopes around it, the innermost last.
    outer: Vec<Frame<'t>>,
    meanings: Scope<'t>,
    pub ghost looks: { (name : List ℕ) → look_of meanings name ≡ look_in (names_of inner ∷ around outer.items) name },
}

// A `drop` is written out, so that it is proved once, here.
impl<'t> Drop for Scopes<'t> {
    fn drop(self) {
        let Scopes {
            alloc: _,
            inner: _,
            outer: _,
            meanings: _,
        } = self;
    }
}

impl<'t> Scopes<'t> {
    ghost use Rattle.std.specs.Prelude.{[], ◌++◌, ◌≢◌, map, None, Ok, OnOk, OnErr, IfErr, IfSome};
    ghost use Rattle.loc_base.specs.Bits.{width_of};
    ghost use Rattle.v_sizes.specs.Context.{IsMeaning};
    ghost use Rattle.v_hierarchy.specs.Names.{find, find_in, declared, meaning_of};
    ghost use Rattle.v_hierarchy.specs.Views.{standing_of, entry_of};
    ghost use Rattle.v_hierarchy.specs.Unrolled.{at_turn};
    ghost use Rattle.v_hierarchy.specs.Frames.{Refuses};
    ghost use Rattle.v_scopes.specs.Around.{names_in, outer_of, frames_of};

    /// One scope without names. It takes no memory.
    pub fn new(alloc: Global) -> Scopes<'t>
        ensures { frames_of result ≡ [] ∷ [] }
    {
        Scopes {
            alloc,
            inner: Frame::new(alloc),
            outer: Vec::new(alloc),
            meanings: Scope::new(alloc),
        }
    }

    pub(crate) fn allocator(&self) -> Global {
        self.alloc
    }

    /// What the names stand for.
    #[tactic(auto, using(crate::proofs::OutwardLaws::same_look))]
    pub fn meanings(&self) -> &Scope<'t>
        ensures { look_of result.now ≡ look_in (frames_of self.now) }
    {
        &self.meanings
    }

    /// What a name is declared as in the innermost scope that has it.
    pub fn find(&self, name: &Name) -> Option<Standing<'t>>
        ensures { option_map standing_of result ≡ find_in (frames_of self.now) name.now }
    {
        match self.inner.find(name) {
            Some(standing) => Some(standing),
            None => find_around(self.outer.as_slice(), name),
        }
    }

    /// What a name is declared as in the innermost scope.
    pub fn find_here(&self, name: &Name) -> Option<Standing<'t>>
        ensures { option_map standing_of result ≡ find name.now (names_in self.now) }
    {
        self.inner.find(name)
    }

    /// A scope without names inside the innermost. Unchanged after `NoMemory`.
    pub fn enter(&mut self) -> Result<(), NoMemory>
        ensures names { OnOk result (names_in self.new ≡ []) }
        ensures around { OnOk result (outer_of self.new ≡ frames_of self.old) }
        ensures err { OnErr result (frames_of self.new ≡ frames_of self.old) }
    {
        self.outer.reserve(1)?;
        let inner = mem::replace(&mut self.inner, Frame::new(self.alloc));
        self.outer.push(inner).unwrap();
        Ok(())
    }

    /// Leaves the innermost scope, and gives its names. It takes no memory.
    pub fn leave(&mut self) -> Items<Entry<'t>>
        requires { outer_of self.old ≢ [] }
        ensures names { map entry_of result ≡ names_in self.old }
        ensures around { frames_of self.new ≡ outer_of self.old }
    {
        put_back(
            &mut self.meanings,
            self.inner.entries(),
            self.outer.as_slice(),
        );
        let around = self.outer.pop().unwrap();
        let inner = mem::replace(&mut self.inner, around);
        inner.into_entries()
    }

    /// The names of the innermost scope, where no more is wanted of the others.
    pub fn into_names(self) -> Items<Entry<'t>>
        ensures { map entry_of result ≡ names_in self.entry }
    {
        let Scopes {
            alloc: _,
            inner,
            outer: _,
            meanings: _,
        } = self;
        inner.into_entries()
    }

    /// One name more in the innermost scope, which hasn't it. Unchanged after `NoMemory`.
    pub fn append(&mut self, new: Entry<'t>) -> Result<(), NoMemory>
        requires fresh { find (entry_of new).name.name (names_in self.old) ≡ None }
        requires stands { IsMeaning (meaning_of (standing_of new.standing)) }
        ensures ok { OnOk result (names_in self.new ≡ names_in self.old ++ entry_of new.entry ∷ []) }
        ensures err { OnErr result (names_in self.new ≡ names_in self.old) }
        ensures around { outer_of self.new ≡ outer_of self.old }
    {
        let name = &new.name.name;
        let was = self.meanings.put(name, new.standing.meaning())?;
        match self.inner.append(new) {
            Ok(()) => Ok(()),
            Err(error) => {
                self.meanings.set(name, was);
                Err(error)
            }
        }
    }

    /// Declares a name that the innermost scope has already, if it may be declared once more.
    fn declare_again(&mut self, new: Entry<'t>) -> Result<(), ElabErr>
        requires there { find (entry_of new).name.name (names_in self.old) ≢ None }
        requires stands { IsMeaning (meaning_of (standing_of new.standing)) }
        ensures ok { OnOk result (declared (entry_of new.entry) (names_in self.old) ≡ Ok (names_in self.new)) }
        ensures err { IfErr result (λ e. Refuses (declared (entry_of new.entry) (names_in self.old)) e) }
        ensures same { OnErr result (names_in self.new ≡ names_in self.old) }
        ensures around { outer_of self.new ≡ outer_of self.old }
    {
        self.inner.declare(new)?;
        let name = &new.name.name;
        let both = self.inner.meaning(name);
        self.meanings.set(name, both);
        Ok(())
    }

    /// Declares a name in the innermost scope, which may have it already. Unchanged after a refusal.
    #[tactic(auto, using(crate::proofs::OutwardLaws::declared_fresh))]
    pub fn declare(&mut self, new: Entry<'t>) -> Result<(), ElabErr>
        requires { IsMeaning (meaning_of (standing_of new.standing)) }
        ensures ok { OnOk result (declared (entry_of new.entry) (names_in self.old) ≡ Ok (names_in self.new)) }
        ensures err { IfErr result (λ e. Refuses (declared (entry_of new.entry) (names_in self.old)) e) }
        ensures same { OnErr result (names_in self.new ≡ names_in self.old) }
        ensures around { outer_of self.new ≡ outer_of self.old }
    {
        if self.inner.find(&new.name.name).is_some() {
            return self.declare_again(new);
        }
        self.append(new)?;
        Ok(())
    }

    /// The scope of a turn inside the innermost: a loop's variable is a constant there. Unchanged after `NoMemory`.
    pub fn at_turn(&mut self, variable: &'t Identifier, value: Const) -> Result<(), NoMemory>
        requires { width_of value.bits ≡ 32 }
        ensures ok { OnOk result (frames_of self.new ≡ at_turn variable.now value (frames_of self.old)) }
        ensures err { OnErr result (frames_of self.new ≡ frames_of self.old) }
    {
        self.enter()?;
        let bounds = Bounds { left: 31, right: 0 };
        let standing = Standing::Constant { value, bounds };
        match self.append(Entry {
            name: variable,
            standing,
        }) {
            Ok(()) => Ok(()),
            Err(error) => {
                let _none = self.leave();
                Err(error)
            }
        }
    }
}
