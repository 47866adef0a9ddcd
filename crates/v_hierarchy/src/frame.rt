//! The names of one scope, found by one look into a table.
ghost use Rattle.std.specs.Prelude.{◌≡◌, map, option_map, OnOk, OnErr, IfErr, Ok};
ghost use Rattle.v_hierarchy.specs.Names.{again, declared, find};
ghost use Rattle.v_hierarchy.specs.Views.{standing_of, entry_of};
ghost use Rattle.v_hierarchy.specs.Places.{Tells};
ghost use Rattle.v_hierarchy.specs.Stands.{Stands, Stands-prop};

use crate::error::ElabErr;
use crate::places::Places;
use crate::standing::{Entry, Standing};
use loc_base::{Items, Name, NoMemory};
use std::alloc::Global;
use v_sizes::Meaning;

/// What a name becomes that is declared once more, if it may be.
fn again<'t>(one: &Standing<'t>, other: &Standing<'t>) -> Option<Standing<'t>>
    ensures { option_map standing_of result ≡ again (standing_of one.now) (standing_of other.now) }
{
    match (one, other) {
        (Standing::Signal(one), Standing::Signal(other)) => {
            if one.may_join(*other) {
                Some(Standing::Signal(one.joined(*other)))
            } else {
                None
            }
        }
        _ => None,
    }
}

/// The names of a scope, in the order of their declarations.
pub struct Frame<'t> {
    entries: Vec<Entry<'t>>,
    places: Places<'t>,
    pub ghost tells: { Tells places (map entry_of entries.items) },
    pub ghost stands: { Stands (map entry_of entries.items) } by { Stands-prop (map entry_of entries.items) },
}

// A `drop` is written out, so that it is proved once, here.
impl<'t> Drop for Frame<'t> {
    fn drop(self) {
        let Frame {
            entries: _,
            places: _,
        } = self;
    }
}

impl<'t> Frame<'t> {
    ghost use Rattle.std.specs.Prelude.{[], ◌++◌, ◌∷◌, None, IfSome};
    ghost use Rattle.v_sizes.specs.Context.{IsMeaning};
    ghost use Rattle.v_hierarchy.specs.Names.{meaning_of};
    ghost use Rattle.v_hierarchy.specs.Frames.{names_of, Refuses};

    /// The scope without names. It takes no memory.
    pub fn new(alloc: Global) -> Frame<'t>
        ensures { names_of result ≡ [] }
    {
        Frame {
            entries: Vec::new(alloc),
            places: Places::new(alloc),
        }
    }

    /// What a name is declared as here, if it is.
    pub fn find(&self, name: &Name) -> Option<Standing<'t>>
        ensures found { option_map standing_of result ≡ find name.now (names_of self.now) }
        ensures stands { IfSome result (λ s. IsMeaning (meaning_of (standing_of s))) }
    {
        let Some(place) = self.places.find(name.as_bytes()) else {
            return None;
        };
        Some(self.entries[place].standing)
    }

    /// What a name stands for by its declaration here, if it has one.
    pub fn meaning(&self, name: &Name) -> Option<Meaning>
        ensures found { result ≡ option_map meaning_of (find name.now (names_of self.now)) }
        ensures stands { IfSome result IsMeaning }
    {
        let standing = self.find(name)?;
        Some(standing.meaning())
    }

    /// One name more, which isn't declared here. Unchanged after `NoMemory`.
    pub fn append(&mut self, new: Entry<'t>) -> Result<(), NoMemory>
        requires fresh { find (entry_of new).name.name (names_of self.old) ≡ None }
        requires stands { IsMeaning (meaning_of (standing_of new.standing)) }
        ensures ok { OnOk result (names_of self.new ≡ names_of self.old ++ entry_of new.entry ∷ []) }
        ensures err { OnErr result (names_of self.new ≡ names_of self.old) }
    {
        self.entries.reserve(1)?;
        self.places
            .put(new.name.name.as_bytes(), self.entries.len())?;
        self.entries.push(new).unwrap();
        Ok(())
    }

    /// Declares a name, which may stand here already. Unchanged after a refusal.
    pub fn declare(&mut self, new: Entry<'t>) -> Result<(), ElabErr>
        requires { IsMeaning (meaning_of (standing_of new.standing)) }
        ensures ok { OnOk result (declared (entry_of new.entry) (names_of self.old) ≡ Ok (names_of self.new)) }
        ensures err { IfErr result (λ e. Refuses (declared (entry_of new.entry) (names_of self.old)) e) }
        ensures same { OnErr result (names_of self.new ≡ names_of self.old) }
    {
        let Some(place) = self.places.find(new.name.name.as_bytes()) else {
            self.append(new)?;
            return Ok(());
        };
        let old = self.entries[place];
        let Some(both) = again(&old.standing, &new.standing) else {
            return Err(ElabErr::DoubleName(new.name.site.span));
        };
        self.entries[place] = Entry {
            name: old.name,
            standing: both,
        };
        Ok(())
    }

    /// Its names with what each is declared as.
    pub fn entries(&self) -> &[Entry<'t>]
        ensures { map entry_of result.now ≡ names_of self.now }
    {
        self.entries.as_slice()
    }

    /// The same, as a list of its own. It takes no memory.
    pub fn into_entries(self) -> Items<Entry<'t>>
        ensures { map entry_of result ≡ names_of self.entry }
    {
        let Frame { entries, places: _ } = self;
        Items::from_vec(entries)
    }
}
