//! Lists of names in which a name is found by one look.
ghost use Rattle.std.specs.Prelude.{◌≡◌, ℕ, List, map};
ghost use Rattle.v_hierarchy.specs.Places.{place_in};
ghost use Rattle.v_scopes.specs.PlaceAmong.{place_among};

use loc_base::{Name, NoMemory};
use std::alloc::Global;
use v_hierarchy::Places;

/// Names in their order. A name may stand there twice.
pub struct NameList<'t> {
    list: Vec<&'t Name>,
    places: Places<'t>,
    pub ghost tells: { (name : List ℕ) → place_in places name ≡ place_among name (map (λ n. n.now) list.items) },
}

// A `drop` is written out, so that it is proved once, here.
impl<'t> Drop for NameList<'t> {
    fn drop(self) {
        let NameList { list: _, places: _ } = self;
    }
}

impl<'t> NameList<'t> {
    ghost use Rattle.std.specs.Prelude.{[], ◌++◌, ◌∷◌, None, Some, OnOk, OnErr, option_map, slice_get};
    ghost use Rattle.v_hierarchy.specs.Parameters.{is_among};
    ghost use Rattle.v_scopes.specs.Listed.{listed};

    /// The empty list. It takes no memory.
    pub fn new(alloc: Global) -> NameList<'t>
        ensures { listed result ≡ [] }
    {
        NameList {
            list: Vec::new(alloc),
            places: Places::new(alloc),
        }
    }

    /// The first place of a name, counted from 0, where it has one.
    pub fn place(&self, name: &Name) -> Option<usize>
        ensures { result ≡ place_among name.now (listed self.now) }
    {
        self.places.find(name.as_bytes())
    }

    /// Whether a name is among them.
    #[tactic(auto, using(crate::proofs::TableLaws::place_is_among))]
    pub fn contains(&self, name: &Name) -> bool
        ensures { result ≡ is_among name.now (listed self.now) }
    {
        self.place(name).is_some()
    }

    /// The name at a place, counted from 0, where there is one.
    pub fn get(&self, place: usize) -> Option<&'t Name>
        ensures { option_map (λ n. n.now) result ≡ slice_get (listed self.now) place }
    {
        self.list.get(place).copied()
    }

    /// One name more, which isn't there. Unchanged after `NoMemory`.
    fn push_new(&mut self, name: &'t Name) -> Result<(), NoMemory>
        requires { place_among name.now (listed self.old) ≡ None }
        ensures ok { OnOk result (listed self.new ≡ listed self.old ++ name.now ∷ []) }
        ensures err { OnErr result (listed self.new ≡ listed self.old) }
    {
        self.list.reserve(1)?;
        self.places.put(name.as_bytes(), self.list.len())?;
        self.list.push(name).unwrap();
        Ok(())
    }

    /// One name more, which is there. Unchanged after `NoMemory`.
    fn push_again(&mut self, name: &'t Name, place: usize) -> Result<(), NoMemory>
        requires { place_among name.now (listed self.old) ≡ Some place }
        ensures ok { OnOk result (listed self.new ≡ listed self.old ++ name.now ∷ []) }
        ensures err { OnErr result (listed self.new ≡ listed self.old) }
    {
        self.list.push(name)?;
        Ok(())
    }

    /// One name more. Unchanged after `NoMemory`.
    pub fn push(&mut self, name: &'t Name) -> Result<(), NoMemory>
        ensures ok { OnOk result (listed self.new ≡ listed self.old ++ name.now ∷ []) }
        ensures err { OnErr result (listed self.new ≡ listed self.old) }
    {
        match self.place(name) {
            Some(place) => self.push_again(name, place),
            None => self.push_new(name),
        }
    }
}
