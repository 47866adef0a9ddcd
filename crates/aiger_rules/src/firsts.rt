//! The places of first keys.
ghost use Rattle.std.specs.Prelude.{◌≡◌, ℕ, None, OnOk};
ghost use Rattle.aiger_rules.specs.First.{place_of, with_place};

use loc_base::NoMemory;
use std::alloc::Global;
use std::collections::HashMap;

/// For each key that was met, the place where it was met first.
pub struct Firsts {
    places: HashMap<u64, usize>,
}

// A `drop` is written out, so that it is proved once, here: a derived one is proved again by each crate that lets a value go.
impl Drop for Firsts {
    fn drop(self) {
        let Firsts { places: _ } = self;
    }
}

impl Firsts {
    /// No key was met. It takes no memory.
    pub fn new(alloc: Global) -> Firsts
        ensures { (key : ℕ) → place_of result key ≡ None }
    {
        Firsts {
            places: HashMap::new(alloc),
        }
    }

    /// The place of a key, where it was met.
    pub fn find(&self, key: u64) -> Option<usize>
        ensures { result ≡ place_of self.now key }
    {
        self.places.get(&key).copied()
    }

    /// Meets a key at a place, where there is one. One that was met before keeps its place.
    pub fn meet(&mut self, key: Option<u64>, place: usize) -> Result<(), NoMemory>
        ensures { OnOk result ((other : ℕ) → place_of self.new other ≡ with_place (place_of self.old) key place other) }
    {
        let Some(key) = key else {
            return Ok(());
        };
        if let Some(_place) = self.places.get(&key) {
            return Ok(());
        }
        self.places.insert(key, place)?;
        Ok(())
    }
}
