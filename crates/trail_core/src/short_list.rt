ghost use Rattle.std.specs.Prelude.{◌≡◌, ◌<◌, ◌≤◌, ◌++◌, ◌∷◌, [], length, OnOk};
ghost use Rattle.trail_core.specs.ShortListing.{one_of, two_of};

use clause_base::Lit;
use loc_base::NoMemory;
use std::alloc::Global;
use std::marker::Model;

/// A clause of at most three literals in the list of one of them: its number, and its other literals. Where there is
/// only one other, or none, the literal itself stands in the place of each that is lacking.
#[derive(Clone, Copy)]
pub(crate) struct Short {
    pub(crate) one_var: u32,
    pub(crate) two_var: u32,
    pub(crate) number: u32,
    pub(crate) one_negated: bool,
    pub(crate) two_negated: bool,
}

impl Short {
    /// The first of the other literals.
    pub(crate) fn one(self) -> Lit
        ensures { result ≡ one_of self }
    {
        Lit {
            var: self.one_var,
            negated: self.one_negated,
        }
    }

    /// The second of the other literals.
    pub(crate) fn two(self) -> Lit
        ensures { result ≡ two_of self }
    {
        Lit {
            var: self.two_var,
            negated: self.two_negated,
        }
    }
}

/// The clauses of at most three literals that have a literal. Contracts see it as their list, and how many have a place in it.
#[derive(Drop)]
pub(crate) struct ShortList {
    clauses: Vec<Short>,
}

impl Model for ShortList {
    ghost use Rattle.std.specs.Vec.{vec_capacity};
    ghost use Rattle.trail_core.specs.ShortListing.{ShortListing};

    ghost Value = { ShortListing };

    ghost view = { λ s. record { clauses = s.clauses.items; room = vec_capacity s.clauses } };
}

impl ShortList {
    /// No clauses.
    pub(crate) fn new(alloc: Global) -> ShortList
        ensures { result.clauses ≡ [] }
    {
        ShortList {
            clauses: Vec::new(alloc),
        }
    }

    /// The clauses.
    pub(crate) fn clauses(&self) -> &[Short]
        ensures { result.now ≡ self.now.clauses }
    {
        self.clauses.as_slice()
    }

    /// Makes room for one clause more.
    pub(crate) fn make_room(&mut self) -> Result<(), NoMemory>
        ensures clauses { self.new.clauses ≡ self.old.clauses }
        ensures room { self.old.room ≤ self.new.room }
        ensures more { OnOk result (length self.old.clauses < self.new.room) }
    {
        self.clauses.reserve(1)?;
        Ok(())
    }

    /// Appends a clause.
    pub(crate) fn push(&mut self, short: Short)
        requires { length self.old.clauses < self.old.room }
        ensures { self.new.clauses ≡ self.old.clauses ++ short ∷ [] }
    {
        self.clauses.push(short).unwrap();
    }
}
