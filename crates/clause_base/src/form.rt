ghost use Rattle.std.specs.Prelude.{◌≡◌, ◌<◌, ◌↔◌, IsTrue, length, [], ◌∷◌, ◌++◌, slice_index_or, OnOk, OnErr};

use crate::literal::Lit;
use loc_base::{NoMemory, Rows};
use std::alloc::Global;
use std::marker::Model;

/// A list of clauses, each of literals of distinct variables, in one piece of memory.
/// Contracts see it as the list of the clauses.
#[derive(Debug, Drop)]
pub struct Clauses {
    rows: Rows<Lit>,
}

impl Model for Clauses {
    ghost use Rattle.std.specs.Prelude.{List};
    ghost use Rattle.clause_base.specs.declared.literal.Lit.{Lit};
    ghost use Rattle.clause_base.specs.Literal.{AllDistinct};

    ghost Value = { List (List Lit) };

    ghost view = { λ c. c.rows };

    ghost invariant = { λ c. AllDistinct c.rows };
}

impl Clauses {
    ghost use Rattle.clause_base.specs.Literal.{has_distinct_variables, AllDistinct};

    /// No clauses. It takes no memory.
    pub fn new(alloc: Global) -> Clauses
        ensures { result ≡ [] }
    {
        Clauses {
            rows: Rows::new(alloc),
        }
    }

    /// The number of clauses.
    pub fn len(&self) -> usize
        ensures value { result ≡ length self.now }
        ensures distinct { AllDistinct self.now }
    {
        self.rows.len()
    }

    /// Whether there is no clause.
    pub fn is_empty(&self) -> bool
        ensures { IsTrue result ↔ (self.now ≡ []) }
    {
        self.rows.is_empty()
    }

    /// The literals of the clause at that place, counted from 0.
    pub fn clause(&self, place: usize) -> &[Lit]
        requires { place < length self.now }
        ensures value { result.now ≡ slice_index_or self.now place [] }
        ensures distinct { IsTrue (has_distinct_variables result.now) }
    {
        self.rows.row(place)
    }

    /// Appends the clause of these literals. Unchanged after `NoMemory`.
    pub fn push(&mut self, literals: &[Lit]) -> Result<(), NoMemory>
        requires { IsTrue (has_distinct_variables literals.now) }
        ensures ok { OnOk result (self.new ≡ self.old ++ literals.now ∷ []) }
        ensures err { OnErr result (self.new ≡ self.old) }
    {
        self.rows.push(literals)
    }

    /// Appends the clause of no literals. Unchanged after `NoMemory`.
    #[inline(always)]
    pub fn push_empty(&mut self) -> Result<(), NoMemory>
        ensures ok { OnOk result (self.new ≡ self.old ++ [] ∷ []) }
        ensures err { OnErr result (self.new ≡ self.old) }
    {
        self.rows.push_empty()
    }
}

/// A formula: clauses over the variables from 1 to `vars`.
#[derive(Debug, Drop)]
pub struct Form {
    pub vars: u32,
    pub clauses: Clauses,
}
