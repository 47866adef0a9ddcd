//! Clauses that are kept, some of them by their places alone.

ghost use Rattle.std.specs.Prelude.{◌≡◌, ◌∷◌, ◌++◌, [], IfOk, IsTrue, OnOk, get_or, length, true};
ghost use Rattle.clause_base.specs.Literal.{has_distinct_variables};
ghost use Rattle.clause_form.specs.Named.{named_from, skips_three};

use clause_base::{Clauses, Lit};
use loc_base::{Items, NoMemory};
use std::alloc::Global;

/// Clauses. Of those that come next, one whose mark is false is kept as an empty clause; one that has no mark is kept.
pub(crate) struct Kept {
    pub clauses: Clauses,
    /// The marks of the places from the first on.
    pub named: Items<bool>,
}

impl Drop for Kept {
    fn drop(self) {
        let Kept {
            clauses: _,
            named: _,
        } = self;
    }
}

#[tactic(auto, using(crate::proofs::NamedSteps::ones))]
impl Kept {
    /// No clause, by these marks.
    pub(crate) fn new(alloc: Global, named: Items<bool>) -> Kept
        ensures clauses { result.clauses ≡ [] }
        ensures named { result.named ≡ named }
    {
        Kept {
            clauses: Clauses::new(alloc),
            named,
        }
    }

    /// The clauses.
    pub(crate) fn into_clauses(self) -> Clauses
        ensures { result ≡ self.clauses }
    {
        let Kept { clauses, named: _ } = self;
        clauses
    }

    /// Whether the next clause is kept as it is.
    pub(crate) fn takes(&self) -> bool
        ensures { result ≡ get_or self.now.named (length self.now.clauses) true }
    {
        let place = self.clauses.len();
        if place < self.named.len() {
            self.named.as_slice()[place]
        } else {
            true
        }
    }

    /// Whether none of the next three clauses is kept as it is.
    #[inline(always)]
    #[tactic(auto, unfolding(crate::specs::Named::skips_three), using(crate::proofs::NamedSteps::threes))]
    pub(crate) fn skips_three(&self) -> bool
        ensures { result ≡ skips_three self.now.named (length self.now.clauses) }
    {
        let marks = self.named.as_slice();
        let place = self.clauses.len();
        marks.len().saturating_sub(place) >= 3
            && !(marks[place] || (marks[place + 1] || marks[place + 2]))
    }

    /// Appends three empty clauses.
    #[inline(always)]
    pub(crate) fn push_three_empty(&mut self) -> Result<(), NoMemory>
        ensures clauses { OnOk result (self.new.clauses ≡ self.old.clauses ++ [] ∷ [] ∷ [] ∷ []) }
        ensures named { self.new.named ≡ self.old.named }
    {
        self.clauses.push_empty()?;
        self.clauses.push_empty()?;
        self.clauses.push_empty()
    }

    /// Appends a clause, or an empty one in its place.
    pub(crate) fn push(&mut self, clause: &[Lit]) -> Result<(), NoMemory>
        requires { IsTrue (has_distinct_variables clause.now) }
        ensures clauses { OnOk result (self.new.clauses ≡ self.old.clauses ++ named_from self.old.named (length self.old.clauses) (clause.now ∷ [])) }
        ensures named { self.new.named ≡ self.old.named }
    {
        if self.takes() {
            self.clauses.push(clause)
        } else {
            self.clauses.push_empty()
        }
    }

    /// Appends each of some clauses, or an empty one in its place.
    pub(crate) fn push_all(&mut self, clauses: &Clauses) -> Result<(), NoMemory>
        ensures clauses { OnOk result (self.new.clauses ≡ self.old.clauses ++ named_from self.old.named (length self.old.clauses) clauses.now) }
        ensures named { self.new.named ≡ self.old.named }
    {
        for place in 0..clauses.len() {
            self.push(clauses.clause(place))?;
        }
        Ok(())
    }
}
