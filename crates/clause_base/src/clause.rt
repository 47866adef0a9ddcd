ghost use Rattle.std.specs.Prelude.{◌≡◌, ◌↔◌, IsTrue, IfOk};

use crate::literal::Lit;
use loc_base::NoMemory;
use smallvec::SmallVec;
use std::alloc::Global;
use std::marker::Model;

/// How many literals a clause holds without an allocation of its own.
const INLINE: usize = 3;

/// A disjunction of literals of distinct variables. Contracts see it as the list of the literals.
#[derive(Drop)]
pub struct Clause {
    literals: SmallVec<Lit, INLINE>,
}

impl Model for Clause {
    ghost use Rattle.std.specs.Prelude.{List, IsTrue};
    ghost use Rattle.clause_base.specs.declared.literal.Lit.{Lit};
    ghost use Rattle.clause_base.specs.Literal.{has_distinct_variables};

    ghost Value = { List Lit };

    ghost view = { λ c. c.literals.items };

    ghost invariant = { λ c. IsTrue (has_distinct_variables c.literals.items) };
}

impl Clause {
    ghost use Rattle.clause_base.specs.Literal.{has_distinct_variables};

    /// The clause of these literals.
    pub fn new(alloc: Global, literals: &[Lit]) -> Result<Clause, NoMemory>
        requires { IsTrue (has_distinct_variables literals.now) }
        ensures { IfOk result (λ clause. clause ≡ literals.now) }
    {
        let literals = SmallVec::from_slice(alloc, literals)?;
        Ok(Clause { literals })
    }

    /// The literals.
    pub fn literals(&self) -> &[Lit]
        ensures value { result.now ≡ self.now }
        ensures distinct { IsTrue (has_distinct_variables self.now) }
    {
        self.literals.as_slice()
    }
}
