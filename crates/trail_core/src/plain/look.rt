ghost use Rattle.std.specs.Prelude.{◌≡◌, length};
ghost use Rattle.trail_core.specs.TrailState.{IsTrail, IsNumber};
ghost use Rattle.trail_core.specs.Look.{LookGives};

use crate::plain::PlainTrail;
use clause_base::Lit;

/// What a clause asks of unit propagation.
#[derive(Clone, Copy)]
pub(crate) enum Look {
    /// Nothing: it has a true literal, or two unassigned ones.
    Rests,
    /// All its literals are false.
    Falsified,
    /// This literal is unassigned, and all others are false.
    Unit(Lit),
}

impl PlainTrail {
    /// The number of clauses.
    pub(crate) fn count(&self) -> u32
        ensures count { result ≡ length self.now.clauses }
        ensures trail { IsTrail self.now }
    {
        self.clauses.len() as u32
    }

    /// What the clause of that number asks of unit propagation.
    pub(crate) fn look(&self, number: u32) -> Look
        requires { IsNumber self.now.clauses number }
        ensures { LookGives self.now number result }
    {
        let mut unassigned = None;
        for l in self.clause(number) {
            match self.value(l.var) {
                None if unassigned.is_some() => return Look::Rests,
                None => unassigned = Some(*l),
                Some(value) if value != l.negated => return Look::Rests,
                Some(_) => {}
            }
        }
        match unassigned {
            None => Look::Falsified,
            Some(l) => Look::Unit(l),
        }
    }
}
