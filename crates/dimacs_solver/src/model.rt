//! Whether values of variables satisfy a formula, looked through plainly.
ghost use Rattle.std.specs.Prelude.{◌≡◌, ◌↔◌, ◌-◌, IsTrue, slice_index_or, false};
ghost use Rattle.clause_base.specs.Satisfaction.{value_of, is_satisfied, Satisfies};
ghost use Rattle.sat_core.specs.SolverState.{assignment_of};

use clause_base::{Clauses, Lit};

/// The literal's value.
fn value_of(model: &[bool], literal: Lit) -> bool
    ensures { result ≡ value_of (assignment_of model.now) literal }
{
    let place = (literal.var as usize).saturating_sub(1);
    let value = model.get(place).copied().unwrap_or(false);
    if literal.negated { !value } else { value }
}

/// Whether some literal of the clause is true.
fn is_satisfied(model: &[bool], clause: &[Lit]) -> bool
    ensures { result ≡ is_satisfied (assignment_of model.now) clause.now }
{
    for literal in clause {
        if value_of(model, *literal) {
            return true;
        }
    }
    false
}

/// Whether the values, from variable 1 on, satisfy each clause.
pub fn satisfies(model: &[bool], clauses: &Clauses) -> bool
    ensures { IsTrue result ↔ Satisfies (assignment_of model.now) clauses.now }
{
    for place in 0..clauses.len() {
        if !is_satisfied(model, clauses.clause(place)) {
            return false;
        }
    }
    true
}
