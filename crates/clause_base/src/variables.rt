//! Tests of the variables of clauses, for callers that can't know.

ghost use Rattle.std.specs.Prelude.{◌≡◌, ◌↔◌, IsTrue, All};
ghost use Rattle.clause_base.specs.Literal.{has_variable, has_distinct_variables, IsWithin, AreWithin};

use crate::clause::Clause;
use crate::form::Clauses;
use crate::literal::Lit;

/// Whether some literal is of the variable.
fn has_variable(literals: &[Lit], var: u32) -> bool
    ensures { result ≡ has_variable literals.now var }
{
    for literal in literals {
        if literal.var == var {
            return true;
        }
    }
    false
}

/// Whether no two literals are of one variable. It compares each with those before it, so it is meant for short lists.
pub fn has_distinct_variables(literals: &[Lit]) -> bool
    ensures { result ≡ has_distinct_variables literals.now }
{
    for (place, literal) in literals.iter().enumerate() {
        if has_variable(&literals[..place], literal.var) {
            return false;
        }
    }
    true
}

/// Whether the literals' variables are from 1 to `vars`.
pub fn is_within(literals: &[Lit], vars: u32) -> bool
    ensures { IsTrue result ↔ IsWithin vars literals.now }
{
    literals
        .iter()
        .all(|literal| 1 <= literal.var && literal.var <= vars)
}

/// Whether the clauses' variables are from 1 to `vars`.
pub fn are_within(clauses: &Clauses, vars: u32) -> bool
    ensures { IsTrue result ↔ AreWithin vars clauses.now }
{
    for place in 0..clauses.len() {
        if !is_within(clauses.clause(place), vars) {
            return false;
        }
    }
    true
}

/// Whether the blocks' variables are from 1 to `vars`.
pub fn blocks_are_within(blocks: &[Clause], vars: u32) -> bool
    ensures { IsTrue result ↔ AreWithin vars blocks.now }
{
    for block in blocks {
        if !is_within(block.literals(), vars) {
            return false;
        }
    }
    true
}
