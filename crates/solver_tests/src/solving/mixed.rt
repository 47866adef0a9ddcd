//! Forms of clauses from a fixed sequence of numbers, against a search over all values.

ghost use Rattle.std.specs.Prelude.{◌<◌, ◌≤◌};

use super::{Answer, is_answer, solve, solver_of};
use crate::clauses::following;
use clause_base::{Clauses, Form, Lit, has_distinct_variables};
use loc_base::NoMemory;
use std::alloc::Global;
use std::process::Abort;
use std::test::Fail;

/// Whether the literal is true where the variables have these values.
fn is_true(values: &[bool], l: Lit) -> bool {
    1 <= l.var && l.var as usize <= values.len() && values[l.var as usize - 1] != l.negated
}

/// Whether each clause has a true literal.
fn satisfies(form: &Form, values: &[bool]) -> bool {
    for place in 0..form.clauses.len() {
        if !form
            .clauses
            .clause(place)
            .iter()
            .any(|l| is_true(values, *l))
        {
            return false;
        }
    }
    true
}

/// The lexicographically greatest values of the variables that satisfy the form, by trying all.
fn greatest(rt: &impl Abort, alloc: Global, form: &Form) -> Result<Option<Vec<bool>>, NoMemory> {
    assert!(rt; form.vars <= 8);
    for tried in 0..256u32 {
        let number = 255 - tried;
        let mut values = Vec::new(alloc);
        for place in 0..form.vars {
            values.push(number >> (7 - place) & 1 == 1)?;
        }
        if satisfies(form, &values) {
            return Ok(Some(values));
        }
    }
    Ok(None)
}

/// Three literals of the variables 1 to `vars`, by a number.
fn three(alloc: Global, vars: u32, number: u64) -> Result<Vec<Lit>, NoMemory>
    requires { 0 < vars }
{
    let mut number = number;
    let mut clause = Vec::new(alloc);
    for _ in 0..3 {
        number = following(number);
        clause.push(Lit {
            var: (number % u64::from(vars)) as u32 + 1,
            negated: number / 8 % 2 == 1,
        })?;
    }
    Ok(clause)
}

/// A form with at most `most` clauses of three literals, from a fixed sequence that begins with this number.
fn mixed(alloc: Global, vars: u32, most: u32, start: u64) -> Result<Form, NoMemory>
    requires { (0 < vars) × (vars ≤ 8) }
{
    let mut clauses = Clauses::new(alloc);
    let mut number = start;
    for _ in 0..most {
        number = following(number);
        let clause = three(alloc, vars, number)?;
        if has_distinct_variables(&clause) {
            clauses.push(&clause)?;
        }
    }
    Ok(Form { vars, clauses })
}

/// What the greatest values that satisfy the form make of an answer; the empty clause where none do.
fn answer_of(greatest: &Option<Vec<bool>>) -> Answer<'_> {
    match greatest {
        Some(values) => Answer::Model(values),
        None => Answer::Closed(&[]),
    }
}

/// Whether the solver finds the greatest values that satisfy the form.
fn agrees(
    rt: &impl Abort,
    alloc: Global,
    form: &Form,
    preferred: &[u32],
) -> Result<bool, NoMemory> {
    let mut solver = solver_of(rt, alloc, form, preferred)?;
    let verdict = solve(rt, &mut solver, &[], 1000)?;
    let found = greatest(rt, alloc, form)?;
    Ok(is_answer(&solver, verdict, &answer_of(&found)))
}

#[test]
fn the_model_is_the_greatest_that_a_search_over_all_values_finds(
    rt: HostRuntime,
) -> Result<(), Fail> {
    for start in 1..25 {
        let form = mixed(rt.alloc(), 5, 60, start)?;
        assert!(rt; agrees(&rt, rt.alloc(), &form, &[1, 2, 3, 4, 5])?);
        let form = mixed(rt.alloc(), 8, 70, start)?;
        assert!(rt; agrees(&rt, rt.alloc(), &form, &[1, 2, 3, 4, 5, 6, 7, 8])?);
    }
    Ok(())
}
