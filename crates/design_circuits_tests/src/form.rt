//! What the form of a design says of sets of suspects.

ghost use Rattle.std.specs.Prelude.{◌≡◌, ◌≤◌, ◌<◌, ◌+◌, ◌^◌, All, IfOk, IsTrue, length};

use crate::asked::Asked;
use bit_circuit::Circuit;
use card_counter::{bound, counters};
use clause_base::{Form, Lit, are_within, has_distinct_variables, is_within};
use clause_form::form;
use design_core::Values;
use form_values::{are_places, has_one_column_each, values};
use sat_core::{Budget, Solver, Verdict};
use std::alloc::Global;
use std::test::Fail;
use unroller::{Unrolled, are_traces, unroll};

/// The unrolled circuit and its clauses, in which sets of at most so many suspects are asked for.
#[derive(Drop)]
pub(super) struct Clauses {
    pub(super) unrolled: Unrolled,
    pub(super) form: Form,
    pub(super) most: u32,
}

/// The form of a circuit for the traces and the suspects.
pub(super) fn clauses_of(
    alloc: Global,
    circuit: &Circuit,
    asked: &Asked,
    most: u32,
) -> Result<Clauses, Fail> {
    if !are_traces(circuit, &asked.traces) {
        return Err(Fail::new("no traces of the circuit"));
    }
    let unrolled = match unroll(alloc, circuit, &asked.traces, &asked.groups, most) {
        Ok(unrolled) => unrolled,
        Err(_) => return Err(Fail::new("too many variables")),
    };
    match form(alloc, &unrolled, &asked.groups, most) {
        Ok(form) => Ok(Clauses {
            unrolled,
            form,
            most,
        }),
        Err(_) => Err(Fail::new("too many literals")),
    }
}

/// The literal that is false where no more than so many of the suspects are chosen.
fn too_many(suspects: u32, most: u32, members: u32) -> Result<Option<Lit>, Fail> {
    if suspects > 1000 || counters(suspects, most) > 1000 || members > most {
        return Err(Fail::new("too many suspects"));
    }
    Ok(bound(suspects, most, members, suspects + 1))
}

/// What is assumed: the selectors of exactly these members are true, and no more than so many.
fn assumptions(
    alloc: Global,
    suspects: usize,
    most: u32,
    members: &[u32],
) -> Result<Vec<Lit>, Fail> {
    if suspects > 1000 || members.len() > 1000 {
        return Err(Fail::new("too many suspects"));
    }
    let suspects = suspects as u32;
    let mut assume = Vec::new(alloc);
    for i in 0..suspects {
        let var = i + 1;
        let negated = !members.contains(&var);
        assume.push(Lit { var, negated })?;
    }
    if let Some(more) = too_many(suspects, most, members.len() as u32)? {
        assume.push(Lit {
            var: more.var,
            negated: true,
        })?;
    }
    Ok(assume)
}

/// A solver of a form.
fn solver_of(alloc: Global, form: &Form) -> Result<Solver, Fail>
    ensures { IfOk result (λ s. length s.form < 100000) }
{
    if form.clauses.len() >= 100_000 || !are_within(&form.clauses, form.vars) {
        return Err(Fail::new("no such form"));
    }
    Ok(Solver::new(alloc, form, &[])?)
}

/// A model of a form under assumptions, and `None` where there is none.
fn model_of(alloc: Global, form: &Form, assume: &[Lit]) -> Result<Option<Vec<bool>>, Fail> {
    let mut solver = solver_of(alloc, form)?;
    let vars = solver.model().len();
    if vars > 100_000 || !is_within(assume, vars as u32) || !has_distinct_variables(assume) {
        return Err(Fail::new("no such assumptions"));
    }
    if solver.log().len() > 100_000 {
        return Err(Fail::new("a long log"));
    }
    let mut budget = Budget::new(100_000);
    match solver.solve(assume, &mut budget)? {
        Verdict::Model => Ok(Some(solver.model().to_vec(alloc)?)),
        Verdict::Closed { .. } => Ok(None),
        Verdict::Spent => Err(Fail::new("the budget is spent")),
    }
}

/// Whether members are numbers of suspects.
fn are_members(members: &[u32], suspects: usize) -> bool
    ensures { IsTrue result → All (λ m. (1 ≤ m) × (m ≤ suspects)) members.now }
{
    members.iter().all(|m| 1 <= *m && *m as usize <= suspects)
}

/// The values that the form has for some members, and `None` where it has none.
pub(super) fn values_by_form(
    alloc: Global,
    clauses: &Clauses,
    asked: &Asked,
    members: &[u32],
) -> Result<Option<Values>, Fail> {
    let assume = assumptions(alloc, asked.groups.len(), clauses.most, members)?;
    let Some(model) = model_of(alloc, &clauses.form, &assume)? else {
        return Ok(None);
    };
    let unrolled = &clauses.unrolled;
    if !has_one_column_each(unrolled) || !are_places(unrolled, &asked.groups) {
        return Err(Fail::new("no places of the circuit"));
    }
    if !are_members(members, asked.groups.len()) {
        return Err(Fail::new("no members"));
    }
    Ok(Some(values(alloc, &model, unrolled, &asked.groups, members)?))
}
