//! A solver that takes over the log of another one.

ghost use Rattle.std.specs.Prelude.{◌≡◌, ◌<◌, OnOk, IfOk, length, []};

use super::{Call, PIGEONS, Row, answers, form_of, solve, solver_of};
use clause_base::Form;
use loc_base::NoMemory;
use sat_core::Solver;
use std::alloc::Global;
use std::process::Abort;
use std::test::Fail;

/// Gives a new solver the log of another one of the same form.
fn take_over(solver: &mut Solver, other: &Solver) -> Result<(), NoMemory>
    requires form { solver.old.form ≡ other.now.form }
    requires vars { solver.old.vars ≡ other.now.vars }
    requires no_step { solver.old.log ≡ [] }
    ensures form { OnOk result (solver.new.form ≡ solver.old.form) }
{
    solver.import(other.log())
}

/// A new solver with the log of another one of the form.
fn successor(
    rt: &impl Abort,
    alloc: Global,
    form: &Form,
    row: &Row<'_>,
    other: &Solver,
) -> Result<Solver, NoMemory>
    requires form { other.now.form ≡ form.now.clauses }
    requires vars { other.now.vars ≡ form.now.vars }
    ensures { IfOk result (λ s. length s.form < 1000) }
{
    let mut solver = solver_of(rt, alloc, form, row.preferred)?;
    take_over(&mut solver, other)?;
    assert!(rt; solver.log().len() == other.log().len());
    Ok(solver)
}

/// Whether a solver that stopped after so many units, and a new one with its log, both answer the row's last call.
fn both_answer(
    rt: &impl Abort,
    alloc: Global,
    row: &Row<'_>,
    units: u32,
) -> Result<bool, NoMemory> {
    let form = form_of(rt, alloc, row.vars, row.clauses)?;
    let mut first = solver_of(rt, alloc, &form, row.preferred)?;
    solve(rt, &mut first, &[], units)?;
    let mut second = successor(rt, alloc, &form, row, &first)?;
    assert!(rt; !row.calls.is_empty());
    let last = &row.calls[row.calls.len() - 1];
    answer_alike(rt, alloc, &mut first, &mut second, last)
}

/// Whether both answer the call as it is to be.
fn answer_alike(
    rt: &impl Abort,
    alloc: Global,
    first: &mut Solver,
    second: &mut Solver,
    call: &Call<'_>,
) -> Result<bool, NoMemory>
    requires first { length first.old.form < 1000 }
    requires second { length second.old.form < 1000 }
{
    if !answers(rt, alloc, first, call)? {
        return Ok(false);
    }
    answers(rt, alloc, second, call)
}

#[test]
fn a_solver_with_the_log_of_another_answers_the_same(rt: HostRuntime) -> Result<(), Fail> {
    for (i, row) in PIGEONS.iter().enumerate() {
        for units in 1..4 {
            assert!(rt;
                both_answer(&rt, rt.alloc(), row, units)?,
                "row {i} after {units}"
            );
        }
    }
    Ok(())
}
