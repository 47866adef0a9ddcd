//! Forms with known answers.

ghost use Rattle.std.specs.Prelude.{◌≡◌, ◌↔◌, ◌≤◌, ◌<◌, IsTrue, IfOk, length, All, []};
ghost use Rattle.sat_core.specs.Outcome.{told_by};

mod blocks;
mod explained;
mod imports;
mod mixed;

use crate::clauses::{clauses_of, lit, literals};
use clause_base::{Form, Lit, Log, are_within, has_distinct_variables, is_within};
use loc_base::NoMemory;
use sat_core::{Budget, Solver, Verdict};
use std::alloc::Global;
use std::process::Abort;
use std::test::Fail;

/// The form of the clauses of these numbers.
fn form_of(rt: &impl Abort, alloc: Global, vars: u32, rows: &[&[i8]]) -> Result<Form, NoMemory> {
    let clauses = clauses_of(rt, alloc, rows)?;
    Ok(Form { vars, clauses })
}

/// Whether all are variables up to `vars`.
fn are_variables(vars: u32, preferred: &[u32]) -> bool
    ensures { IsTrue result ↔ All (λ v. (1 ≤ v) × (v ≤ vars)) preferred.now }
{
    preferred.iter().all(|v| 1 <= *v && *v <= vars)
}

/// A solver of the form.
fn solver_of(
    rt: &impl Abort,
    alloc: Global,
    form: &Form,
    preferred: &[u32],
) -> Result<Solver, NoMemory>
    ensures few { IfOk result (λ s. length s.form < 1000) }
    ensures form { IfOk result (λ s. s.form ≡ form.now.clauses) }
    ensures vars { IfOk result (λ s. s.vars ≡ form.now.vars) }
    ensures no_step { IfOk result (λ s. s.log ≡ []) }
    ensures preferred { IfOk result (λ s. s.preferred ≡ preferred.now) }
{
    assert!(rt; are_within(&form.clauses, form.vars));
    assert!(rt; form.clauses.len() < 1000 && preferred.len() < 1000);
    assert!(rt; are_variables(form.vars, preferred));
    Solver::new(alloc, form, preferred)
}

/// Solves under assumptions with so many units.
fn solve(
    rt: &impl Abort,
    solver: &mut Solver,
    assume: &[Lit],
    units: u32,
) -> Result<Verdict, NoMemory>
    requires { length solver.old.form < 1000 }
    ensures form { solver.new.form ≡ solver.old.form }
    ensures vars { solver.new.vars ≡ solver.old.vars }
    ensures preferred { solver.new.preferred ≡ solver.old.preferred }
    ensures told { solver.new.told ≡ told_by assume.now result }
{
    let vars = solver.model().len();
    assert!(rt; vars < 1000);
    assert!(rt; is_within(assume, vars as u32) && has_distinct_variables(assume));
    assert!(rt; solver.log().len() < 100000 && units < 100000);
    let mut budget = Budget::new(units);
    solver.solve(assume, &mut budget)
}

/// What a call is to answer: the model of these values, that it is closed by a step of these literals, or that it spent its units.
#[derive(Clone, Copy)]
enum Answer<'a> {
    Model(&'a [bool]),
    Closed(&'a [i8]),
    Spent,
}

/// Whether the step of that number, counted from 1, is of these literals.
fn is_step(log: &Log, step: u32, numbers: &[i8]) -> bool {
    if step < 1 || log.len() < step as usize {
        return false;
    }
    let clause = log.clause(step as usize - 1);
    clause.len() == numbers.len() && numbers.iter().all(|n| clause.contains(&lit(*n)))
}

/// Whether the verdict is the answer.
fn is_answer(solver: &Solver, verdict: Verdict, answer: &Answer<'_>) -> bool {
    match (answer, verdict) {
        (Answer::Model(values), Verdict::Model) => solver.model() == *values,
        (Answer::Closed(numbers), Verdict::Closed { step }) => {
            is_step(solver.log(), step, numbers)
        }
        (Answer::Spent, Verdict::Spent) => true,
        _ => false,
    }
}

/// A call: its assumptions, its units, and what it is to answer.
#[derive(Clone, Copy)]
struct Call<'a> {
    assume: &'a [i8],
    units: u32,
    answer: Answer<'a>,
}

/// Whether the call is answered as it is to be.
fn answers(
    rt: &impl Abort,
    alloc: Global,
    solver: &mut Solver,
    call: &Call<'_>,
) -> Result<bool, NoMemory>
    requires { length solver.old.form < 1000 }
    ensures { solver.new.form ≡ solver.old.form }
{
    let assume = literals(alloc, call.assume)?;
    let verdict = solve(rt, solver, &assume, call.units)?;
    Ok(is_answer(solver, verdict, &call.answer))
}

/// A form, its preferred variables, and calls of one solver.
#[derive(Clone, Copy)]
struct Row<'a> {
    vars: u32,
    clauses: &'a [&'a [i8]],
    preferred: &'a [u32],
    calls: &'a [Call<'a>],
}

/// Whether each call is answered as it is to be.
fn goes(rt: &impl Abort, alloc: Global, row: &Row<'_>) -> Result<bool, NoMemory> {
    let form = form_of(rt, alloc, row.vars, row.clauses)?;
    let mut solver = solver_of(rt, alloc, &form, row.preferred)?;
    for call in row.calls {
        if !answers(rt, alloc, &mut solver, call)? {
            return Ok(false);
        }
    }
    Ok(true)
}

/// All four clauses over two variables; two variables that exclude each other; a chain of implications, whose end is
/// refuted without a unit; assumptions that change from call to call.
const ROWS: [Row<'static>; 4] = [
    Row {
        vars: 2,
        clauses: &[&[1, 2], &[1, -2], &[-1, 2], &[-1, -2]],
        preferred: &[],
        calls: &[Call {
            assume: &[],
            units: 10,
            answer: Answer::Closed(&[]),
        }],
    },
    Row {
        vars: 2,
        clauses: &[&[-1, -2]],
        preferred: &[1, 2],
        calls: &[Call {
            assume: &[],
            units: 10,
            answer: Answer::Model(&[true, false]),
        }],
    },
    Row {
        vars: 6,
        clauses: &[&[1], &[-1, 2], &[-2, 3], &[-3, 4], &[-4, 5], &[-5, 6]],
        preferred: &[],
        calls: &[Call {
            assume: &[-6],
            units: 1,
            answer: Answer::Closed(&[6]),
        }],
    },
    Row {
        vars: 4,
        clauses: &[&[-1, 2], &[-2, -3]],
        preferred: &[3],
        calls: &[
            Call {
                assume: &[4, 1, 3],
                units: 10,
                answer: Answer::Closed(&[-1, -3]),
            },
            Call {
                assume: &[1],
                units: 10,
                answer: Answer::Model(&[true, true, false, true]),
            },
            Call {
                assume: &[-1],
                units: 10,
                answer: Answer::Model(&[false, false, true, true]),
            },
        ],
    },
];

/// Pigeons, each in one of three holes, no two in one hole: pigeon `p` is in hole `h`, both counted from 0, where the
/// variable `3 * p + h + 1` is true.
const PIGEONS: [Row<'static>; 2] = [
    Row {
        vars: 12,
        clauses: &[
            &[1, 2, 3],
            &[4, 5, 6],
            &[7, 8, 9],
            &[10, 11, 12],
            &[-1, -4],
            &[-1, -7],
            &[-1, -10],
            &[-4, -7],
            &[-4, -10],
            &[-7, -10],
            &[-2, -5],
            &[-2, -8],
            &[-2, -11],
            &[-5, -8],
            &[-5, -11],
            &[-8, -11],
            &[-3, -6],
            &[-3, -9],
            &[-3, -12],
            &[-6, -9],
            &[-6, -12],
            &[-9, -12],
        ],
        preferred: &[],
        calls: &[
            Call {
                assume: &[],
                units: 1,
                answer: Answer::Spent,
            },
            Call {
                assume: &[],
                units: 1000,
                answer: Answer::Closed(&[]),
            },
        ],
    },
    Row {
        vars: 9,
        clauses: &[
            &[1, 2, 3],
            &[4, 5, 6],
            &[7, 8, 9],
            &[-1, -4],
            &[-1, -7],
            &[-4, -7],
            &[-2, -5],
            &[-2, -8],
            &[-5, -8],
            &[-3, -6],
            &[-3, -9],
            &[-6, -9],
        ],
        preferred: &[1, 5],
        calls: &[Call {
            assume: &[],
            units: 1000,
            answer: Answer::Model(&[true, false, false, false, true, false, false, false, true]),
        }],
    },
];

#[test]
fn each_call_is_answered_as_its_row_says(rt: HostRuntime) -> Result<(), Fail> {
    for (i, row) in ROWS.iter().enumerate() {
        assert!(rt; goes(&rt, rt.alloc(), row)?, "row {i}");
    }
    for (i, row) in PIGEONS.iter().enumerate() {
        assert!(rt; goes(&rt, rt.alloc(), row)?, "pigeons {i}");
    }
    Ok(())
}
