//! Why a preferred variable is false in a model under an assumption.

ghost use Rattle.std.specs.Prelude.{◌≡◌, IsTrue, IfOk, Some, ◌∷◌, [], false};
ghost use Rattle.clause_base.specs.Literal.{positive};
ghost use Rattle.sat_core.specs.SolverState.{assignment_of};

use super::{form_of, is_step, solve, solver_of};
use clause_base::{Form, Lit, Log, Step, are_within};
use loc_base::NoMemory;
use proof_check::Checker;
use sat_core::{Solver, Verdict};
use std::alloc::Global;
use std::process::Abort;
use std::test::Fail;

/// 1 and 2 exclude each other, 1 implies 4, and 3, 4 and 5 exclude each other.
const CLAUSES: &[&[i8]] = &[&[-1, -2], &[-1, 4], &[-3, -4, -5]];

/// Preferred variables, which of them are false where 5 is assumed, by their places, and what explains each.
#[derive(Clone, Copy)]
struct Explained<'a> {
    preferred: &'a [u32],
    steps: &'a [(usize, &'a [i8])],
}

const EXPLAINED: [Explained<'static>; 3] = [
    Explained {
        preferred: &[1, 2, 3],
        steps: &[(1, &[-2, -1]), (2, &[-3, -1, -5])],
    },
    Explained {
        preferred: &[3, 1, 2],
        steps: &[(1, &[-1, -3, -5])],
    },
    Explained {
        preferred: &[2, 4, 3, 1],
        steps: &[(2, &[-3, -4, -5]), (3, &[-1, -2])],
    },
];

/// A solver of the form, with a model where 5 is true.
fn solved(
    rt: &impl Abort,
    alloc: Global,
    form: &Form,
    preferred: &[u32],
) -> Result<Solver, NoMemory>
    ensures told { IfOk result (λ s. s.told ≡ Some (positive 5 ∷ [])) }
    ensures preferred { IfOk result (λ s. s.preferred ≡ preferred.now) }
{
    let mut solver = solver_of(rt, alloc, form, preferred)?;
    let five = Lit {
        var: 5,
        negated: false,
    };
    let verdict = solve(rt, &mut solver, &[five], 10)?;
    assert!(rt; verdict == Verdict::Model);
    Ok(solver)
}

/// Whether the variable is false in the model.
fn is_false(model: &[bool], var: u32) -> bool
    ensures { IsTrue result → assignment_of model.now var ≡ false }
{
    0 < var && (var as usize) <= model.len() && !model[var as usize - 1]
}

/// The step for the preferred variable at a place.
#[tactic(auto, using(crate::proofs::Explanations::explaining))]
fn explanation(
    rt: &impl Abort,
    solver: &Solver,
    preferred: &[u32],
    place: usize,
) -> Result<Step, NoMemory>
    requires told { solver.now.told ≡ Some (positive 5 ∷ []) }
    requires preferred { solver.now.preferred ≡ preferred.now }
{
    assert!(rt; place < preferred.len());
    let var = preferred[place];
    assert!(rt; var != 5 && is_false(solver.model(), var));
    solver.explain(var)
}

/// The log with one step more.
fn log_with(alloc: Global, log: &Log, step: &Step) -> Result<Log, NoMemory> {
    let mut longer = Log::new(alloc);
    for place in 0..log.len() {
        longer.push(log.kind(place), log.clause(place), log.chain(place))?;
    }
    longer.push(step.kind, step.clause.literals(), step.chain.as_slice())?;
    Ok(longer)
}

/// Whether the log is accepted, and its last step is of these literals.
fn ends_with(
    rt: &impl Abort,
    alloc: Global,
    form: &Form,
    log: &Log,
    numbers: &[i8],
) -> Result<bool, NoMemory> {
    assert!(rt; are_within(&form.clauses, form.vars) && log.len() < 1000);
    let mut checker = Checker::new(alloc, form.vars)?;
    let refused = checker.check_log(form, &[], log);
    Ok(refused.is_none() && is_step(log, log.len() as u32, numbers))
}

/// Whether the step for the preferred variable at a place is accepted after the log, and of the literals that it is to have.
fn is_explained(
    rt: &impl Abort,
    alloc: Global,
    form: &Form,
    solver: &Solver,
    preferred: &[u32],
    place: usize,
    numbers: &[i8],
) -> Result<bool, NoMemory>
    requires told { solver.now.told ≡ Some (positive 5 ∷ []) }
    requires preferred { solver.now.preferred ≡ preferred.now }
{
    let step = explanation(rt, solver, preferred, place)?;
    let log = log_with(alloc, solver.log(), &step)?;
    ends_with(rt, alloc, form, &log, numbers)
}

/// Whether each step of the row is right.
fn are_explained(
    rt: &impl Abort,
    alloc: Global,
    form: &Form,
    solver: &Solver,
    row: &Explained<'_>,
) -> Result<bool, NoMemory>
    requires told { solver.now.told ≡ Some (positive 5 ∷ []) }
    requires preferred { solver.now.preferred ≡ row.now.preferred.now }
{
    for (place, numbers) in row.steps {
        if !is_explained(rt, alloc, form, solver, row.preferred, *place, numbers)? {
            return Ok(false);
        }
    }
    Ok(true)
}

/// Whether each step is accepted after the log, and of the literals that it is to have.
fn explains(rt: &impl Abort, alloc: Global, row: &Explained<'_>) -> Result<bool, NoMemory> {
    let form = form_of(rt, alloc, 5, CLAUSES)?;
    let solver = solved(rt, alloc, &form, row.preferred)?;
    are_explained(rt, alloc, &form, &solver, row)
}

#[test]
fn a_false_preferred_variable_is_explained_by_those_before_it(rt: HostRuntime) -> Result<(), Fail> {
    for (i, row) in EXPLAINED.iter().enumerate() {
        assert!(rt; explains(&rt, rt.alloc(), row)?, "row {i}");
    }
    Ok(())
}
