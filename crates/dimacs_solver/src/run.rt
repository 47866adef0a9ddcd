//! Solving a formula, and checking what the solver logged.
ghost use Rattle.std.specs.Prelude.{◌≡◌, ◌<◌, ◌^◌, ◌↔◌, [], length, IfOk};
ghost use Rattle.clause_base.specs.Literal.{AreWithin};
ghost use Rattle.sat_core.specs.SolverState.{IsSolver};
ghost use Rattle.sat_core.specs.Outcome.{Says};
ghost use Rattle.dimacs_solver.specs.Answer.{ChecksAs};

use crate::model::satisfies;
use crate::report::Report;
use clause_base::{Form, Log};
use loc_base::NoMemory;
use proof_check::Checker;
use sat_core::{Budget, Solver, Verdict};
use std::alloc::Global;

/// A solver that has answered, and the units that it left.
#[derive(Drop)]
pub struct Solved {
    pub solver: Solver,
    pub verdict: Verdict,
    pub left: u32,
}

/// What the check of a log comes to.
#[derive(Clone, Copy, Debug, PartialEq, Eq)]
pub enum Checked {
    /// Each step is accepted.
    Accepted,
    /// The least step that isn't accepted has this number, counted from 1.
    Refused { step: u32 },
    /// The log has more steps than the checker numbers.
    TooLong,
}

/// Searches for a model of the form with so many units, under no assumptions and with no preferred variables.
pub fn solve(alloc: Global, form: &Form, units: u32) -> Result<Solved, NoMemory>
    requires within { AreWithin form.now.vars form.now.clauses }
    requires few { length form.now.clauses < 2 ^ 31 }
    requires units { units < 2 ^ 31 }
    ensures solver { IfOk result (λ solved. IsSolver solved.solver) }
    ensures form { IfOk result (λ solved. solved.solver.form ≡ form.now.clauses) }
    ensures says { IfOk result (λ solved. Says solved.solver [] solved.left solved.verdict) }
{
    let mut solver = Solver::new(alloc, form, &[])?;
    let mut budget = Budget::new(units);
    let verdict = solver.solve(&[], &mut budget)?;
    Ok(Solved {
        solver,
        verdict,
        left: budget.left(),
    })
}

/// Checks a log that has no blocks. Of the log nothing is known.
pub fn check(alloc: Global, form: &Form, log: &Log) -> Result<Checked, NoMemory>
    requires within { AreWithin form.now.vars form.now.clauses }
    ensures { IfOk result (λ checked. ChecksAs form.now.clauses log.now checked) }
{
    if log.len() as u64 >= u64::from(u32::MAX) {
        return Ok(Checked::TooLong);
    }
    let mut checker = Checker::new(alloc, form.vars)?;
    match checker.check_log(form, &[], log) {
        None => Ok(Checked::Accepted),
        Some(bad) => Ok(Checked::Refused { step: bad.n }),
    }
}

/// How many numbers the chains of a log have.
fn chain_numbers(log: &Log) -> u64 {
    let mut total = 0u64;
    for place in 0..log.len() {
        total = total.saturating_add(log.chain(place).len() as u64);
    }
    total
}

/// What there is to tell of a formula that was solved with so many units.
pub fn report_on(form: &Form, solved: &Solved, units: u32, checked: Checked) -> Report
    ensures verdict { result.verdict ≡ solved.now.verdict }
    ensures steps { result.steps ≡ length solved.now.solver.log }
    ensures checked { result.checked ≡ checked }
{
    let log = solved.solver.log();
    Report {
        verdict: solved.verdict,
        conflicts: units.saturating_sub(solved.left),
        steps: log.len(),
        chain_numbers: chain_numbers(log),
        checked,
        satisfied: satisfies(solved.solver.model(), &form.clauses),
    }
}
