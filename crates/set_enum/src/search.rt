//! One search at one size, and which size comes next.

ghost use Rattle.std.specs.Prelude.{◌≡◌, ◌+◌, ◌-◌, ◌^◌, ◌<◌, ◌≤◌, length, option_to_list, IfOk};
ghost use Rattle.card_counter.specs.Places.{starts};
ghost use Rattle.clause_base.specs.Literal.{IsWithin};
ghost use Rattle.clause_base.specs.Steps.{step_at};
ghost use Rattle.sat_core.specs.SolverState.{IsSolver};
ghost use Rattle.sat_core.specs.Outcome.{Searches, LearnedBeforeLast, Says, closings, told_by};
ghost use Rattle.set_enum.specs.Standing.{assumed, next_size};

use card_counter::bound;
use clause_base::{Lit, Log};
use loc_base::NoMemory;
use sat_core::{Budget, Solver, Verdict};

/// What is assumed at size j: that at most j of the selectors are true. `None` where there are no more than j.
pub(crate) fn assumption(n: u32, k: u32, j: u32) -> Option<Lit>
    requires size { j ≤ k }
    requires small { n + 1 < 2 ^ 32 }
    requires variables_fit { n + 1 + starts k (n + 1) ≤ 2 ^ 32 }
    ensures { option_to_list result ≡ assumed n k j }
{
    match bound(n, k, j, n + 1) {
        Some(bound) => Some(bound.opposite()),
        None => None,
    }
}

/// Searches under one assumption, or none.
pub(crate) fn solve_under(
    solver: &mut Solver,
    assumption: Option<Lit>,
    budget: &mut Budget,
) -> Result<Verdict, NoMemory>
    requires within { IsWithin solver.old.vars (option_to_list assumption) }
    requires clauses_fit { length solver.old.form + length solver.old.log + budget.old + 1 < 2 ^ 32 }
    ensures searches { Searches solver.old solver.new budget.old budget.new (closings result) }
    ensures solver { IsSolver solver.new }
    ensures says { IfOk result (Says solver.new (option_to_list assumption) budget.new) }
    ensures learned { LearnedBeforeLast solver.old.log solver.new.log }
    ensures told { solver.new.told ≡ told_by (option_to_list assumption) result }
{
    match assumption {
        Some(literal) => solver.solve(&[literal], budget),
        None => solver.solve(&[], budget),
    }
}

/// The size that is searched after one whose last search derived a clause: all are closed where the clause is empty.
pub(crate) fn size_after(log: &Log, k: u32, size: u32) -> u32
    requires some { 0 < length log.now }
    requires fits { size + k + 1 < 2 ^ 32 }
    ensures { result ≡ next_size k size (step_at log.now (length log.now - 1)).clause }
{
    if log.clause(log.len() - 1).is_empty() {
        k + 1
    } else {
        size + 1
    }
}
