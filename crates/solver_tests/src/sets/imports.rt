//! A search that takes over where another one stopped.

ghost use Rattle.std.specs.Prelude.{◌≡◌, ◌<◌, IfOk, length};
ghost use Rattle.solver_tests.specs.Problems.{IsProblem};

use super::problem::{End, Limits, Problem, Shape, are_sets, enumerator_of, list_sets, problem_of};
use crate::clauses::clauses_of;
use loc_base::NoMemory;
use set_enum::Enumerator;
use std::alloc::Global;
use std::test::Fail;

/// An enumerator of the form with the steps of another one of it.
fn taking_over(alloc: Global, problem: &Problem, from: &Enumerator) -> Result<Enumerator, NoMemory>
    requires problem { IsProblem problem.now.form.vars problem.now.form.clauses problem.now.n problem.now.k }
    requires vars { from.now.vars ≡ problem.now.form.vars }
    requires form { from.now.form ≡ problem.now.form.clauses }
    requires n { from.now.n ≡ problem.now.n }
    requires k { from.now.k ≡ problem.now.k }
    ensures { IfOk result (λ e. length e.form < 1000) }
{
    let mut enumerator = enumerator_of(alloc, problem)?;
    enumerator.import(from.log())?;
    Ok(enumerator)
}

#[test]
fn sets_that_were_listed_are_not_listed_again(rt: HostRuntime) -> Result<(), Fail> {
    let rest = clauses_of(&rt, rt.alloc(), &[&[1, 2, 3], &[1, 3, 4]])?;
    let shape = Shape {
        vars: 13,
        n: 4,
        k: 2,
    };
    let problem = problem_of(&rt, rt.alloc(), shape, &rest)?;
    let mut first = enumerator_of(rt.alloc(), &problem)?;
    let mut limits = Limits {
        units: 1000,
        sets: 2,
    };
    let found = list_sets(&rt, rt.alloc(), &mut first, limits)?;
    assert!(rt; matches!(found.end, End::Enough) && are_sets(&found.sets, &[&[1], &[3]]));
    let mut second = taking_over(rt.alloc(), &problem, &first)?;
    limits.sets = 9;
    let found = list_sets(&rt, rt.alloc(), &mut second, limits)?;
    assert!(rt; matches!(found.end, End::Closed) && are_sets(&found.sets, &[&[2, 4]]));
    Ok(())
}
