//! All models of a form, each blocked as it is found.

ghost use Rattle.std.specs.Prelude.{◌≡◌, ◌<◌, length};

use super::{Answer, Call, answers, form_of, solve, solver_of};
use clause_base::{Clause, Lit, has_distinct_variables, is_within};
use loc_base::NoMemory;
use sat_core::{Solver, Verdict};
use std::alloc::Global;
use std::process::Abort;
use std::test::Fail;

/// The literals that are false where the variables have these values.
fn opposites(alloc: Global, values: &[bool]) -> Result<Vec<Lit>, NoMemory> {
    let mut literals = Vec::new(alloc);
    let mut var = 0u32;
    for value in values {
        var = var.wrapping_add(1);
        literals.push(Lit {
            var,
            negated: *value,
        })?;
    }
    Ok(literals)
}

/// Blocks the values of the variables of the last model.
fn block_model(rt: &impl Abort, alloc: Global, solver: &mut Solver) -> Result<(), NoMemory>
    ensures { solver.new.form ≡ solver.old.form }
{
    let literals = opposites(alloc, solver.model())?;
    assert!(rt; has_distinct_variables(&literals));
    let block = Clause::new(alloc, &literals)?;
    let vars = solver.model().len();
    assert!(rt; vars < 1000);
    assert!(rt; is_within(block.literals(), vars as u32));
    solver.add_block(&block)
}

#[test]
fn blocking_each_model_comes_to_all_seven(rt: HostRuntime) -> Result<(), Fail> {
    let form = form_of(&rt, rt.alloc(), 3, &[&[1, 2, 3]])?;
    let mut solver = solver_of(&rt, rt.alloc(), &form, &[1, 2, 3])?;
    for _ in 0..7u32 {
        let verdict = solve(&rt, &mut solver, &[], 1000)?;
        assert!(rt; verdict == Verdict::Model);
        block_model(&rt, rt.alloc(), &mut solver)?;
    }
    let last = Call {
        assume: &[],
        units: 1000,
        answer: Answer::Closed(&[]),
    };
    assert!(rt; answers(&rt, rt.alloc(), &mut solver, &last)?);
    Ok(())
}
