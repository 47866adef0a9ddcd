//! Forms of which only some clauses are made.

use crate::build::{is_clause, suspects};
use crate::forms::{four_cycles, or_not};
use clause_base::Form;
use clause_form::FormPlan;
use loc_base::Items;
use std::alloc::Global;
use std::process::Abort;
use std::test::Fail;
use unroller::{are_traces, unroll};

/// The form of two suspects in four cycles, by the marks of its first clauses.
fn marked(rt: &impl Abort, alloc: Global, marks: &[bool]) -> Result<Form, Fail> {
    let circuit = or_not(rt, alloc)?;
    let traces = vec![in alloc; four_cycles(rt, alloc)?]?;
    let groups = suspects(rt, alloc, &[0, 1])?;
    assert!(rt; are_traces(&circuit, &traces));
    let unrolled = match unroll(alloc, &circuit, &traces, &groups, 2) {
        Ok(unrolled) => unrolled,
        Err(e) => panic!(rt; "{e:?}"),
    };
    let plan = match FormPlan::new(alloc, unrolled, &groups, 2) {
        Ok(plan) => plan,
        Err(e) => panic!(rt; "{e:?}"),
    };
    assert!(rt; plan.most_clauses() >= 20);
    Ok(plan.named(alloc, Items::copy_of(alloc, marks)?)?)
}

/// Whether the first clauses are these.
fn begins_with(form: &Form, want: &[&[i32]]) -> bool {
    for place in 0..want.len() {
        if !is_clause(&form.clauses, place, want[place]) {
            return false;
        }
    }
    true
}

#[test]
fn clauses_without_a_mark_are_made(rt: HostRuntime) -> Result<(), Fail> {
    let form = marked(&rt, rt.alloc(), &[])?;
    assert_eq!(rt; form.vars, 13);
    assert_eq!(rt; form.clauses.len(), 20);
    assert!(rt;
        begins_with(
            &form,
            &[&[-1, 3], &[-3, 4], &[-2, 4], &[-2, -3, 5], &[-6, 1]]
        )
    );
    Ok(())
}

/// Of the counter the third is made, of cycle 0 the second and, having no mark, the last; those of the other cycles have none.
#[test]
fn clauses_whose_mark_is_false_are_empty(rt: HostRuntime) -> Result<(), Fail> {
    let marks = [false, false, true, false, false, true, false];
    let form = marked(&rt, rt.alloc(), &marks)?;
    assert_eq!(rt; form.vars, 13);
    assert_eq!(rt; form.clauses.len(), 20);
    let want: [&[i32]; 9] = [
        &[],
        &[],
        &[-2, 4],
        &[],
        &[],
        &[-7, -6, 2],
        &[],
        &[7],
        &[8, 1],
    ];
    assert!(rt; begins_with(&form, &want));
    Ok(())
}
