//! Searches that are cut off and go on.

ghost use Rattle.std.specs.Prelude.{◌<◌, length};

use super::problem::{End, Limits, Shape, are_sets, enumerator_of, list_sets, problem_of};
use crate::clauses::clauses_of;
use sat_core::Budget;
use set_enum::{Enumerator, Next};
use std::process::Abort;
use std::test::Fail;

/// Three pigeons in two holes, unless the one selector is true. The counter's only variable is 2; pigeon `p` is in hole `h`, both
/// counted from 0, where the variable `2 * p + h + 3` is true.
const PIGEONS: [&[i8]; 9] = [
    &[1, 3, 4],
    &[1, 5, 6],
    &[1, 7, 8],
    &[1, -3, -5],
    &[1, -3, -7],
    &[1, -5, -7],
    &[1, -4, -6],
    &[1, -4, -8],
    &[1, -6, -8],
];

const SHAPE: Shape = Shape {
    vars: 8,
    n: 1,
    k: 1,
};

/// Whether the next answer, with no unit left, is that all sizes are closed, and no step is added.
fn stays_closed(rt: &impl Abort, enumerator: &mut Enumerator) -> Result<bool, Fail>
    requires { length enumerator.old.form < 1000 }
{
    let steps = enumerator.log().len();
    assert!(rt; steps < 100000);
    let answer = enumerator.next(&mut Budget::new(0))?;
    Ok(matches!(&answer, Next::Closed) && enumerator.log().len() == steps)
}

#[test]
fn a_search_that_is_cut_off_goes_on(rt: HostRuntime) -> Result<(), Fail> {
    let rest = clauses_of(&rt, rt.alloc(), &PIGEONS)?;
    let problem = problem_of(&rt, rt.alloc(), SHAPE, &rest)?;
    let mut enumerator = enumerator_of(rt.alloc(), &problem)?;
    let mut limits = Limits { units: 0, sets: 9 };
    let found = list_sets(&rt, rt.alloc(), &mut enumerator, limits)?;
    assert!(rt; matches!(found.end, End::Spent) && found.sets.is_empty());
    assert!(rt; enumerator.log().is_empty());
    limits.units = 1;
    let found = list_sets(&rt, rt.alloc(), &mut enumerator, limits)?;
    assert!(rt; matches!(found.end, End::Spent) && found.sets.is_empty());
    assert!(rt; enumerator.log().len() == 1);
    limits.units = 100;
    let found = list_sets(&rt, rt.alloc(), &mut enumerator, limits)?;
    assert!(rt; matches!(found.end, End::Closed) && are_sets(&found.sets, &[&[1]]));
    assert!(rt; stays_closed(&rt, &mut enumerator)?);
    Ok(())
}
