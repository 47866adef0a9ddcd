//! Forms whose sets are known.

use super::problem::{End, Limits, Shape, are_sets, enumerator_of, list_sets, problem_of};
use crate::clauses::clauses_of;
use loc_base::NoMemory;
use std::alloc::Global;
use std::process::Abort;
use std::test::Fail;

/// A form, its clauses behind the counter's, and all its sets in order.
#[derive(Clone, Copy)]
struct Row<'a> {
    shape: Shape,
    rest: &'a [&'a [i8]],
    sets: &'a [&'a [u32]],
}

/// Whether the sets are those of the row, and no further one is found.
fn goes(rt: &impl Abort, alloc: Global, row: &Row<'_>) -> Result<bool, NoMemory> {
    let rest = clauses_of(rt, alloc, row.rest)?;
    let problem = problem_of(rt, alloc, row.shape, &rest)?;
    let mut enumerator = enumerator_of(alloc, &problem)?;
    let limits = Limits {
        units: 1000,
        sets: 20,
    };
    let found = list_sets(rt, alloc, &mut enumerator, limits)?;
    Ok(matches!(found.end, End::Closed) && are_sets(&found.sets, row.sets))
}

/// One of two, over five variables; all sizes to k, where a size is empty and where a set of the smaller size bars those that contain
/// it; sets of one size by their members; more than k are needed; no assignment; nothing is needed; no selectors; k at n.
const ROWS: [Row<'static>; 9] = [
    Row {
        shape: Shape {
            vars: 5,
            n: 2,
            k: 1,
        },
        rest: &[&[1, 2]],
        sets: &[&[1], &[2]],
    },
    Row {
        shape: Shape {
            vars: 9,
            n: 3,
            k: 2,
        },
        rest: &[&[1, 2], &[2, 3]],
        sets: &[&[2], &[1, 3]],
    },
    Row {
        shape: Shape {
            vars: 16,
            n: 4,
            k: 3,
        },
        rest: &[&[1, 2], &[3, 4], &[-1, -2, 16], &[-16, -3]],
        sets: &[&[1, 3], &[1, 4], &[2, 3], &[2, 4]],
    },
    Row {
        shape: Shape {
            vars: 16,
            n: 4,
            k: 3,
        },
        rest: &[&[1, 2], &[-1, 3], &[-2, 4], &[-2, 3]],
        sets: &[&[1, 3], &[2, 3, 4]],
    },
    Row {
        shape: Shape {
            vars: 9,
            n: 3,
            k: 1,
        },
        rest: &[&[1], &[3]],
        sets: &[],
    },
    Row {
        shape: Shape {
            vars: 3,
            n: 1,
            k: 0,
        },
        rest: &[&[3], &[-3]],
        sets: &[],
    },
    Row {
        shape: Shape {
            vars: 5,
            n: 2,
            k: 1,
        },
        rest: &[],
        sets: &[&[]],
    },
    Row {
        shape: Shape {
            vars: 1,
            n: 0,
            k: 0,
        },
        rest: &[&[1]],
        sets: &[&[]],
    },
    Row {
        shape: Shape {
            vars: 5,
            n: 2,
            k: 3,
        },
        rest: &[&[1], &[2]],
        sets: &[&[1, 2]],
    },
];

#[test]
fn the_sets_of_each_form_are_those_of_its_row(rt: HostRuntime) -> Result<(), Fail> {
    for row in &ROWS {
        assert!(rt; goes(&rt, rt.alloc(), row)?);
    }
    Ok(())
}
