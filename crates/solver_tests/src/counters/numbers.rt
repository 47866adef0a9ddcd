//! Clauses and bounds as numbers.

use crate::counters::made::made;
use card_counter::{bound, counters};
use clause_base::Lit;
use loc_base::Bytes;
use std::alloc::Global;
use std::test::Fail;

/// Appends a literal, whose variable is below 100 here.
fn show(text: &mut Bytes, literal: Lit) -> Result<(), Fail> {
    text.append(if literal.negated { b"-" } else { b"+" })?;
    text.push(b'0' + (literal.var / 10 % 10) as u8)?;
    text.push(b'0' + (literal.var % 10) as u8)?;
    Ok(())
}

/// Whether these are the clauses that count so many variables.
fn are_clauses(alloc: Global, count: u32, k: u32, wanted: &str) -> Result<bool, Fail> {
    let clauses = made(alloc, count, k)?;
    let mut text = Bytes::new(alloc);
    for place in 0..clauses.len() {
        for literal in clauses.clause(place) {
            show(&mut text, *literal)?;
        }
        text.append(b" ")?;
    }
    Ok(text.as_slice() == wanted.as_bytes())
}

#[test]
fn the_clauses_stand_by_row_and_number(rt: HostRuntime) -> Result<(), Fail> {
    let alloc = rt.alloc();
    assert!(rt; are_clauses(alloc, 0, 2, "")?);
    assert!(rt; are_clauses(alloc, 1, 2, "-01+02 ")?);
    assert!(rt; are_clauses(alloc, 2, 2, "-01+03 -03+04 -02+04 -02-03+05 ")?);
    assert!(rt; are_clauses(alloc, 2, 0, "-01+03 -03+04 -02+04 ")?);
    assert!(rt;
        are_clauses(
            alloc,
            3,
            1,
            "-01+04 -04+05 -02+05 -02-04+06 -05+07 -03+07 -06+08 -03-05+08 "
        )?
    );
    Ok(())
}

/// Whether the bound is of this variable, and is there at all, and `0` stands for none.
fn is_bound(n: u32, k: u32, j: u32, first: u32, variable: u32) -> bool {
    if j > k || n > 5000 || first > 5000 || counters(n, k) > 1_000_000 {
        return false;
    }
    match bound(n, k, j, first) {
        Some(literal) => literal.var == variable && !literal.negated,
        None => variable == 0,
    }
}

#[test]
fn the_bound_is_the_last_row_s_counter(rt: HostRuntime) -> Result<(), Fail> {
    for (n, k, j, first, variable) in [
        (2, 2, 2, 3, 0),
        (2, 2, 1, 3, 5),
        (2, 2, 0, 3, 4),
        (3, 1, 1, 4, 8),
        (3, 1, 0, 4, 7),
        (0, 8, 0, 1, 0),
        (1, 0, 0, 2, 2),
        (4096, 8, 8, 4097, 40_924),
    ] {
        assert!(rt; is_bound(n, k, j, first, variable));
    }
    Ok(())
}

#[test]
fn a_large_counter_is_linear(rt: HostRuntime) -> Result<(), Fail> {
    let clauses = made(rt.alloc(), 4096, 8)?;
    assert_eq!(rt; counters(4096, 8), 36_828);
    assert_eq!(rt; clauses.len(), 73_647);
    Ok(())
}
