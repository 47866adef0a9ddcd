//! All assignments of small counters.

use crate::counters::made::made;
use card_counter::{bound, counters};
use clause_base::{Clauses, Lit};
use std::alloc::Global;
use std::test::Fail;

/// The value of a literal, the variable's being a bit of a number.
fn value(bits: u32, literal: Lit) -> bool {
    let bit = if literal.var < 32 {
        bits >> literal.var & 1
    } else {
        0
    };
    literal.negated != (bit == 1)
}

fn satisfies(bits: u32, clauses: &Clauses) -> bool {
    for place in 0..clauses.len() {
        if !clauses
            .clause(place)
            .iter()
            .any(|literal| value(bits, *literal))
        {
            return false;
        }
    }
    true
}

/// For each choice of the selectors, whether some assignment of the counters satisfies clauses and bound.
fn can_be_met(
    alloc: Global,
    clauses: &Clauses,
    selectors: u32,
    variables: u32,
    bound: Lit,
) -> Result<Vec<bool>, Fail> {
    if selectors > 4 || variables > 12 {
        return Err(Fail::new("too many variables for a test"));
    }
    let choices = 1u32 << selectors;
    if choices == 0 {
        return Err(Fail::new("no choices"));
    }
    let mut met = Vec::new(alloc);
    for _ in 0..choices {
        met.push(false)?;
    }
    for bits in 0..1u32 << variables {
        if satisfies(bits << 1, clauses) && !value(bits << 1, bound) {
            let choice = (bits % choices) as usize;
            if choice < met.len() {
                met[choice] = true;
            }
        }
    }
    Ok(met)
}

/// Whether, for each bound, it can be met exactly where so few selectors are true.
fn counts(alloc: Global, n: u32, k: u32) -> Result<bool, Fail> {
    let variables = counters(n, k);
    if n == 0 || n > 4 || k > 8 || variables > 8 {
        return Err(Fail::new("too many variables for a test"));
    }
    let clauses = made(alloc, n, k)?;
    for j in 0..k + 1 {
        if let Some(literal) = bound(n, k, j, n + 1) {
            let met = can_be_met(alloc, &clauses, n, n + variables as u32, literal)?;
            for choice in 0..met.len() {
                if met[choice] != ((choice as u64).count_ones() <= j) {
                    return Ok(false);
                }
            }
        }
    }
    Ok(true)
}

#[test]
fn a_bound_can_be_met_exactly_where_few_are_true(rt: HostRuntime) -> Result<(), Fail> {
    let alloc = rt.alloc();
    for (n, k) in [
        (1, 0),
        (1, 3),
        (2, 0),
        (2, 1),
        (2, 4),
        (3, 0),
        (3, 1),
        (3, 2),
        (4, 0),
        (4, 1),
    ] {
        assert!(rt; counts(alloc, n, k)?);
    }
    Ok(())
}
