//! Clauses, decisions and ways back from a fixed sequence of numbers, by the trail and by rounds over all clauses.

ghost use Rattle.std.specs.Prelude.{◌≡◌, ◌<◌, length, IfOk};

use super::{add, decide, go_back, plain};
use crate::clauses::following;
use clause_base::{Lit, has_distinct_variables};
use loc_base::NoMemory;
use std::alloc::Global;
use std::process::Abort;
use std::test::Fail;
use trail_core::Trail;

/// How many variables there are.
const VARS: u32 = 8;

/// The literal that a number gives.
fn literal(number: u64) -> Lit {
    Lit {
        var: (number % u64::from(VARS)) as u32 + 1,
        negated: number / 8 % 2 == 1,
    }
}

/// Up to three literals, by a number.
fn clause_of(alloc: Global, start: u64) -> Result<Vec<Lit>, NoMemory> {
    let mut number = start;
    let mut clause = Vec::new(alloc);
    for _ in 0..start % 3 + 1 {
        number = following(number);
        clause.push(literal(number))?;
    }
    Ok(clause)
}

/// Clauses of distinct variables, from the sequence that begins with this number.
fn clauses_of(alloc: Global, start: u64) -> Result<Vec<Vec<Lit>>, NoMemory> {
    let mut number = start;
    let mut clauses = Vec::new(alloc);
    for _ in 0..16 {
        number = following(number);
        let clause = clause_of(alloc, number)?;
        if has_distinct_variables(&clause) {
            clauses.push(clause)?;
        }
    }
    Ok(clauses)
}

/// A trail with these clauses.
fn trail_of(rt: &impl Abort, alloc: Global, clauses: &[Vec<Lit>]) -> Result<Trail, NoMemory> {
    assert!(rt; clauses.len() < 100);
    let mut trail = Trail::new(alloc, VARS)?;
    for clause in clauses {
        add(rt, &mut trail, clause)?;
    }
    Ok(trail)
}

/// Whether the trail gives each variable its value.
fn has_values(trail: &Trail, values: &[Option<bool>]) -> bool {
    for var in 1..=trail.vars() {
        if values.get(var as usize - 1) != Some(&trail.value(var)) {
            return false;
        }
    }
    true
}

/// The values of the trail's decisions alone.
fn decided(rt: &impl Abort, alloc: Global, trail: &Trail) -> Result<Vec<Option<bool>>, NoMemory> {
    let mut values = vec![in alloc; None; VARS as usize]?;
    for place in 0..trail.len() {
        if let Some(l) = trail.at(place) {
            assert!(rt; 1 <= l.var && l.var <= trail.vars());
            if trail.reason(l.var).is_none() {
                plain::set(&mut values, l);
            }
        }
    }
    Ok(values)
}

/// Whether rounds over all clauses come to the same from the trail's decisions: a false clause, or the same values.
fn is_same(
    rt: &impl Abort,
    alloc: Global,
    trail: &mut Trail,
    clauses: &[Vec<Lit>],
) -> Result<bool, NoMemory> {
    let mut values = decided(rt, alloc, trail)?;
    let rests = plain::propagate(&mut values, clauses);
    Ok(match trail.propagate() {
        None => rests && has_values(trail, &values),
        Some(_) => !rests,
    })
}

/// Goes back by a level where a clause is false, and now and then by half the levels; else decides the literal.
fn go_on(rt: &impl Abort, trail: &mut Trail, number: u64) {
    let level = trail.level();
    if trail.propagate().is_some() {
        go_back(rt, trail, level.saturating_sub(1));
    } else if number % 5 == 0 {
        go_back(rt, trail, level / 2);
    } else {
        decide(rt, trail, literal(number));
    }
}

/// Whether the two come to the same after each of some decisions and ways back.
fn agrees(rt: &impl Abort, alloc: Global, start: u64) -> Result<bool, NoMemory> {
    let clauses = clauses_of(alloc, start)?;
    let mut trail = trail_of(rt, alloc, &clauses)?;
    let mut number = start;
    for _ in 0..4 * VARS {
        if !is_same(rt, alloc, &mut trail, &clauses)? {
            return Ok(false);
        }
        number = following(number);
        go_on(rt, &mut trail, number);
    }
    Ok(true)
}

#[test]
fn both_propagations_come_to_the_same_values(rt: HostRuntime) -> Result<(), Fail> {
    for start in 1..40 {
        assert!(rt; agrees(&rt, rt.alloc(), start)?, "{start}");
    }
    Ok(())
}
