//! Forms of clauses from a fixed sequence of numbers, against a search over all sets and values.

ghost use Rattle.std.specs.Prelude.{◌<◌, ◌≤◌};

use super::problem::{End, Limits, Shape, enumerator_of, list_sets, problem_of};
use crate::clauses::following;
use clause_base::{Clauses, Lit, has_distinct_variables};
use loc_base::NoMemory;
use set_enum::Members;
use std::alloc::Global;
use std::process::Abort;
use std::test::Fail;

/// Four selectors, the nine variables of their counter, and two more.
const SHAPE: Shape = Shape {
    vars: 15,
    n: 4,
    k: 2,
};

/// The bit that stands for a variable: the first selector is the highest of four, and the two variables behind the counter stand
/// above these.
fn bit_of(var: u32) -> u32 {
    match var {
        1 => 8,
        2 => 4,
        3 => 2,
        4 => 1,
        14 => 16,
        15 => 32,
        _ => 0,
    }
}

/// Whether each clause has a true literal where the variables of these bits are true.
fn satisfies(clauses: &Clauses, bits: u32) -> bool {
    for place in 0..clauses.len() {
        if !clauses
            .clause(place)
            .iter()
            .any(|l| (bits & bit_of(l.var) != 0) != l.negated)
        {
            return false;
        }
    }
    true
}

/// Whether some values of the other variables satisfy the clauses, with exactly these selectors true.
fn is_satisfied_by(clauses: &Clauses, set: u32) -> bool {
    [0, 16, 32, 48]
        .iter()
        .any(|others| satisfies(clauses, set | others))
}

/// The sets of at most two selectors, as bits, by size and then by members, that satisfy the clauses and contain none before them.
fn all_sets(alloc: Global, clauses: &Clauses) -> Result<Vec<u32>, NoMemory> {
    let mut sets = Vec::new(alloc);
    for size in 0..3u32 {
        for below in 0..16u32 {
            let set = 15 - below;
            if set.count_ones() == size
                && sets.iter().all(|listed: &u32| listed & set != *listed)
                && is_satisfied_by(clauses, set)
            {
                sets.push(set)?;
            }
        }
    }
    Ok(sets)
}

/// The bits of a set.
fn bits_of(members: &[u32]) -> u32 {
    let mut bits = 0;
    for member in members {
        bits |= bit_of(*member);
    }
    bits
}

/// Up to `most` clauses of three literals of the selectors and of the two variables behind the counter.
fn mixed(alloc: Global, most: u32, start: u64) -> Result<Clauses, NoMemory> {
    let vars = [1, 2, 3, 4, 14, 15];
    let mut clauses = Clauses::new(alloc);
    let mut number = start;
    for _ in 0..most {
        let mut clause = Vec::new(alloc);
        for _ in 0..3 {
            number = following(number);
            clause.push(Lit {
                var: vars[(number / 16 % 6) as usize],
                negated: number / 8 % 3 == 1,
            })?;
        }
        if has_distinct_variables(&clause) {
            clauses.push(&clause)?;
        }
    }
    Ok(clauses)
}

/// Whether the sets are those of these bits.
fn are_of(sets: &[Members], bits: &[u32]) -> bool {
    sets.len() == bits.len()
        && sets
            .iter()
            .zip(bits)
            .all(|(set, bits)| bits_of(set) == *bits)
}

/// Whether the enumerator lists what a search over all sets finds.
fn agrees(rt: &impl Abort, alloc: Global, start: u64) -> Result<bool, NoMemory> {
    let rest = mixed(alloc, 9, start)?;
    let problem = problem_of(rt, alloc, SHAPE, &rest)?;
    let mut enumerator = enumerator_of(alloc, &problem)?;
    let limits = Limits {
        units: 1000,
        sets: 20,
    };
    let found = list_sets(rt, alloc, &mut enumerator, limits)?;
    let expected = all_sets(alloc, &rest)?;
    Ok(matches!(found.end, End::Closed) && are_of(&found.sets, &expected))
}

#[test]
fn the_sets_are_those_that_a_search_over_all_finds(rt: HostRuntime) -> Result<(), Fail> {
    for start in 1..60 {
        assert!(rt; agrees(&rt, rt.alloc(), start)?);
    }
    Ok(())
}
