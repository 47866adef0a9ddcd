//! Clauses from numbers, and a fixed sequence of numbers.

use clause_base::{Clauses, Lit, has_distinct_variables};
use loc_base::NoMemory;
use std::alloc::Global;
use std::process::Abort;

/// The literal of a number's size, negated where the number is negative.
pub fn lit(n: i8) -> Lit {
    Lit {
        var: u32::from(n.unsigned_abs()),
        negated: n < 0,
    }
}

/// The literals of these numbers.
pub fn literals(alloc: Global, numbers: &[i8]) -> Result<Vec<Lit>, NoMemory> {
    let mut literals = Vec::new(alloc);
    for n in numbers {
        literals.push(lit(*n))?;
    }
    Ok(literals)
}

/// The clauses of these numbers.
pub fn clauses_of(rt: &impl Abort, alloc: Global, rows: &[&[i8]]) -> Result<Clauses, NoMemory> {
    let mut clauses = Clauses::new(alloc);
    for numbers in rows {
        let clause = literals(alloc, numbers)?;
        assert!(rt; has_distinct_variables(&clause));
        clauses.push(&clause)?;
    }
    Ok(clauses)
}

/// The number after this one in a fixed sequence (Park and Miller 1988).
pub fn following(number: u64) -> u64 {
    number % 2147483647 * 48271 % 2147483647
}
