//! A checker that searches through lists, to compare with.

use clause_base::{Clause, Clauses, Lit, Log, StepKind};
use loc_base::NoMemory;
use std::alloc::Global;

fn has(literals: &[Lit], literal: Lit) -> bool {
    literals.iter().any(|l| *l == literal)
}

/// How many literals of the clause stand negated in the set, and the last such variable.
fn clashes(set: &[Lit], clause: &[Lit]) -> (usize, u32) {
    let mut count = 0usize;
    let mut var = 0;
    for literal in clause {
        if has(set, literal.opposite()) {
            count = count.wrapping_add(1);
            var = literal.var;
        }
    }
    (count, var)
}

/// The resolvent over the only clash.
fn resolved(alloc: Global, set: &[Lit], clause: &[Lit]) -> Result<Option<Vec<Lit>>, NoMemory> {
    let (count, pivot) = clashes(set, clause);
    if count != 1 {
        return Ok(None);
    }
    let mut result = Vec::new(alloc);
    for literal in set {
        if literal.var != pivot {
            result.push(*literal)?;
        }
    }
    for literal in clause {
        if literal.var != pivot && !has(result.as_slice(), *literal) {
            result.push(*literal)?;
        }
    }
    Ok(Some(result))
}

/// The clause with that number, counted from 1 over the form and the steps before `place`.
fn clause_with<'a>(
    form: &'a Clauses,
    log: &'a Log,
    place: usize,
    number: u32,
) -> Option<&'a [Lit]> {
    let mut count = 0u32;
    for i in 0..form.len() {
        count = count.wrapping_add(1);
        if count == number {
            return Some(form.clause(i));
        }
    }
    for i in 0..log.len() {
        count = count.wrapping_add(1);
        if count == number && i < place {
            return Some(log.clause(i));
        }
    }
    None
}

fn same_set(a: &[Lit], b: &[Lit]) -> bool {
    a.iter().all(|l| has(b, *l)) && b.iter().all(|l| has(a, *l))
}

fn chain_gives(
    alloc: Global,
    form: &Clauses,
    log: &Log,
    place: usize,
    chain: &[u32],
    clause: &[Lit],
) -> Result<bool, NoMemory> {
    let mut set: Option<Vec<Lit>> = None;
    for number in chain {
        let Some(next) = clause_with(form, log, place, *number) else {
            return Ok(false);
        };
        let result = match &set {
            None => Some(Vec::from_slice(alloc, next)?),
            Some(before) => resolved(alloc, before.as_slice(), next)?,
        };
        if result.is_none() {
            return Ok(false);
        }
        set = result;
    }
    match &set {
        None => Ok(false),
        Some(result) => Ok(same_set(result.as_slice(), clause)),
    }
}

fn is_block_at(blocks: &[Clause], seen: usize, clause: &[Lit]) -> bool {
    match blocks.get(seen) {
        None => false,
        Some(block) => block.literals() == clause,
    }
}

/// The number of the least refused step, counted from 1.
pub(crate) fn least_refused(
    alloc: Global,
    form: &Clauses,
    blocks: &[Clause],
    log: &Log,
) -> Result<Option<usize>, NoMemory> {
    let mut seen = 0usize;
    for place in 0..log.len() {
        let good = match log.kind(place) {
            StepKind::Block => is_block_at(blocks, seen, log.clause(place)),
            StepKind::Learned | StepKind::Derived => {
                chain_gives(alloc, form, log, place, log.chain(place), log.clause(place))?
            }
        };
        if !good {
            return Ok(Some(place.wrapping_add(1)));
        }
        if log.kind(place) == StepKind::Block {
            seen = seen.wrapping_add(1);
        }
    }
    if seen < blocks.len() {
        return Ok(Some(log.len().wrapping_add(1)));
    }
    Ok(None)
}
