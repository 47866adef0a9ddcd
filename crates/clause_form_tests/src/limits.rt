//! The most variables and the most literals of a form, of a register of 128 bits that keeps its value: `always @(posedge clk) q <= q;`.
//!
//! With n suspects that each hold its place and k = 2 there are 14 (n - 3) + 21 literals that count suspects. The bits of the place have
//! 128 (n + 1) in the first cycle, where the state is 0, and 256 (n + 2) in each later one. A bit of the output that is checked in a later
//! cycle is one more.

use crate::build::{bits, circuit_of, node, suspects, word};
use bit_circuit::Circuit;
use clause_form::{FormErr, form};
use design_core::{Checked, Trace};
use net_checks::Parts;
use std::alloc::Global;
use std::process::Abort;
use std::test::Fail;
use suspect_map::Groups;
use unroller::{UnrollErr, are_traces, unroll};
use word_net::Operation;

/// The register, which is the output too.
fn register(rt: &impl Abort, alloc: Global) -> Result<Circuit, Fail> {
    let parts = Parts {
        nodes: vec![in alloc;
            node(128, Operation::State(0)),
            node(
                128,
                Operation::Free {
                    place: 0,
                    computed: word(0, 128)
                }
            ),
        ]?,
        outputs: vec![in alloc; 0]?,
        next: vec![in alloc; 1]?,
        start: vec![in alloc; bits(rt, 128, 0)]?,
    };
    circuit_of(rt, alloc, parts)
}

/// The lowest bits of a word, of which so many are wanted.
fn low_bits(count: u32) -> u128 {
    match count {
        0 => 0,
        1..=127 => u128::MAX >> (128 - count),
        _ => u128::MAX,
    }
}

/// So many cycles in which so many bits are expected to be 0: those of cycle 1 first.
fn trace(rt: &impl Abort, alloc: Global, cycles: u32, checked: u32) -> Result<Trace, Fail> {
    let mut expected = Vec::new(alloc);
    let mut left = checked;
    for cycle in 0..cycles {
        let here = if cycle == 0 { 0 } else { left.min(128) };
        expected.push(Checked {
            value: bits(rt, 128, 0),
            mask: bits(rt, 128, low_bits(here)),
        })?;
        left = left.saturating_sub(here);
    }
    Ok(Trace {
        cycles,
        inputs: vec![in alloc]?,
        expected,
    })
}

/// So many suspects that each hold the place.
fn holders(rt: &impl Abort, alloc: Global, count: usize) -> Result<Groups, Fail> {
    let places = vec![in alloc; 0; count]?;
    suspects(rt, alloc, &places)
}

/// How many variables the form has, and `None` where they are too many.
fn variables(
    rt: &impl Abort,
    alloc: Global,
    groups: &Groups,
    k: u32,
    cycles: u32,
) -> Result<Option<u32>, Fail> {
    let circuit = register(rt, alloc)?;
    let traces = vec![in alloc; trace(rt, alloc, cycles, 0)?]?;
    assert!(rt; are_traces(&circuit, &traces));
    match unroll(alloc, &circuit, &traces, groups, k) {
        Ok(unrolled) => Ok(Some(unrolled.variables())),
        Err(UnrollErr::Vars) => Ok(None),
        Err(UnrollErr::NoMemory) => Err(Fail::new("no memory")),
    }
}

/// How many literals the form of sets of at most two suspects has, and `None` where they are too many.
fn literals(
    rt: &impl Abort,
    alloc: Global,
    groups: &Groups,
    trace: Trace,
) -> Result<Option<usize>, Fail> {
    let circuit = register(rt, alloc)?;
    let traces = vec![in alloc; trace]?;
    assert!(rt; are_traces(&circuit, &traces));
    let unrolled = match unroll(alloc, &circuit, &traces, groups, 2) {
        Ok(unrolled) => unrolled,
        Err(e) => panic!(rt; "{e:?}"),
    };
    match form(alloc, &unrolled, groups, 2) {
        Ok(form) => {
            let mut count = 0usize;
            for place in 0..form.clauses.len() {
                count = count.saturating_add(form.clauses.clause(place).len());
            }
            Ok(Some(count))
        }
        Err(FormErr::Literals) => Ok(None),
        Err(FormErr::NoMemory) => Err(Fail::new("no memory")),
    }
}

/// How many suspects hold the place, the size that is asked for, the cycles, and how many variables the form has: none where it is refused.
struct VariablesRow {
    suspects: usize,
    k: u32,
    cycles: u32,
    variables: Option<u32>,
}

/// 128 bits in each of 31,249 cycles are 3,999,872 variables. 43 suspects and their counters for k = 1 are 128 more, and 33 for k = 2
/// are 129.
const VARIABLES: &[VariablesRow] = &[
    VariablesRow {
        suspects: 43,
        k: 1,
        cycles: 31_249,
        variables: Some(4_000_000),
    },
    VariablesRow {
        suspects: 33,
        k: 2,
        cycles: 31_249,
        variables: None,
    },
];

/// How many suspects hold the place, the cycles, the bits that are checked, and how many literals the form has: none where it is refused.
struct LiteralsRow {
    suspects: usize,
    cycles: u32,
    checked: u32,
    literals: Option<usize>,
}

/// Of 4,059 suspects over 62 cycles it has 63,993,061, and as many more as bits are checked. Of 4,096 over 64 it would have 66,674,283.
const LITERALS: &[LiteralsRow] = &[
    LiteralsRow {
        suspects: 4059,
        cycles: 62,
        checked: 6939,
        literals: Some(64_000_000),
    },
    LiteralsRow {
        suspects: 4059,
        cycles: 62,
        checked: 6940,
        literals: None,
    },
    LiteralsRow {
        suspects: 4096,
        cycles: 64,
        checked: 0,
        literals: None,
    },
];

fn have_variables(rt: &impl Abort, alloc: Global, rows: &[VariablesRow]) -> Result<(), Fail> {
    for row in rows {
        let groups = holders(rt, alloc, row.suspects)?;
        let count = variables(rt, alloc, &groups, row.k, row.cycles)?;
        assert_eq!(rt; count, row.variables);
    }
    Ok(())
}

fn have_literals(rt: &impl Abort, alloc: Global, rows: &[LiteralsRow]) -> Result<(), Fail> {
    for row in rows {
        let groups = holders(rt, alloc, row.suspects)?;
        let trace = trace(rt, alloc, row.cycles, row.checked)?;
        let count = literals(rt, alloc, &groups, trace)?;
        assert_eq!(rt; count, row.literals);
    }
    Ok(())
}

#[test]
fn a_form_has_at_most_4_000_000_variables(rt: HostRuntime) -> Result<(), Fail> {
    have_variables(&rt, rt.alloc(), VARIABLES)
}

#[test]
fn a_form_has_at_most_64_000_000_literals(rt: HostRuntime) -> Result<(), Fail> {
    have_literals(&rt, rt.alloc(), LITERALS)
}
