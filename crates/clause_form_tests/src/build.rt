//! Circuits, traces and suspects in few words.

use bit_circuit::{Circuit, blast};
use clause_base::{Clauses, Lit};
use design_core::{Checked, Trace};
use loc_base::{Bits, Items, Name};
use net_checks::Parts;
use std::alloc::Global;
use std::process::Abort;
use std::test::Fail;
use suspect_map::{Group, Groups};
use word_net::{Operand, Operation, WordNode};

pub fn word(node: u32, width: u8) -> Operand {
    Operand {
        node,
        width,
        signed: false,
    }
}

pub fn node(width: u8, operation: Operation) -> WordNode {
    WordNode { width, operation }
}

/// The circuit of a net of a cycle with one output.
pub fn circuit(
    rt: &impl Abort,
    alloc: Global,
    nodes: Vec<WordNode>,
    next: Vec<u32>,
    start: Vec<Bits>,
) -> Result<Circuit, Fail> {
    let count = u32::try_from(nodes.len()).unwrap_or(0);
    assert!(rt; count > 0);
    let parts = Parts {
        nodes,
        outputs: vec![in alloc; count - 1]?,
        next,
        start,
    };
    circuit_of(rt, alloc, parts)
}

/// The circuit of a net.
pub fn circuit_of(rt: &impl Abort, alloc: Global, parts: Parts) -> Result<Circuit, Fail> {
    match parts.into_net(alloc)? {
        Some(net) => match blast(alloc, &net) {
            Ok(circuit) => Ok(circuit),
            Err(e) => panic!(rt; "{e:?}"),
        },
        None => panic!(rt; "no net"),
    }
}

/// A word of a width.
pub fn bits(rt: &impl Abort, width: u8, value: u128) -> Bits {
    match Bits::new(width, value) {
        Some(word) => word,
        None => panic!(rt; "no word"),
    }
}

/// A bit that is expected.
pub fn expected(rt: &impl Abort, value: u128) -> Checked {
    Checked {
        value: bits(rt, 1, value),
        mask: bits(rt, 1, 1),
    }
}

/// A bit that isn't checked.
pub fn unchecked(rt: &impl Abort) -> Checked {
    Checked {
        value: bits(rt, 1, 0),
        mask: bits(rt, 1, 0),
    }
}

/// Suspects with one place each.
pub fn suspects(rt: &impl Abort, alloc: Global, places: &[u32]) -> Result<Groups, Fail> {
    let mut groups = Items::new(alloc);
    for i in 0..places.len() {
        groups.push(Group {
            kind: name(rt, alloc)?,
            label: name(rt, alloc)?,
            places: Items::copy_of(alloc, &[places[i]])?,
        })?;
    }
    Ok(groups)
}

fn name(rt: &impl Abort, alloc: Global) -> Result<Name, Fail> {
    match Name::new(alloc, b"m")? {
        Some(name) => Ok(name),
        None => panic!(rt; "no name"),
    }
}

/// The variable, or its negation where it is below 0.
fn lit(number: i32) -> Lit {
    Lit {
        var: number.unsigned_abs(),
        negated: number < 0,
    }
}

/// Whether a clause has these literals.
pub fn is_clause(clauses: &Clauses, place: usize, want: &[i32]) -> bool {
    if place >= clauses.len() {
        return false;
    }
    let clause = clauses.clause(place);
    if clause.len() != want.len() {
        return false;
    }
    for i in 0..want.len() {
        if clause[i] != lit(want[i]) {
            return false;
        }
    }
    true
}
