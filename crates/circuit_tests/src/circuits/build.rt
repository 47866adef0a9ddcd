//! Nets and nodes in few words.

use bit_circuit::{Circuit, blast};
use gate_base::{Literal, Node};
use loc_base::Bits;
use net_checks::Parts;
use std::alloc::Global;
use std::process::Abort;
use std::test::Fail;
use word_net::{Operand, Operation, WordNode};

pub const FALSE: Literal = Literal::Known(false);

pub fn of(node: u32) -> Literal {
    Literal::Of {
        node,
        negated: false,
    }
}

pub fn not(node: u32) -> Literal {
    Literal::Of {
        node,
        negated: true,
    }
}

pub fn and(left: Literal, right: Literal) -> Node {
    Node::And { left, right }
}

pub fn input(input: u32, bit: u8) -> Node {
    Node::Input { input, bit }
}

pub fn free(place: u32, computed: Literal) -> Node {
    Node::Free {
        moment: 0,
        place,
        bit: 0,
        computed,
    }
}

pub fn word(node: u32, width: u8) -> Operand {
    Operand {
        node,
        width,
        signed: false,
    }
}

pub fn signed(node: u32, width: u8) -> Operand {
    Operand {
        node,
        width,
        signed: true,
    }
}

pub fn node(width: u8, operation: Operation) -> WordNode {
    WordNode { width, operation }
}

/// The circuit of a net whose last node is its output.
pub fn circuit(rt: &impl Abort, alloc: Global, nodes: Vec<WordNode>) -> Result<Circuit, Fail> {
    held(rt, alloc, nodes, vec![in alloc]?, vec![in alloc]?)
}

/// The circuit of a net with states, whose last node is its output.
pub fn held(
    rt: &impl Abort,
    alloc: Global,
    nodes: Vec<WordNode>,
    next: Vec<u32>,
    start: Vec<Bits>,
) -> Result<Circuit, Fail> {
    let count = u32::try_from(nodes.len()).unwrap_or(0);
    assert!(rt; count > 0);
    let parts = Parts {
        nodes,
        outputs: vec![in alloc; count - 1]?,
        next,
        start,
    };
    match parts.into_net(alloc)? {
        Some(net) => match blast(alloc, &net) {
            Ok(circuit) => Ok(circuit),
            Err(e) => panic!(rt; "{e:?}"),
        },
        None => panic!(rt; "no net"),
    }
}

/// Whether the literals of the only output are these.
pub fn has_output(circuit: &Circuit, want: &[Literal]) -> bool {
    let outputs = circuit.outputs();
    outputs.len() == 1 && outputs.row(0) == want
}
