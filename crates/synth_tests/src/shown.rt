//! Circuits as text: the nodes with their numbers, then the literals of the outputs and of the next states, from bit 0.

use bit_circuit::Circuit;
use gate_base::{Literal, Node};
use loc_base::Rows;
use std::alloc::Global;
use std::test::Fail;

/// A constant, or the number of a node, behind a `-` where it is negated.
fn put_literal(text: &mut String, literal: Literal) -> Result<(), Fail> {
    match literal {
        Literal::Known(value) => write!(text, "{value} ")?,
        Literal::Of {
            node,
            negated: false,
        } => write!(text, "{node} ")?,
        Literal::Of {
            node,
            negated: true,
        } => write!(text, "-{node} ")?,
    }
    Ok(())
}

fn put_node(text: &mut String, node: Node) -> Result<(), Fail> {
    match node {
        Node::Input { input, bit } => write!(text, "input {input} {bit} ")?,
        Node::State { state, bit } => write!(text, "state {state} {bit} ")?,
        Node::And { left, right } => {
            write!(text, "and ")?;
            put_literal(text, left)?;
            put_literal(text, right)?;
        }
        Node::Free {
            moment: _,
            place,
            bit,
            computed,
        } => {
            write!(text, "free {place} {bit} ")?;
            put_literal(text, computed)?;
        }
    }
    Ok(())
}

fn put_rows(text: &mut String, title: &str, rows: &Rows<Literal>) -> Result<(), Fail> {
    for i in 0..rows.len() {
        write!(text, "{title}: ")?;
        for literal in rows.row(i) {
            put_literal(text, *literal)?;
        }
    }
    Ok(())
}

/// The text of a circuit, with a space behind each word.
pub(super) fn text_of(alloc: Global, circuit: &Circuit) -> Result<String, Fail> {
    let mut text = String::new(alloc);
    for (number, node) in circuit.nodes().iter().enumerate() {
        write!(text, "{number}: ")?;
        put_node(&mut text, *node)?;
    }
    put_rows(&mut text, "output", circuit.outputs())?;
    put_rows(&mut text, "next", circuit.next())?;
    Ok(text)
}

/// The words of a text, with a space behind each.
pub(super) fn spaced(alloc: Global, words: &str) -> Result<String, Fail> {
    let mut text = String::new(alloc);
    for word in words.split_whitespace() {
        write!(text, "{word} ")?;
    }
    Ok(text)
}
