//! The operands of an expression: the signals that it names outside of arrays.
ghost use Rattle.std.specs.Prelude.{◌≡◌, IfOk};
ghost use Rattle.std.specs.List.{list_any};
ghost use Rattle.change_lines.specs.Operands.{names, named_below};

use design_core::{Node, Typed};
use loc_base::NoMemory;
use std::alloc::Global;

/// Whether an expression names a signal outside of arrays.
#[cycle(names)]
pub(crate) fn names(signal: usize, e: &Typed) -> bool
    ensures { result ≡ names signal e.now }
{
    match &e.node {
        Node::Const(_) => false,
        Node::Whole(own) => *own as usize == signal,
        Node::Slice { signal: own, .. } => *own as usize == signal,
        Node::Pick {
            signal: own,
            index,
            ..
        } => *own as usize == signal || names(signal, index),
        Node::Word { index, .. } => names(signal, index),
        Node::Unary { arg, .. } => names(signal, arg),
        Node::Binary { left, right, .. } => names(signal, left) | names(signal, right),
        Node::Choose { cond, yes, no } => {
            names(signal, cond) | names(signal, yes) | names(signal, no)
        }
        Node::Join(parts) => some_names(signal, parts),
        Node::Repeat { part, .. } => names(signal, part),
        Node::Resize(arg) => names(signal, arg),
    }
}

/// Whether some of a concatenation's parts names a signal.
#[cycle(names)]
fn some_names(signal: usize, parts: &[Typed]) -> bool
    ensures { result ≡ list_any (names signal) parts.now }
{
    for part in parts {
        if names(signal, part) {
            return true;
        }
    }
    false
}

/// The signals below a number that an expression names, ascending.
#[tactic(auto, using(crate::proofs::OperandLaws::operand_rules))]
pub(crate) fn named_below(alloc: Global, count: usize, e: &Typed) -> Result<Vec<usize>, NoMemory>
    ensures { IfOk result (λ found. found.items ≡ named_below count e.now) }
{
    let mut found = Vec::new(alloc);
    for signal in 0..count {
        if names(signal, e) {
            found.push(signal)?;
        }
    }
    Ok(found)
}
