//! The nodes of an expression (IEEE 1364-2005, clause 5), operands from the left first.
ghost use Rattle.std.specs.Prelude.{◌≡◌, ◌≤◌, ◌+◌, ◌^◌, ◌<◌, length, IfOk, IsTrue};
ghost use Rattle.std.specs.List.{list_all};
ghost use Rattle.design_core.specs.WellFormed.{typed_fits};
ghost use Rattle.word_net.specs.Build.{made};
ghost use Rattle.synth_parts.specs.Expression.{is_logical, operand, prepared, typed_made};
ghost use Rattle.synth_parts.specs.Lists.{all_parts, parts_sum, prepared_in};

use crate::array_parts::{ArrayPart, array};
use crate::operators::{Both, binary, choose, constant, pick, repeat, resize, slice, unary};
use crate::scene::{Nodes, Scene, push, truth, unsigned};
use design_core::{BinaryOp, Node, Typed};
use loc_base::NoMemory;
use word_net::{Operand, Operation};

/// A node as an expression's width and sign let it be read.
pub(crate) fn operand(node: u32, e: &Typed) -> Operand
    ensures { result ≡ operand node e.now.width e.now.signed }
{
    Operand {
        node,
        width: e.width,
        signed: e.signed,
    }
}

/// Whether an operator goes by truth values.
fn is_logical(op: BinaryOp) -> bool
    ensures { result ≡ is_logical op }
{
    match op {
        BinaryOp::LogicalAnd | BinaryOp::LogicalOr => true,
        _ => false,
    }
}

/// An operand of an operator: its truth value where the operator goes by these.
#[inline(never)]
#[tactic(auto, unfolding(crate::specs::Expression::prepared))]
fn prepared(nodes: &mut Nodes, logical: bool, word: Operand) -> Result<Operand, NoMemory>
    ensures { IfOk result (λ o. prepared_in nodes.new o ≡ prepared logical nodes.old word.node word.width word.signed) }
{
    if logical {
        let truth = truth(nodes, word.node, word.width)?;
        Ok(unsigned(truth, 1))
    } else {
        Ok(word)
    }
}

/// The node of an expression: what it computes where the signals are as they are here. It calls itself as deep as the expression is, up to
/// 4,096 levels, so what takes room beside that is in functions of its own.
#[cycle(expression)]
pub(crate) fn expression(at: &Scene, nodes: &mut Nodes, e: &Typed) -> Result<u32, NoMemory>
    requires few { length at.now.signals.now < 2 ^ 32 }
    requires each { length at.now.nodes_of.now ≡ length at.now.signals.now }
    requires fits { IsTrue (typed_fits at.now.signals.now e.now) }
    ensures { IfOk result (λ n. made nodes.new n ≡ typed_made at.now.signals.now at.now.nodes_of.now nodes.old e.now) }
{
    match &e.node {
        Node::Const(word) => constant(nodes, e.width, word.value()),
        Node::Whole(signal) => Ok(at.nodes_of[*signal as usize]),
        Node::Slice {
            signal,
            from,
            width,
        } => {
            let word = at.read(*signal);
            slice(nodes, *width, word, *from)
        }
        Node::Pick {
            signal,
            index,
            offsets,
        } => {
            let place = expression(at, nodes, index)?;
            let word = at.read(*signal);
            let select = at.select(*signal, operand(place, index), offsets)?;
            pick(nodes, e.width, word, select)
        }
        Node::Word {
            first,
            count,
            low,
            index,
            from,
            width,
        } => {
            let place = expression(at, nodes, index)?;
            let part = ArrayPart {
                first: *first,
                low: *low,
                index: operand(place, index),
                from: *from,
                width: *width,
            };
            array(at, nodes, part, *count)
        }
        Node::Unary { op, arg } => {
            let word = expression(at, nodes, arg)?;
            let arg = unsigned(word, arg.width);
            unary(nodes, e.width, *op, arg)
        }
        Node::Binary { op, left, right } => {
            let logical = is_logical(*op);
            let one = expression(at, nodes, left)?;
            let one = prepared(nodes, logical, operand(one, left))?;
            let other = expression(at, nodes, right)?;
            let other = prepared(nodes, logical, operand(other, right))?;
            binary(nodes, e.width, *op, Both { one, other })
        }
        Node::Choose { cond, yes, no } => {
            let test = expression(at, nodes, cond)?;
            let test = truth(nodes, test, cond.width)?;
            let one = expression(at, nodes, yes)?;
            let other = expression(at, nodes, no)?;
            let arms = Both {
                one: unsigned(one, yes.width),
                other: unsigned(other, no.width),
            };
            choose(nodes, e.width, unsigned(test, 1), arms)
        }
        Node::Join(parts) => joined(at, nodes, parts),
        Node::Repeat { times, part } => {
            let word = expression(at, nodes, part)?;
            let part = unsigned(word, part.width);
            repeat(nodes, e.width, *times, part)
        }
        Node::Resize(arg) => {
            let word = expression(at, nodes, arg)?;
            resize(nodes, e.width, operand(word, arg))
        }
    }
}

/// A concatenation of at least one part, the parts from the left.
#[inline(never)]
#[cycle(expression)]
fn joined(at: &Scene, nodes: &mut Nodes, parts: &[Typed]) -> Result<u32, NoMemory>
    requires few { length at.now.signals.now < 2 ^ 32 }
    requires each { length at.now.nodes_of.now ≡ length at.now.signals.now }
    requires fits { IsTrue (list_all (typed_fits at.now.signals.now) parts.now) }
    requires some { 0 < length parts.now }
    requires width { parts_sum parts.now ≤ 128 }
    ensures { IfOk result (λ n. made nodes.new n ≡ all_parts at.now.signals.now at.now.nodes_of.now nodes.old parts.now) }
{
    let first = &parts[0];
    let mut word = expression(at, nodes, first)?;
    let mut width = first.width;
    for i in 1..parts.len() {
        let part = &parts[i];
        let low = expression(at, nodes, part)?;
        let join = Operation::Join {
            high: unsigned(word, width),
            low: unsigned(low, part.width),
        };
        width += part.width;
        word = push(nodes, width, join)?;
    }
    Ok(word)
}
