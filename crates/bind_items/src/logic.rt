//! What a gate gives: the operator between its inputs from the left, then the negation (IEEE 1364-2005, 7.2 and 7.3).
ghost use Rattle.std.specs.Prelude.{◌≡◌, true, false, IfOk};
ghost use Rattle.std.specs.Option.{option_map_or};
ghost use Rattle.design_core.specs.Operator as operator;
ghost use Rattle.v_binding.specs.Gates.{joins, negates, both, negated, value_of_gate, for_width};

use crate::bit::constant_of;
use design_core::{BinaryOp, Node, Typed, UnaryOp};
use loc_base::{Boxed, NoMemory};
use std::alloc::Global;
use v_selects::leaf::word_node;
use v_selects::node::{binary_node, sized, unary_node};
use v_syntax::GateKind;

/// The operator between the inputs of a gate.
fn joins(kind: GateKind) -> BinaryOp
    ensures { result ≡ joins kind }
{
    match kind {
        GateKind::And | GateKind::Nand | GateKind::Buf | GateKind::Not => BinaryOp::And,
        GateKind::Or | GateKind::Nor => BinaryOp::Or,
        GateKind::Xor | GateKind::Xnor => BinaryOp::Xor,
    }
}

/// Whether a gate negates.
fn negates(kind: GateKind) -> bool
    ensures { result ≡ negates kind }
{
    match kind {
        GateKind::Nand | GateKind::Nor | GateKind::Xnor | GateKind::Not => true,
        GateKind::And | GateKind::Or | GateKind::Xor | GateKind::Buf => false,
    }
}

/// The operator between the inputs of a gate, on constants.
fn number_of(kind: GateKind, one: u128, other: u128) -> u128
    ensures { result ≡ operator.binary (joins kind) 1 false false one other }
{
    match kind {
        GateKind::And | GateKind::Nand | GateKind::Buf | GateKind::Not => one & other,
        GateKind::Or | GateKind::Nor => one | other,
        GateKind::Xor | GateKind::Xnor => one ^ other,
    }
}

/// One input more behind those before. Constants alone give a constant.
fn both(alloc: Global, kind: GateKind, one: Typed, other: Typed) -> Result<Typed, NoMemory>
    ensures { IfOk result (λ e. e ≡ both (joins kind) one other) }
{
    match (constant_of(&one), constant_of(&other)) {
        (Some(first), Some(second)) => {
            let number = number_of(kind, first.value(), second.value());
            Ok(sized(1, false, word_node(1, number)))
        }
        _ => {
            let node = binary_node(alloc, joins(kind), one, other)?;
            Ok(sized(1, false, node))
        }
    }
}

/// The inputs of a gate together: a bit more behind those before, if there are any.
pub fn joined(
    alloc: Global,
    kind: GateKind,
    before: Option<Typed>,
    bit: Typed,
) -> Result<Typed, NoMemory>
    ensures { IfOk result (λ e. e ≡ option_map_or (λ one. both (joins kind) one bit) before bit) }
{
    match before {
        Some(one) => both(alloc, kind, one, bit),
        None => Ok(bit),
    }
}

/// The other bit.
fn negated(alloc: Global, e: Typed) -> Result<Typed, NoMemory>
    ensures { IfOk result (λ other. other ≡ negated true e) }
{
    match constant_of(&e) {
        Some(word) => {
            let number = u128::from(word.value() == 0);
            Ok(sized(1, false, word_node(1, number)))
        }
        None => {
            let node = unary_node(alloc, UnaryOp::Not, e)?;
            Ok(sized(1, false, node))
        }
    }
}

/// What a gate gives by its inputs together; 0 where there are none.
pub fn gate_value(alloc: Global, kind: GateKind, inputs: Option<Typed>) -> Result<Typed, NoMemory>
    ensures { IfOk result (λ e. e ≡ value_of_gate kind inputs) }
{
    let bit = match inputs {
        Some(e) => e,
        None => sized(1, false, word_node(1, 0)),
    };
    if negates(kind) {
        negated(alloc, bit)
    } else {
        Ok(bit)
    }
}

/// The value for a left side of a width: extended by 0.
pub fn for_width(alloc: Global, width: u8, e: Typed) -> Result<Typed, NoMemory>
    ensures { IfOk result (λ wide. wide ≡ for_width width e) }
{
    if let Some(word) = constant_of(&e) {
        return Ok(sized(width, false, word_node(width, word.value())));
    }
    if 1 < width {
        let e = Boxed::new(alloc, e)?;
        Ok(sized(width, false, Node::Resize(e)))
    } else {
        Ok(e)
    }
}
