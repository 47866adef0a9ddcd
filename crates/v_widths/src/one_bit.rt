//! Operators whose result is one bit, and whose operands no context sizes (IEEE 1364-2005, Table 5-22).
ghost use Rattle.std.specs.Prelude.{◌≡◌, IfOk, Some, None, false};
ghost use Rattle.loc_base.specs.Bits.{value_of};
ghost use Rattle.design_core.specs.declared.expression.Node.TheVariants as node;
ghost use Rattle.v_widths.specs.declared.measured.Shape.TheVariants as shape;
ghost use Rattle.v_widths.specs.Measuring.{reduced, compared, logical_number, joined_truth, compared_measured};

use crate::apply::{Frame, folded};
use crate::close::close;
use crate::measured::{Measured, Shape};
use crate::operators::unary_of;
use design_core::{BinaryOp, Node, Typed};
use loc_base::{Bits, Boxed, NoMemory};
use std::alloc::Global;
use v_selects::leaf::settled;
use v_selects::node::{binary_node, unary_node};
use v_selects::taken::number_word;
use v_selects::{Closed, typed_of};
use v_sizes::numbers::{is_true, limited};
use v_sizes::{WidthErr, fold};
use v_syntax::Unary;

/// An unsigned bit.
fn one_bit(
    alloc: Global,
    constant: bool,
    fault: Option<WidthErr>,
    node: Node,
) -> Result<Boxed<Measured>, NoMemory>
    ensures { IfOk result (λ m. m ≡ record { width = 1; signed = false; constant = constant; shape = shape.Own node fault }) }
{
    let measured = Measured {
        width: 1,
        signed: false,
        constant,
        shape: Shape::Own(node, fault),
    };
    Boxed::new(alloc, measured)
}

/// One bit of an operand by itself.
pub(crate) fn reduced(
    alloc: Global,
    op: Unary,
    e: Boxed<Closed>,
) -> Result<Boxed<Measured>, NoMemory>
    ensures { IfOk result (λ m. m ≡ reduced op e) }
{
    let Closed {
        typed,
        constant,
        fault,
    } = e.into_inner();
    let op = unary_of(op);
    let number = fold::unary(op, number_word(&typed)).value();
    let node = match settled(1, constant, fault, number) {
        Some(node) => node,
        None => unary_node(alloc, op, typed)?,
    };
    one_bit(alloc, constant, fault, node)
}

/// The node of two operands, where nothing is settled yet.
fn pair_node(
    alloc: Global,
    settled: Option<Node>,
    op: BinaryOp,
    left: Typed,
    right: Typed,
) -> Result<Node, NoMemory>
    ensures { IfOk result (λ n. n ≡ elim settled [ Some known ↦ known | None ↦ node.Binary op left right ]) }
{
    match settled {
        Some(node) => Ok(node),
        None => binary_node(alloc, op, left, right),
    }
}

/// One bit of two operands in one context.
fn compared(
    frame: Frame,
    op: BinaryOp,
    left: Boxed<Closed>,
    right: Boxed<Closed>,
) -> Result<Boxed<Measured>, NoMemory>
    ensures { IfOk result (λ m. m ≡ compared op frame.size frame.signed left right) }
{
    let constant = left.constant && right.constant;
    let fault = left.fault.or(right.fault);
    let number = folded(frame, op, &left.typed, &right.typed).value();
    let known = settled(1, constant, fault, number);
    let node = pair_node(frame.alloc, known, op, typed_of(left), typed_of(right))?;
    one_bit(frame.alloc, constant, fault, node)
}

/// Both operands in a context of their own: the larger of their widths, signed where both are (5.1.7, 5.1.8).
pub(crate) fn comparison(
    alloc: Global,
    op: BinaryOp,
    left: Boxed<Measured>,
    right: Boxed<Measured>,
) -> Result<Boxed<Measured>, NoMemory>
    ensures { IfOk result (λ m. m ≡ compared_measured op left right) }
{
    let size = limited(left.width.max(right.width));
    let signed = left.signed && right.signed;
    let left = close(alloc, left, size, signed)?;
    let right = close(alloc, right, size, signed)?;
    let constant = left.constant && right.constant;
    let frame = Frame {
        alloc,
        size,
        signed,
        constant,
    };
    compared(frame, op, left, right)
}

/// `&&`, or `||`.
fn logical_word(op: BinaryOp, left: Bits, right: Bits) -> Bits
    ensures { value_of result ≡ logical_number op (value_of left) (value_of right) }
{
    match op {
        BinaryOp::LogicalAnd => Bits::from_bool(is_true(left) && is_true(right)),
        _ => Bits::from_bool(is_true(left) || is_true(right)),
    }
}

/// One bit of two operands by themselves.
pub(crate) fn joined_truth(
    alloc: Global,
    op: BinaryOp,
    left: Boxed<Closed>,
    right: Boxed<Closed>,
) -> Result<Boxed<Measured>, NoMemory>
    ensures { IfOk result (λ m. m ≡ joined_truth op left right) }
{
    let constant = left.constant && right.constant;
    let fault = left.fault.or(right.fault);
    let number = logical_word(op, number_word(&left.typed), number_word(&right.typed)).value();
    let known = settled(1, constant, fault, number);
    let node = pair_node(alloc, known, op, typed_of(left), typed_of(right))?;
    one_bit(alloc, constant, fault, node)
}
