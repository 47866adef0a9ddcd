//! Operators of two operands of which the context sizes one or both (IEEE 1364-2005, Table 5-22 and 5.5.1).
ghost use Rattle.std.specs.Prelude.{◌≡◌, IfOk};
ghost use Rattle.v_widths.specs.Measuring.{both_measured, shifted_measured, divided_measured, exponent_fault, raised_measured};

use crate::measured::{Division, Measured, Shape};
use design_core::BinaryOp;
use loc_base::{Boxed, NoMemory, Span};
use std::alloc::Global;
use v_selects::Closed;
use v_selects::taken::{is_known_below_0, known_magnitude};
use v_sizes::WidthErr;

/// Two operands in the context; signed where both are.
pub(crate) fn both(
    alloc: Global,
    op: BinaryOp,
    left: Boxed<Measured>,
    right: Boxed<Measured>,
) -> Result<Boxed<Measured>, NoMemory>
    ensures { IfOk result (λ m. m ≡ both_measured op left right) }
{
    let measured = Measured {
        width: left.width.max(right.width),
        signed: left.signed && right.signed,
        constant: left.constant && right.constant,
        shape: Shape::Both(op, left, right),
    };
    Boxed::new(alloc, measured)
}

/// A quotient, or a remainder.
pub(crate) fn divided(
    alloc: Global,
    division: Division,
    left: Boxed<Measured>,
    right: Boxed<Measured>,
) -> Result<Boxed<Measured>, NoMemory>
    ensures { IfOk result (λ m. m ≡ divided_measured division.span division.remainder left right) }
{
    let measured = Measured {
        width: left.width.max(right.width),
        signed: left.signed && right.signed,
        constant: left.constant && right.constant,
        shape: Shape::Divided(division, left, right),
    };
    Boxed::new(alloc, measured)
}

/// A shift: the left operand alone decides width and sign.
pub(crate) fn shifted(
    alloc: Global,
    op: BinaryOp,
    left: Boxed<Measured>,
    right: Boxed<Closed>,
) -> Result<Boxed<Measured>, NoMemory>
    ensures { IfOk result (λ m. m ≡ shifted_measured op left right) }
{
    let measured = Measured {
        width: left.width,
        signed: left.signed,
        constant: left.constant && right.constant,
        shape: Shape::Shifted(op, left, right),
    };
    Boxed::new(alloc, measured)
}

/// What is wrong with an exponent, or with a power that isn't constant.
fn exponent_fault(span: Span, constant: bool, exponent: &Closed) -> Option<WidthErr>
    ensures { result ≡ exponent_fault span constant exponent.now }
{
    if !constant || is_known_below_0(exponent) {
        Some(WidthErr::NotConstant(span))
    } else {
        None
    }
}

/// A power: the left operand alone decides width and sign.
pub(crate) fn raised(
    alloc: Global,
    span: Span,
    base: Boxed<Measured>,
    exponent: Boxed<Closed>,
) -> Result<Boxed<Measured>, NoMemory>
    ensures { IfOk result (λ m. m ≡ raised_measured span base exponent) }
{
    let constant = base.constant && exponent.constant;
    let own = exponent_fault(span, constant, exponent.get());
    let fault = exponent.fault.or(own);
    let measured = Measured {
        width: base.width,
        signed: base.signed,
        constant,
        shape: Shape::Raised(base, known_magnitude(exponent.get()), fault),
    };
    Boxed::new(alloc, measured)
}
