//! What a measured expression becomes in a context of a width and a sign (IEEE 1364-2005, 5.4 and 5.5).
ghost use Rattle.std.specs.Prelude.{◌≡◌, ◌≤◌, IfOk};
ghost use Rattle.v_widths.specs.Closing.{alone, closed};

use crate::apply::{Frame, both, called, chosen, divided, own, raised, shifted, unary};
use crate::measured::{Measured, Shape};
use loc_base::{Boxed, NoMemory};
use std::alloc::Global;
use v_selects::Closed;
use v_sizes::numbers::limited;

/// A measured expression in its context. It calls itself for each level of the tree: what has large values is in the functions
/// that it calls.
#[cycle(close)]
pub(crate) fn close(
    alloc: Global,
    e: Boxed<Measured>,
    size: u8,
    signed: bool,
) -> Result<Boxed<Closed>, NoMemory>
    requires least { 1 ≤ size }
    requires most { size ≤ 128 }
    ensures { IfOk result (λ c. c ≡ closed e size signed) }
{
    let Measured {
        width,
        signed: _,
        constant,
        shape,
    } = e.into_inner();
    let frame = Frame {
        alloc,
        size,
        signed,
        constant,
    };
    match shape {
        Shape::Own(node, fault) => own(frame, width, node, fault),
        Shape::Called(argument) => called(frame, argument),
        Shape::Unary(op, operand) => {
            let operand = close(alloc, operand, size, signed)?;
            unary(frame, op, operand)
        }
        Shape::Both(op, left, right) => {
            let left = close(alloc, left, size, signed)?;
            let right = close(alloc, right, size, signed)?;
            both(frame, op, left, right)
        }
        Shape::Divided(division, left, right) => {
            let left = close(alloc, left, size, signed)?;
            let right = close(alloc, right, size, signed)?;
            divided(frame, division, left, right)
        }
        Shape::Shifted(op, left, right) => {
            let left = close(alloc, left, size, signed)?;
            shifted(frame, op, left, right)
        }
        Shape::Raised(base, exponent, fault) => {
            let base = close(alloc, base, size, signed)?;
            raised(frame, base, exponent, fault)
        }
        Shape::Chosen(condition, on_true, on_false) => {
            let yes = close(alloc, on_true, size, signed)?;
            let no = close(alloc, on_false, size, signed)?;
            chosen(frame, condition, yes, no)
        }
    }
}

/// An expression by itself: in the context of its own width and sign.
pub(crate) fn alone(alloc: Global, e: Boxed<Measured>) -> Result<Boxed<Closed>, NoMemory>
    ensures { IfOk result (λ c. c ≡ alone e) }
{
    let size = limited(e.width);
    let signed = e.signed;
    close(alloc, e, size, signed)
}
