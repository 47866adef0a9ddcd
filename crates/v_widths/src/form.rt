//! What the pass up gives of each form, from what it gave of the operands (IEEE 1364-2005, 5.4.1, Table 5-22, and 5.5.1).
ghost use Rattle.std.specs.Prelude.{◌≡◌, IfOk};
ghost use Rattle.v_sizes.specs.Refusals.{literal_fault};
ghost use Rattle.v_widths.specs.Takings.{class_in};
ghost use Rattle.v_widths.specs.Measuring.{number_measured, unary_measured, binary_measured, called_measured, conditional_measured};

use crate::close::alone;
use crate::measured::{Division, Measured, Shape, leaf_measured};
use crate::one_bit::{comparison, joined_truth, reduced};
use crate::operands::{both, divided, raised, shifted};
use crate::operators::{Taking, keeps_width, unary_of};
use design_core::Node;
use loc_base::{Boxed, NoMemory, Span};
use std::alloc::Global;
use v_selects::{Closed, Leaf};
use v_sizes::WidthErr;
use v_sizes::literal::{is_bad_literal, literal_signed, literal_width, literal_word};
use v_syntax::Unary;

fn literal_fault(span: Span, text: &[u8]) -> Option<WidthErr>
    ensures { result ≡ literal_fault span text.now }
{
    if is_bad_literal(text) {
        Some(WidthErr::Range(span))
    } else {
        None
    }
}

/// A number, with its width and sign as they are written.
#[inline(never)]
#[tactic(auto, using(v_sizes::proofs::SameWord::words))]
pub(crate) fn number(alloc: Global, span: Span, text: &[u8]) -> Result<Boxed<Measured>, NoMemory>
    ensures { IfOk result (λ m. m ≡ number_measured span text.now) }
{
    let leaf = Leaf {
        width: literal_width(text),
        signed: literal_signed(text),
        constant: true,
        node: Node::Const(literal_word(text)),
        fault: literal_fault(span, text),
    };
    leaf_measured(alloc, leaf)
}

/// An operator of one operand, which the context sizes, or one of a single bit.
#[inline(never)]
pub(crate) fn unary(
    alloc: Global,
    op: Unary,
    e: Boxed<Measured>,
) -> Result<Boxed<Measured>, NoMemory>
    ensures { IfOk result (λ m. m ≡ unary_measured op e) }
{
    if !keeps_width(op) {
        let operand = alone(alloc, e)?;
        return reduced(alloc, op, operand);
    }
    let measured = Measured {
        width: e.width,
        signed: e.signed,
        constant: e.constant,
        shape: Shape::Unary(unary_of(op), e),
    };
    Boxed::new(alloc, measured)
}

/// An operator of two operands, which takes them in its way (Table 5-22).
#[inline(never)]
pub(crate) fn binary(
    alloc: Global,
    span: Span,
    taking: Taking,
    left: Boxed<Measured>,
    right: Boxed<Measured>,
) -> Result<Boxed<Measured>, NoMemory>
    ensures { IfOk result (λ m. m ≡ binary_measured span (class_in taking) left right) }
{
    match taking {
        Taking::ByContext(op) => both(alloc, op, left, right),
        Taking::Shift(op) => {
            let right = alone(alloc, right)?;
            shifted(alloc, op, left, right)
        }
        Taking::Comparison(op) => comparison(alloc, op, left, right),
        Taking::Logical(op) => {
            let left = alone(alloc, left)?;
            let right = alone(alloc, right)?;
            joined_truth(alloc, op, left, right)
        }
        Taking::Quotient => {
            let division = Division {
                span,
                remainder: false,
            };
            divided(alloc, division, left, right)
        }
        Taking::Remainder => {
            let division = Division {
                span,
                remainder: true,
            };
            divided(alloc, division, left, right)
        }
        Taking::Power => {
            let right = alone(alloc, right)?;
            raised(alloc, span, left, right)
        }
    }
}

/// A function that changes the sign alone.
pub(crate) fn called(
    alloc: Global,
    signed: bool,
    argument: Boxed<Closed>,
) -> Result<Boxed<Measured>, NoMemory>
    ensures { IfOk result (λ m. m ≡ called_measured signed argument) }
{
    let measured = Measured {
        width: argument.typed.width,
        signed,
        constant: argument.constant,
        shape: Shape::Called(argument),
    };
    Boxed::new(alloc, measured)
}

/// A conditional: the context sizes its two arms, and its condition stands by itself.
#[inline(never)]
pub(crate) fn conditional(
    alloc: Global,
    condition: Boxed<Closed>,
    on_true: Boxed<Measured>,
    on_false: Boxed<Measured>,
) -> Result<Boxed<Measured>, NoMemory>
    ensures { IfOk result (λ m. m ≡ conditional_measured condition on_true on_false) }
{
    let measured = Measured {
        width: on_true.width.max(on_false.width),
        signed: on_true.signed && on_false.signed,
        constant: condition.constant && on_true.constant && on_false.constant,
        shape: Shape::Chosen(condition, on_true, on_false),
    };
    Boxed::new(alloc, measured)
}
