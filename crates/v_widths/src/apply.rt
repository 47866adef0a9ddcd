//! What stands in a context, from its operands in theirs.
ghost use Rattle.std.specs.Prelude.{◌≡◌, ◌*◌, ◌/◌, ◌%◌, ◌^◌, ◌≤◌, ◌<◌, IfOk, if◌then◌else◌};
ghost use Rattle.loc_base.specs.Bits.{width_of, value_of};
ghost use Rattle.design_core.specs.Operator.{resized, binary, is_true};
ghost use Rattle.v_sizes.specs.Sized.{constant};
ghost use Rattle.v_selects.specs.Folding.{number_in};
ghost use Rattle.v_widths.specs.Closing.{closed_with, own_typed, called_closed, low, chosen_typed, unary_closed, both_closed, divided_number, divided_closed, shifted_number, shifted_closed, raised_closed, chosen_closed, division_fault};

use crate::measured::Division;
use design_core::{BinaryOp, Node, Typed, UnaryOp};
use loc_base::{Bits, Boxed, NoMemory, Span};
use std::alloc::Global;
use v_selects::node::{
    binary_node, choose_node, constant, low_in, sized, unary_node, with_sign, with_width, word_in,
    word_of_node,
};
use v_selects::{Closed, typed_of};
use v_sizes::divide::{quotient, remainder};
use v_sizes::fold::Operand;
use v_sizes::numbers::{is_true, low_bits};
use v_sizes::power::power;
use v_sizes::{WidthErr, fold};

/// The context of an expression, and whether the expression reads no signal.
#[derive(Clone, Copy)]
pub(crate) struct Frame {
    pub alloc: Global,
    pub size: u8,
    pub signed: bool,
    pub constant: bool,
    pub ghost least: { 1 ≤ size },
    pub ghost most: { size ≤ 128 },
}

/// A constant of the context's width and sign.
#[tactic(auto, using(v_sizes::proofs::SameWord::words))]
fn constant_of(frame: Frame, value: u128) -> Typed
    ensures { result ≡ constant frame.size frame.signed value }
{
    constant(frame.signed, low_bits(frame.size, value))
}

fn resized(word: Bits, signed: bool, size: u8) -> Bits
    requires least { 1 ≤ size }
    requires most { size ≤ 128 }
    ensures width { width_of result ≡ size }
    ensures value { value_of result ≡ resized size signed (width_of word) (value_of word) }
{
    if word.width() <= size {
        word.extend(size, signed)
    } else {
        word.cut(size)
    }
}

/// A constant carried to the context.
fn carried_constant(frame: Frame, word: Bits) -> Typed
    ensures { result ≡ constant frame.size frame.signed (resized frame.size frame.signed (width_of word) (value_of word)) }
{
    constant_of(frame, resized(word, frame.signed, frame.size).value())
}

/// An expression that is finished in its context.
fn closed_with(
    frame: Frame,
    typed: Typed,
    fault: Option<WidthErr>,
) -> Result<Boxed<Closed>, NoMemory>
    ensures { IfOk result (λ c. c ≡ closed_with typed frame.constant fault) }
{
    let closed = Closed {
        typed,
        constant: frame.constant,
        fault,
    };
    Boxed::new(frame.alloc, closed)
}

/// What has its width by itself.
#[inline(never)]
pub(crate) fn own(
    frame: Frame,
    width: u8,
    node: Node,
    fault: Option<WidthErr>,
) -> Result<Boxed<Closed>, NoMemory>
    ensures { IfOk result (λ c. c ≡ closed_with (own_typed frame.constant width frame.size frame.signed node) frame.constant fault) }
{
    let typed = if frame.constant {
        carried_constant(frame, word_of_node(&node))
    } else {
        with_width(frame.alloc, frame.size, sized(width, frame.signed, node))?
    };
    closed_with(frame, typed, fault)
}

/// The argument of a function that changes the sign.
#[inline(never)]
pub(crate) fn called(frame: Frame, e: Boxed<Closed>) -> Result<Boxed<Closed>, NoMemory>
    ensures { IfOk result (λ c. c ≡ called_closed frame.constant frame.size frame.signed e) }
{
    let Closed { typed, fault, .. } = e.into_inner();
    let typed = if frame.constant {
        carried_constant(frame, word_in(&typed))
    } else {
        let typed = with_sign(frame.alloc, frame.signed, typed)?;
        with_width(frame.alloc, frame.size, typed)?
    };
    closed_with(frame, typed, fault)
}

#[inline(never)]
pub(crate) fn unary(frame: Frame, op: UnaryOp, e: Boxed<Closed>) -> Result<Boxed<Closed>, NoMemory>
    ensures { IfOk result (λ c. c ≡ unary_closed op frame.constant frame.size frame.signed e) }
{
    let Closed { typed, fault, .. } = e.into_inner();
    let typed = if frame.constant {
        let word = fold::unary(op, low_in(frame.size, &typed));
        constant_of(frame, word.value())
    } else {
        let node = unary_node(frame.alloc, op, typed)?;
        sized(frame.size, frame.signed, node)
    };
    closed_with(frame, typed, fault)
}

/// The words of two operands in the context.
pub(crate) fn folded(frame: Frame, op: BinaryOp, left: &Typed, right: &Typed) -> Bits
    ensures { value_of result ≡ binary op frame.size frame.signed frame.signed (low frame.size left.now) (low frame.size right.now) }
{
    let one = Operand {
        word: low_in(frame.size, left),
        signed: frame.signed,
    };
    let other = Operand {
        word: low_in(frame.size, right),
        signed: frame.signed,
    };
    fold::binary(op, one, other)
}

#[inline(never)]
pub(crate) fn both(
    frame: Frame,
    op: BinaryOp,
    left: Boxed<Closed>,
    right: Boxed<Closed>,
) -> Result<Boxed<Closed>, NoMemory>
    ensures { IfOk result (λ c. c ≡ both_closed op frame.constant frame.size frame.signed left right) }
{
    let fault = left.fault.or(right.fault);
    let typed = if frame.constant {
        let word = folded(frame, op, &left.typed, &right.typed);
        constant_of(frame, word.value())
    } else {
        let node = binary_node(frame.alloc, op, typed_of(left), typed_of(right))?;
        sized(frame.size, frame.signed, node)
    };
    closed_with(frame, typed, fault)
}

fn division_fault(frame: Frame, span: Span, divisor: Bits) -> Option<WidthErr>
    ensures { result ≡ division_fault span frame.constant (value_of divisor) }
{
    if !frame.constant {
        Some(WidthErr::NotConstant(span))
    } else if !is_true(divisor) {
        Some(WidthErr::ZeroDivisor(span))
    } else {
        None
    }
}

#[inline(never)]
pub(crate) fn divided(
    frame: Frame,
    division: Division,
    left: Boxed<Closed>,
    right: Boxed<Closed>,
) -> Result<Boxed<Closed>, NoMemory>
    ensures { IfOk result (λ c. c ≡ divided_closed division.span division.remainder frame.constant frame.size frame.signed left right) }
{
    let one = low_in(frame.size, &left.typed);
    let other = low_in(frame.size, &right.typed);
    let word = if division.remainder {
        remainder(one, other, frame.signed)
    } else {
        quotient(one, other, frame.signed)
    };
    let own = division_fault(frame, division.span, other);
    let fault = left.fault.or(right.fault.or(own));
    closed_with(frame, constant_of(frame, word.value()), fault)
}

/// A shift of a constant.
fn shifted_word(op: BinaryOp, word: Bits, signed: bool, by: u128) -> Bits
    ensures { value_of result ≡ shifted_number op (width_of word) signed (value_of word) by }
{
    match op {
        BinaryOp::ShiftRight => word.shift_right(by),
        BinaryOp::ArithmeticShiftRight => {
            if signed {
                word.shift_right_signed(by)
            } else {
                word.shift_right(by)
            }
        }
        _ => word.shift_left(by),
    }
}

#[inline(never)]
pub(crate) fn shifted(
    frame: Frame,
    op: BinaryOp,
    left: Boxed<Closed>,
    right: Boxed<Closed>,
) -> Result<Boxed<Closed>, NoMemory>
    ensures { IfOk result (λ c. c ≡ shifted_closed op frame.constant frame.size frame.signed left right) }
{
    let fault = left.fault.or(right.fault);
    let typed = if frame.constant {
        let word = low_in(frame.size, &left.typed);
        let word = shifted_word(op, word, frame.signed, word_in(&right.typed).value());
        constant_of(frame, word.value())
    } else {
        let node = binary_node(frame.alloc, op, typed_of(left), typed_of(right))?;
        sized(frame.size, frame.signed, node)
    };
    closed_with(frame, typed, fault)
}

#[inline(never)]
pub(crate) fn raised(
    frame: Frame,
    base: Boxed<Closed>,
    exponent: u128,
    own: Option<WidthErr>,
) -> Result<Boxed<Closed>, NoMemory>
    ensures { IfOk result (λ c. c ≡ raised_closed exponent own frame.constant frame.size frame.signed base) }
{
    let word = power(low_in(frame.size, &base.typed), exponent);
    let fault = base.fault.or(own);
    closed_with(frame, constant_of(frame, word.value()), fault)
}

/// The one of two that a constant condition chooses.
fn taken(condition: Typed, yes: Typed, no: Typed) -> Typed
    ensures { result ≡ (if is_true (number_in condition) then yes else no) }
{
    if is_true(word_in(&condition)) {
        yes
    } else {
        no
    }
}

/// A conditional expression, or what a constant one is.
fn choice(frame: Frame, condition: Typed, yes: Typed, no: Typed) -> Result<Typed, NoMemory>
    ensures { IfOk result (λ t. t ≡ chosen_typed frame.constant frame.size frame.signed condition yes no) }
{
    if frame.constant {
        return Ok(taken(condition, yes, no));
    }
    let node = choose_node(frame.alloc, condition, yes, no)?;
    Ok(sized(frame.size, frame.signed, node))
}

#[inline(never)]
pub(crate) fn chosen(
    frame: Frame,
    condition: Boxed<Closed>,
    yes: Boxed<Closed>,
    no: Boxed<Closed>,
) -> Result<Boxed<Closed>, NoMemory>
    ensures { IfOk result (λ c. c ≡ chosen_closed frame.constant frame.size frame.signed condition yes no) }
{
    let fault = condition.fault.or(yes.fault.or(no.fault));
    let typed = choice(frame, typed_of(condition), typed_of(yes), typed_of(no))?;
    closed_with(frame, typed, fault)
}
