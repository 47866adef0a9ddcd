ghost use Rattle.std.specs.Prelude.{◌≡◌, ◌==◌, ◌+◌};
ghost use Rattle.std.specs.List.{list_all};
ghost use Rattle.design_core.specs.Valuation.{distance_of};
ghost use Rattle.design_core.specs.WellFormed.{is_width, spans, signal_fits, is_signal, slice_fits, words_fit, unary_fits, binary_fits, same_sign, signs_fit};

use design_core::{BinaryOp, Signal, UnaryOp};
use plain_values::{distance_of, width_at};

/// Whether a width is one of 1 to 128 bits.
pub(crate) fn is_width(width: usize) -> bool
    ensures { result ≡ is_width width }
{
    1 <= width && width <= 128
}

/// Whether a range has as many positions as a signal has bits.
fn spans(width: u8, left: i32, right: i32) -> bool
    ensures { result ≡ spans width (distance_of left right left) }
{
    let distance = distance_of(left, right, i64::from(left));
    0 <= distance && distance + 1 == i64::from(width)
}

/// Whether a signal's range and start value have its width.
pub(crate) fn signal_fits(signal: &Signal) -> bool
    ensures { result ≡ signal_fits signal.now }
{
    is_width(usize::from(signal.width))
        && spans(signal.width, signal.left, signal.right)
        && signal.start.width() == signal.width
}

/// Whether a number is that of a signal.
pub(crate) fn is_signal(signals: &[Signal], s: u32) -> bool
    ensures { result ≡ is_signal signals.now s }
{
    (s as usize) < signals.len()
}

/// Whether a signal has `width` bits from a position on.
pub(crate) fn slice_fits(signals: &[Signal], s: u32, from: u8, width: u8) -> bool
    ensures { result ≡ slice_fits signals.now s from width }
{
    is_signal(signals, s)
        && is_width(usize::from(width))
        && usize::from(from) + usize::from(width) <= usize::from(width_at(signals, s as usize))
}

/// Whether some signals are of one width.
fn are_of_width(signals: &[Signal], width: u8) -> bool
    ensures { result ≡ list_all (λ s. s.width == width) signals.now }
{
    signals.iter().all(|signal| signal.width == width)
}

/// Whether the words of an array have `width` bits from a position on.
pub(crate) fn words_fit(signals: &[Signal], first: u32, count: u32, from: u8, width: u8) -> bool
    ensures { result ≡ words_fit signals.now first count from width }
{
    let start = first as usize;
    let end = start + count as usize;
    1 <= count
        && end <= signals.len()
        && slice_fits(signals, first, from, width)
        && are_of_width(&signals[start..end], width_at(signals, start))
}

/// Whether the width of an operator's result stands beside that of its operand.
pub fn unary_fits(op: UnaryOp, width: u8, arg: u8) -> bool
    ensures { result ≡ unary_fits op width arg }
{
    match op {
        UnaryOp::Plus | UnaryOp::Minus | UnaryOp::Not => width == arg,
        UnaryOp::LogicalNot
        | UnaryOp::ReduceAnd
        | UnaryOp::ReduceNand
        | UnaryOp::ReduceOr
        | UnaryOp::ReduceNor
        | UnaryOp::ReduceXor
        | UnaryOp::ReduceXnor => width == 1,
    }
}

/// Whether the width of an operator's result stands beside those of its operands.
pub fn binary_fits(op: BinaryOp, width: u8, left: u8, right: u8) -> bool
    ensures { result ≡ binary_fits op width left right }
{
    match op {
        BinaryOp::Add
        | BinaryOp::Subtract
        | BinaryOp::Multiply
        | BinaryOp::And
        | BinaryOp::Or
        | BinaryOp::Xor
        | BinaryOp::Xnor => width == left && width == right,
        BinaryOp::ShiftLeft
        | BinaryOp::ShiftRight
        | BinaryOp::ArithmeticShiftLeft
        | BinaryOp::ArithmeticShiftRight => width == left,
        BinaryOp::Less
        | BinaryOp::LessEqual
        | BinaryOp::Greater
        | BinaryOp::GreaterEqual
        | BinaryOp::Equal
        | BinaryOp::NotEqual => width == 1 && left == right,
        BinaryOp::LogicalAnd | BinaryOp::LogicalOr => width == 1,
    }
}

/// Whether two signs are one.
fn same_sign(one: bool, other: bool) -> bool
    ensures { result ≡ same_sign one other }
{
    if one { other } else { !other }
}

/// Whether the sign of an operator's result stands beside those of its operands.
pub(crate) fn signs_fit(op: BinaryOp, signed: bool, left: bool, right: bool) -> bool
    ensures { result ≡ signs_fit op signed left right }
{
    match op {
        BinaryOp::ArithmeticShiftRight => same_sign(signed, left),
        BinaryOp::Less
        | BinaryOp::LessEqual
        | BinaryOp::Greater
        | BinaryOp::GreaterEqual
        | BinaryOp::Equal
        | BinaryOp::NotEqual => same_sign(left, right),
        BinaryOp::Add
        | BinaryOp::Subtract
        | BinaryOp::Multiply
        | BinaryOp::And
        | BinaryOp::Or
        | BinaryOp::Xor
        | BinaryOp::Xnor
        | BinaryOp::ShiftLeft
        | BinaryOp::ShiftRight
        | BinaryOp::ArithmeticShiftLeft
        | BinaryOp::LogicalAnd
        | BinaryOp::LogicalOr => true,
    }
}
