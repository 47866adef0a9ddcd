ghost use Rattle.std.specs.Prelude.{◌≡◌, ◌==◌, ◌&&◌, ◌*◌};
ghost use Rattle.std.specs.List.{list_all};
ghost use Rattle.design_core.specs.Valuation.{width_at};
ghost use Rattle.design_core.specs.WellFormed.{is_signal, binary_fits, signs_fit, typed_fits};
ghost use Rattle.plain_values.specs.Evaluate.{parts_sum};
ghost use Rattle.design_fits.specs.Fits.{own_fits, operands_fit};

use crate::widths::{
    binary_fits, is_signal, is_width, signs_fit, slice_fits, unary_fits, words_fit,
};
use design_core::{BinaryOp, Node, Signal, Typed};
use plain_values::width_at;

/// Whether some parts have together a number of bits.
fn parts_fill(parts: &[Typed], width: u8) -> bool
    ensures { result ≡ (parts_sum parts.now == width) }
{
    let mut left = width;
    for part in parts {
        if left < part.width {
            return false;
        }
        left -= part.width;
    }
    left == 0
}

/// Whether a number is that of a signal of a width.
fn has_width(signals: &[Signal], s: u32, width: u8) -> bool
    ensures { result ≡ (is_signal signals.now s && width_at signals.now s == width) }
{
    is_signal(signals, s) && width_at(signals, s as usize) == width
}

/// Whether the width and the sign of an operator's result stand beside those of its operands.
fn operator_fits(op: BinaryOp, e: &Typed, left: &Typed, right: &Typed) -> bool
    ensures { result ≡ (binary_fits op e.now.width left.now.width right.now.width && signs_fit op e.now.signed left.now.signed right.now.signed) }
{
    binary_fits(op, e.width, left.width, right.width)
        && signs_fit(op, e.signed, left.signed, right.signed)
}

/// Whether a part so many times over has a width.
fn is_repeated(times: u8, part: &Typed, width: u8) -> bool
    ensures { result ≡ (times * part.now.width == width) }
{
    usize::from(times) * usize::from(part.width) == usize::from(width)
}

/// Whether an expression has the width that it says, and a sign that its operator can have.
#[cycle(typed)]
pub(crate) fn typed_fits(signals: &[Signal], e: &Typed) -> bool
    ensures { result ≡ typed_fits signals.now e.now }
{
    own_fits(signals, e) & operands_fit(signals, &e.node)
}

/// Whether an expression's width and sign stand beside those of its operands.
fn own_fits(signals: &[Signal], e: &Typed) -> bool
    ensures { result ≡ own_fits signals.now e.now.width e.now.signed e.now.node }
{
    let width = e.width;
    let sized = is_width(usize::from(width));
    match &e.node {
        Node::Const(word) => sized && word.width() == width,
        Node::Whole(signal) => sized && has_width(signals, *signal, width),
        Node::Slice {
            signal,
            from,
            width: size,
        } => slice_fits(signals, *signal, *from, *size) && *size == width,
        Node::Pick {
            signal,
            offsets,
            ..
        } => sized && is_signal(signals, *signal) && offsets.len() == usize::from(width),
        Node::Word {
            first,
            count,
            from,
            width: size,
            ..
        } => words_fit(signals, *first, *count, *from, *size) && *size == width,
        Node::Unary { op, arg } => sized & unary_fits(*op, width, arg.width),
        Node::Binary { op, left, right } => sized & operator_fits(*op, e, left, right),
        Node::Choose { yes, no, .. } => (width == yes.width) & (width == no.width),
        Node::Join(parts) => sized & parts_fill(parts, width),
        Node::Repeat { times, part } => sized & is_repeated(*times, part, width),
        Node::Resize(_) => sized,
    }
}

/// Whether the operands of a node fit.
#[cycle(typed)]
fn operands_fit(signals: &[Signal], node: &Node) -> bool
    ensures { result ≡ operands_fit signals.now node.now }
{
    match node {
        Node::Const(_) | Node::Whole(_) | Node::Slice { .. } => true,
        Node::Pick { index, .. } => typed_fits(signals, index),
        Node::Word { index, .. } => typed_fits(signals, index),
        Node::Unary { arg, .. } => typed_fits(signals, arg),
        Node::Binary { left, right, .. } => typed_fits(signals, left) & typed_fits(signals, right),
        Node::Choose { cond, yes, no } => {
            typed_fits(signals, cond) & typed_fits(signals, yes) & typed_fits(signals, no)
        }
        Node::Join(parts) => all_fit(signals, parts),
        Node::Repeat { part, .. } => typed_fits(signals, part),
        Node::Resize(arg) => typed_fits(signals, arg),
    }
}

/// Whether all of some expressions have the widths and signs that they say.
#[cycle(typed)]
fn all_fit(signals: &[Signal], parts: &[Typed]) -> bool
    ensures { result ≡ list_all (typed_fits signals.now) parts.now }
{
    for part in parts {
        if !typed_fits(signals, part) {
            return false;
        }
    }
    true
}
