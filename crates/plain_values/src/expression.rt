ghost use Rattle.std.specs.Prelude.{◌≡◌, ◌*◌, ◌<◌, ◌≤◌, length, IsTrue};
ghost use Rattle.design_core.specs.Operator.{is_true};
ghost use Rattle.std.specs.List.{list_all};
ghost use Rattle.loc_base.specs.Bits.{width_of, value_of};
ghost use Rattle.design_core.specs.Value.{value};
ghost use Rattle.design_core.specs.WellFormed.{typed_fits};
ghost use Rattle.design_core.specs.Words.{valuation_of, AreWordsOf};
ghost use Rattle.plain_values.specs.Evaluate.{is_select, join_parts, parts_sum};

use crate::operator::{binary, repeated, resized, unary};
use crate::select::{array_word, picked};
use crate::words::{is_true, word_at};
use design_core::{BinaryOp, Node, Signal, Typed, UnaryOp};
use loc_base::Bits;

/// The value of an expression (IEEE 1364-2005, clause 5) where the signals have these words. The word has the width
/// of the expression. Takes no memory. Most operands are constants and whole signals, and take no further call.
#[cycle(value)]
#[inline(always)]
pub fn value(signals: &[Signal], words: &[Bits], e: &Typed) -> Bits
    requires words { AreWordsOf signals.now words.now }
    requires fits { IsTrue (typed_fits signals.now e.now) }
    ensures width { width_of result ≡ e.now.width }
    ensures value { value_of result ≡ value signals.now (valuation_of words.now) e.now }
{
    match &e.node {
        Node::Const(word) => *word,
        Node::Whole(signal) => word_at(words, *signal as usize),
        _ => computed(signals, words, e),
    }
}

/// The value of an expression, by what its node is.
#[cycle(value)]
#[inline(never)]
fn computed(signals: &[Signal], words: &[Bits], e: &Typed) -> Bits
    requires words { AreWordsOf signals.now words.now }
    requires fits { IsTrue (typed_fits signals.now e.now) }
    ensures width { width_of result ≡ e.now.width }
    ensures value { value_of result ≡ value signals.now (valuation_of words.now) e.now }
{
    match &e.node {
        Node::Const(word) => *word,
        Node::Whole(signal) => word_at(words, *signal as usize),
        Node::Slice {
            signal,
            from,
            width,
        } => word_at(words, *signal as usize).part(*from, *width),
        Node::Pick { .. } | Node::Word { .. } => selected(signals, words, e),
        Node::Unary { op, arg } => unary(*op, value(signals, words, arg)),
        Node::Binary { op, left, right } => {
            let low = value(signals, words, right);
            let high = value(signals, words, left);
            binary(*op, high, left.signed, low, right.signed)
        }
        Node::Choose { cond, yes, no } => {
            if holds(signals, words, cond) {
                value(signals, words, yes)
            } else {
                value(signals, words, no)
            }
        }
        Node::Join(parts) => joined(signals, words, parts),
        Node::Repeat { times, part } => repeated(*times, value(signals, words, part)),
        Node::Resize(arg) => resized(value(signals, words, arg), arg.signed, e.width),
    }
}

/// Bits of a signal or of a word of an array by a variable index (IEEE 1364-2005, 5.2.1 and 5.2.2).
#[cycle(value)]
fn selected(signals: &[Signal], words: &[Bits], e: &Typed) -> Bits
    requires words { AreWordsOf signals.now words.now }
    requires fits { IsTrue (typed_fits signals.now e.now) }
    requires selects { IsTrue (is_select e.now.node) }
    ensures width { width_of result ≡ e.now.width }
    ensures value { value_of result ≡ value signals.now (valuation_of words.now) e.now }
{
    match &e.node {
        Node::Pick {
            signal,
            index,
            offsets,
        } => {
            let at = value(signals, words, index);
            picked(signals, words, *signal as usize, at, index.signed, offsets)
        }
        Node::Word {
            first,
            count,
            low,
            index,
            from,
            width,
        } => {
            let at = value(signals, words, index);
            match array_word(*first, *count, *low, at, index.signed) {
                Some(signal) => word_at(words, signal).part(*from, *width),
                None => Bits::zero(*width),
            }
        }
        _ => unreachable!(),
    }
}

/// A concatenation of at least one part, the parts from the left.
#[cycle(value)]
fn joined(signals: &[Signal], words: &[Bits], parts: &[Typed]) -> Bits
    requires words { AreWordsOf signals.now words.now }
    requires fits { IsTrue (list_all (typed_fits signals.now) parts.now) }
    requires some { 0 < length parts.now }
    requires width { parts_sum parts.now ≤ 128 }
    ensures width { width_of result ≡ parts_sum parts.now }
    ensures value { value_of result ≡ join_parts signals.now (valuation_of words.now) 0 parts.now }
{
    let mut word = value(signals, words, &parts[0]);
    for part in &parts[1..] {
        word = word.join(value(signals, words, part));
    }
    word
}

/// Whether the value of an expression is not 0. The tests that conditions are made of need no word of their result, and the
/// right operand of `&&` and `||` counts only where the left one doesn't decide.
#[cycle(value)]
pub(crate) fn holds(signals: &[Signal], words: &[Bits], e: &Typed) -> bool
    requires words { AreWordsOf signals.now words.now }
    requires fits { IsTrue (typed_fits signals.now e.now) }
    ensures { result ≡ is_true (value signals.now (valuation_of words.now) e.now) }
{
    match &e.node {
        Node::Unary { op, arg } => match op {
            UnaryOp::LogicalNot => !holds(signals, words, arg),
            _ => is_true(value(signals, words, e)),
        },
        Node::Binary { op, left, right } => match op {
            BinaryOp::Equal => {
                value(signals, words, left).value() == value(signals, words, right).value()
            }
            BinaryOp::NotEqual => {
                value(signals, words, left).value() != value(signals, words, right).value()
            }
            BinaryOp::LogicalAnd => holds(signals, words, left) && holds(signals, words, right),
            BinaryOp::LogicalOr => holds(signals, words, left) || holds(signals, words, right),
            _ => is_true(value(signals, words, e)),
        },
        _ => is_true(value(signals, words, e)),
    }
}
