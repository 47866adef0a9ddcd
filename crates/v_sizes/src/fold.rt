//! The operators of sized expressions on words (IEEE 1364-2005, 5.1).
ghost use Rattle.std.specs.Prelude.{◌≡◌, ℕ, ◌%◌, ◌*◌, ◌≤◌, ◌||◌, IsTrue, count_ones};
ghost use Rattle.loc_base.specs.Bits.{width_of, value_of};
ghost use Rattle.design_core.specs.Operator.{one_if, unary, binary, is_less};
ghost use Rattle.design_core.specs.WellFormed.{unary_fits, binary_fits};

use crate::numbers::{flag, is_full, is_true};
use design_core::{BinaryOp, UnaryOp};
use loc_base::Bits;

/// Whether the number of bits that are 1 is odd.
fn is_odd(word: Bits) -> bool
    ensures { one_if result ≡ count_ones (value_of word) % 2 }
{
    word.value().count_ones() % 2 == 1
}

/// A unary operator (IEEE 1364-2005, 5.1).
pub fn unary(op: UnaryOp, word: Bits) -> Bits
    ensures width { (width : ℕ) → IsTrue (unary_fits op width (width_of word)) → width_of result ≡ width }
    ensures value { value_of result ≡ unary op (width_of word) (value_of word) }
{
    match op {
        UnaryOp::Plus => word,
        UnaryOp::Minus => Bits::zero(word.width()).sub(word),
        UnaryOp::LogicalNot => flag(!is_true(word)),
        UnaryOp::Not => word.not(),
        UnaryOp::ReduceAnd => flag(is_full(word)),
        UnaryOp::ReduceNand => flag(!is_full(word)),
        UnaryOp::ReduceOr => flag(is_true(word)),
        UnaryOp::ReduceNor => flag(!is_true(word)),
        UnaryOp::ReduceXor => flag(is_odd(word)),
        UnaryOp::ReduceXnor => flag(!is_odd(word)),
    }
}

/// Whether one word is less than another of its width.
fn is_less(signed: bool, left: Bits, right: Bits) -> bool
    requires { width_of left ≡ width_of right }
    ensures { result ≡ is_less signed (width_of left) (value_of left) (value_of right) }
{
    if signed {
        left.less_signed(right)
    } else {
        left.less(right)
    }
}

/// A word with its sign.
#[derive(Clone, Copy)]
pub struct Operand {
    pub word: Bits,
    pub signed: bool,
}

/// A binary operator (IEEE 1364-2005, 5.1). Shifts and comparisons go by the operands' signs.
pub fn binary(op: BinaryOp, one: Operand, other: Operand) -> Bits
    requires { IsTrue (binary_fits op (width_of one.word) (width_of one.word) (width_of other.word) || binary_fits op 1 (width_of one.word) (width_of other.word)) }
    ensures width { (width : ℕ) → IsTrue (binary_fits op width (width_of one.word) (width_of other.word)) → width_of result ≡ width }
    ensures value { value_of result ≡ binary op (width_of one.word) one.signed other.signed (value_of one.word) (value_of other.word) }
{
    let left = one.word;
    let right = other.word;
    let signed = one.signed && other.signed;
    match op {
        BinaryOp::Add => left.add(right),
        BinaryOp::Subtract => left.sub(right),
        BinaryOp::Multiply => left.mul(right),
        BinaryOp::And => left.and(right),
        BinaryOp::Or => left.or(right),
        BinaryOp::Xor => left.xor(right),
        BinaryOp::Xnor => left.xor(right).not(),
        BinaryOp::ShiftLeft | BinaryOp::ArithmeticShiftLeft => left.shift_left(right.value()),
        BinaryOp::ShiftRight => left.shift_right(right.value()),
        BinaryOp::ArithmeticShiftRight => {
            if one.signed {
                left.shift_right_signed(right.value())
            } else {
                left.shift_right(right.value())
            }
        }
        BinaryOp::Less => flag(is_less(signed, left, right)),
        BinaryOp::LessEqual => flag(!is_less(signed, right, left)),
        BinaryOp::Greater => flag(is_less(signed, right, left)),
        BinaryOp::GreaterEqual => flag(!is_less(signed, left, right)),
        BinaryOp::Equal => flag(left.value() == right.value()),
        BinaryOp::NotEqual => flag(left.value() != right.value()),
        BinaryOp::LogicalAnd => flag(is_true(left) && is_true(right)),
        BinaryOp::LogicalOr => flag(is_true(left) || is_true(right)),
    }
}
