ghost use Rattle.std.specs.Prelude.{◌≡◌, ℕ, ◌%◌, ◌*◌, ◌≤◌, IsTrue, count_ones};
ghost use Rattle.loc_base.specs.Bits.{width_of, value_of};
ghost use Rattle.design_core.specs.Operator.{one_if, unary, binary, is_less, repeated, resized};
ghost use Rattle.design_core.specs.WellFormed.{unary_fits, binary_fits};
ghost use Rattle.plain_values.specs.Evaluate.{takes};

use crate::words::{is_full, is_true};
use design_core::{BinaryOp, UnaryOp};
use loc_base::Bits;

/// Whether the number of bits that are 1 is odd.
fn is_odd(word: Bits) -> bool
    ensures { one_if result ≡ count_ones (value_of word) % 2 }
{
    word.value().count_ones() % 2 == 1
}

/// A unary operator (IEEE 1364-2005, 5.1).
pub fn unary(op: UnaryOp, word: Bits) -> Bits
    ensures width { (width : ℕ) → IsTrue (unary_fits op width (width_of word)) → width_of result ≡ width }
    ensures value { value_of result ≡ unary op (width_of word) (value_of word) }
{
    match op {
        UnaryOp::Plus => word,
        UnaryOp::Minus => Bits::zero(word.width()).sub(word),
        UnaryOp::LogicalNot => Bits::from_bool(!is_true(word)),
        UnaryOp::Not => word.not(),
        UnaryOp::ReduceAnd => Bits::from_bool(is_full(word)),
        UnaryOp::ReduceNand => Bits::from_bool(!is_full(word)),
        UnaryOp::ReduceOr => Bits::from_bool(is_true(word)),
        UnaryOp::ReduceNor => Bits::from_bool(!is_true(word)),
        UnaryOp::ReduceXor => Bits::from_bool(is_odd(word)),
        UnaryOp::ReduceXnor => Bits::from_bool(!is_odd(word)),
    }
}

/// Whether one word is less than another of its width.
fn is_less(signed: bool, left: Bits, right: Bits) -> bool
    requires { width_of left ≡ width_of right }
    ensures { result ≡ is_less signed (width_of left) (value_of left) (value_of right) }
{
    if signed {
        left.less_signed(right)
    } else {
        left.less(right)
    }
}

/// A binary operator (IEEE 1364-2005, 5.1). Shifts and comparisons go by the operands' signs.
pub fn binary(op: BinaryOp, left: Bits, left_signed: bool, right: Bits, right_signed: bool) -> Bits
    requires { IsTrue (takes op (width_of left) (width_of right)) }
    ensures width { (width : ℕ) → IsTrue (binary_fits op width (width_of left) (width_of right)) → width_of result ≡ width }
    ensures value { value_of result ≡ binary op (width_of left) left_signed right_signed (value_of left) (value_of right) }
{
    let signed = left_signed && right_signed;
    match op {
        BinaryOp::Add => left.add(right),
        BinaryOp::Subtract => left.sub(right),
        BinaryOp::Multiply => left.mul(right),
        BinaryOp::And => left.and(right),
        BinaryOp::Or => left.or(right),
        BinaryOp::Xor => left.xor(right),
        BinaryOp::Xnor => left.xor(right).not(),
        BinaryOp::ShiftLeft | BinaryOp::ArithmeticShiftLeft => left.shift_left(right.value()),
        BinaryOp::ShiftRight => left.shift_right(right.value()),
        BinaryOp::ArithmeticShiftRight => {
            if left_signed {
                left.shift_right_signed(right.value())
            } else {
                left.shift_right(right.value())
            }
        }
        BinaryOp::Less => Bits::from_bool(is_less(signed, left, right)),
        BinaryOp::LessEqual => Bits::from_bool(!is_less(signed, right, left)),
        BinaryOp::Greater => Bits::from_bool(is_less(signed, right, left)),
        BinaryOp::GreaterEqual => Bits::from_bool(!is_less(signed, left, right)),
        BinaryOp::Equal => Bits::from_bool(left.value() == right.value()),
        BinaryOp::NotEqual => Bits::from_bool(left.value() != right.value()),
        BinaryOp::LogicalAnd => Bits::from_bool(is_true(left) && is_true(right)),
        BinaryOp::LogicalOr => Bits::from_bool(is_true(left) || is_true(right)),
    }
}

/// A word a number of times, one after another (IEEE 1364-2005, 5.1.14).
pub fn repeated(times: u8, part: Bits) -> Bits
    requires some { 1 ≤ times }
    requires fits { times * width_of part ≤ 128 }
    ensures width { width_of result ≡ times * width_of part }
    ensures value { value_of result ≡ repeated times (width_of part) (value_of part) }
{
    let mut word = part;
    for _ in 1..times {
        word = word.join(part);
    }
    word
}

/// A word extended by its sign, or cut, to a width (IEEE 1364-2005, 5.5.3).
pub fn resized(word: Bits, signed: bool, width: u8) -> Bits
    requires least { 1 ≤ width }
    requires most { width ≤ 128 }
    ensures width { width_of result ≡ width }
    ensures value { value_of result ≡ resized width signed (width_of word) (value_of word) }
{
    if word.width() <= width {
        word.extend(width, signed)
    } else {
        word.cut(width)
    }
}
