ghost use Rattle.std.specs.Prelude.{◌≡◌, ℕ, ◌+◌, ◌≤◌, ◌<◌, ◌^◌, length, map, if◌then◌else◌, IsTrue};
ghost use Rattle.std.specs.Ordering.{int_eq};
ghost use Rattle.loc_base.specs.Bits.{width_of, value_of};
ghost use Rattle.design_core.specs.Operator.{is_true, one_if, unary, binary};
ghost use Rattle.design_core.specs.Valuation.{bit, number};
ghost use Rattle.design_core.specs.WellFormed.{is_width, unary_fits, binary_fits};
ghost use Rattle.word_net.specs.Fits.{OperandFits};
ghost use Rattle.word_net.specs.Selects.{picked_bit, put_bits, put_picked};
ghost use Rattle.word_net.specs.Values.{index_read, range_of, read};
ghost use Rattle.plain_values.specs.Evaluate.{takes};

use crate::bits::{blended, is_number};
use crate::select::{Index, Ranged};
use design_core::{BinaryOp, UnaryOp};
use loc_base::Bits;
use plain_values::{binary, replaced, unary};
use word_net::{Operand, Select};

/// Bits of a word that are replaced: so many from a position on.
#[derive(Clone, Copy)]
pub(crate) struct Run {
    pub(crate) from: u8,
    pub(crate) size: u8,
}

/// What is stored: the bits of a node from a position on.
#[derive(Clone, Copy)]
pub(crate) struct Stored {
    pub(crate) word: Operand,
    pub(crate) offset: u8,
}

/// What an operand reads.
#[tactic(auto, using(crate::proofs::Words::read_steps))]
pub(crate) fn read(known: &[Bits], operand: Operand) -> Bits
    requires { OperandFits (map width_of known.now) operand }
    ensures width { width_of result ≡ operand.width }
    ensures value { value_of result ≡ read (map value_of known.now) operand }
{
    known[operand.node as usize]
}

/// A word whose bits are read or stored by a variable index.
fn ranged(word: Bits, select: &Select) -> Ranged
    ensures { result ≡ record { word = word; left = select.now.left; right = select.now.right } }
{
    Ranged {
        word,
        left: select.left,
        right: select.right,
    }
}

/// The index of a select.
fn index(known: &[Bits], select: &Select) -> Index
    requires { OperandFits (map width_of known.now) select.now.index }
    ensures width { width_of result.word ≡ select.now.index.width }
    ensures value { value_of result.word ≡ read (map value_of known.now) select.now.index }
    ensures signed { result.signed ≡ select.now.index.signed }
{
    Index {
        word: read(known, select.index),
        signed: select.index.signed,
    }
}

/// A unary operator.
pub(crate) fn of_unary(known: &[Bits], op: UnaryOp, arg: Operand) -> Bits
    requires { OperandFits (map width_of known.now) arg }
    ensures width { (width : ℕ) → IsTrue (unary_fits op width arg.width) → width_of result ≡ width }
    ensures value { value_of result ≡ unary op arg.width (read (map value_of known.now) arg) }
{
    unary(op, read(known, arg))
}

/// A binary operator.
pub(crate) fn of_binary(known: &[Bits], op: BinaryOp, left: Operand, right: Operand) -> Bits
    requires left { OperandFits (map width_of known.now) left }
    requires right { OperandFits (map width_of known.now) right }
    requires takes { IsTrue (takes op left.width right.width) }
    ensures width { (width : ℕ) → IsTrue (binary_fits op width left.width right.width) → width_of result ≡ width }
    ensures value { value_of result ≡ binary op left.width left.signed right.signed (read (map value_of known.now) left) (read (map value_of known.now) right) }
{
    let one = read(known, left);
    let other = read(known, right);
    binary(op, one, left.signed, other, right.signed)
}

/// One of two words of the same width.
pub(crate) fn of_choice(known: &[Bits], cond: Operand, yes: Operand, no: Operand) -> Bits
    requires cond { OperandFits (map width_of known.now) cond }
    requires on_true { OperandFits (map width_of known.now) yes }
    requires on_false { OperandFits (map width_of known.now) no }
    requires alike { yes.width ≡ no.width }
    ensures width { width_of result ≡ no.width }
    ensures value { value_of result
        ≡ (if is_true (read (map value_of known.now) cond) then read (map value_of known.now) yes else read (map value_of known.now) no) }
{
    if read(known, cond).value() != 0 {
        read(known, yes)
    } else {
        read(known, no)
    }
}

/// Bits by a variable index.
pub(crate) fn of_pick(known: &[Bits], word: Operand, select: &Select) -> Bits
    requires word { OperandFits (map width_of known.now) word }
    requires index { OperandFits (map width_of known.now) select.now.index }
    requires offsets { IsTrue (is_width (length select.now.offsets)) }
    ensures width { width_of result ≡ length select.now.offsets }
    ensures value { value_of result ≡ number (length select.now.offsets)
        (picked_bit (range_of word select.now) (bit (read (map value_of known.now) word)) (index_read (map value_of known.now) select.now.index) select.now.offsets) }
{
    let word = ranged(read(known, word), select);
    word.picked(index(known, select), select.offsets.as_slice())
}

/// Whether an index is a number.
pub(crate) fn of_is(known: &[Bits], index: Operand, number: i64) -> Bits
    requires { OperandFits (map width_of known.now) index }
    ensures width { width_of result ≡ 1 }
    ensures value { value_of result ≡ one_if (int_eq (index_read (map value_of known.now) index) number) }
{
    Bits::from_bool(is_number(read(known, index), index.signed, number))
}

/// A word of which some bits are replaced.
pub(crate) fn of_put(known: &[Bits], old: Operand, run: Run, stored: Stored) -> Bits
    requires old { OperandFits (map width_of known.now) old }
    requires word { OperandFits (map width_of known.now) stored.word }
    requires within { run.from + run.size ≤ old.width }
    ensures width { width_of result ≡ old.width }
    ensures value { value_of result ≡ number old.width
        (put_bits (bit (read (map value_of known.now) old)) run.from run.size (λ b. bit (read (map value_of known.now) stored.word) (stored.offset + b))) }
{
    let bits = read(known, stored.word).shift_right(u128::from(stored.offset));
    replaced(read(known, old), run.from, run.size, bits)
}

/// A word of which bits by a variable index are replaced.
pub(crate) fn of_put_pick(known: &[Bits], old: Operand, select: &Select, stored: Stored) -> Bits
    requires old { OperandFits (map width_of known.now) old }
    requires index { OperandFits (map width_of known.now) select.now.index }
    requires word { OperandFits (map width_of known.now) stored.word }
    ensures width { width_of result ≡ old.width }
    ensures value { value_of result ≡ number old.width
        (put_picked (range_of old select.now) (bit (read (map value_of known.now) old)) (index_read (map value_of known.now) select.now.index) 0 select.now.offsets
        (λ b. bit (read (map value_of known.now) stored.word) (stored.offset + b))) }
{
    let word = ranged(read(known, old), select);
    let bits = read(known, stored.word).shift_right(u128::from(stored.offset));
    word.put(index(known, select), select.offsets.as_slice(), bits)
}

/// The bits of one word where a mask has 1, else those of another.
pub(crate) fn of_blend(known: &[Bits], mask: u128, one: Operand, other: Operand) -> Bits
    requires one { OperandFits (map width_of known.now) one }
    requires other { OperandFits (map width_of known.now) other }
    requires alike { one.width ≡ other.width }
    requires mask { mask < 2 ^ other.width }
    ensures width { width_of result ≡ other.width }
    ensures value { value_of result ≡ number other.width
        (λ b. if bit mask b then bit (read (map value_of known.now) one) b else bit (read (map value_of known.now) other) b) }
{
    blended(mask, read(known, one), read(known, other))
}
