//! What the operators on words share.
ghost use Rattle.std.specs.Prelude.{◌≡◌, ◌==◌, ◌%◌, ◌^◌, ◌≤◌};
ghost use Rattle.loc_base.specs.Bits.{width_of, value_of};
ghost use Rattle.loc_base.specs.Word.{is_negative};
ghost use Rattle.design_core.specs.Operator.{one_if, is_true, all_ones, integer_of};
ghost use Rattle.v_sizes.specs.Literal.{limited};
ghost use Rattle.v_sizes.specs.Operations.{is_below_0, magnitude, word_of};

use loc_base::Bits;

/// A width, and what counts as one where it isn't 1 to 128.
pub fn limited(width: u8) -> u8
    ensures { result ≡ limited width }
{
    width.min(128).max(1)
}

/// One bit: 1 where it holds.
pub fn flag(holds: bool) -> Bits
    ensures width { width_of result ≡ 1 }
    ensures value { value_of result ≡ one_if holds }
{
    Bits::from_bool(holds)
}

/// Whether a word is not 0.
pub fn is_true(word: Bits) -> bool
    ensures { result ≡ is_true (value_of word) }
{
    word.value() != 0
}

/// Whether all bits of a word are 1.
pub fn is_full(word: Bits) -> bool
    ensures { result ≡ (value_of word == all_ones (width_of word)) }
{
    word.not().value() == 0
}

/// Whether the highest bit of a word is 1.
fn is_negative(word: Bits) -> bool
    ensures { result ≡ is_negative (width_of word) (value_of word) }
{
    word.value() >= 1 << (word.width() - 1)
}

/// Whether the whole number that a word means is below 0.
#[tactic(auto, using(crate::proofs::Integers::signs))]
pub fn is_below_0(word: Bits, signed: bool) -> bool
    ensures { result ≡ is_below_0 (integer_of signed (width_of word) (value_of word)) }
{
    if signed { is_negative(word) } else { false }
}

/// How far the whole number that a word means lies from 0.
#[tactic(auto, using(crate::proofs::Integers::distances))]
pub fn magnitude(word: Bits, signed: bool) -> u128
    ensures { result ≡ magnitude (integer_of signed (width_of word) (value_of word)) }
{
    if is_below_0(word, signed) {
        word.not().value() + 1
    } else {
        word.value()
    }
}

/// The low bits of a number.
pub fn low_bits(width: u8, value: u128) -> Bits
    requires least { 1 ≤ width }
    requires most { width ≤ 128 }
    ensures width { width_of result ≡ width }
    ensures value { value_of result ≡ value % 2 ^ width }
{
    Bits::new(128, value).unwrap().cut(width)
}

/// The word of a whole number that lies so far from 0.
#[tactic(auto, using(crate::proofs::Integers::opposites))]
pub fn word_of(width: u8, negative: bool, distance: u128) -> Bits
    requires least { 1 ≤ width }
    requires most { width ≤ 128 }
    ensures width { width_of result ≡ width }
    ensures value { value_of result ≡ word_of width negative distance }
{
    let low = low_bits(width, distance);
    if negative {
        Bits::zero(width).sub(low)
    } else {
        low
    }
}
