ghost use Rattle.std.specs.Prelude.{◌≡◌, ◌+◌, ◌^◌, ◌<◌, ◌≤ℤ◌, ◌+ℤ◌, pos, neg_ℤ, length, IsTrue, if◌then◌else◌};
ghost use Rattle.loc_base.specs.Bits.{width_of, value_of, bit_of};
ghost use Rattle.design_core.specs.Operator.{integer_of};
ghost use Rattle.design_core.specs.Valuation.{place_within, distance_of, position_of, word_at, number, bit, bit_or_zero};
ghost use Rattle.design_core.specs.Value.{picked};
ghost use Rattle.design_core.specs.WellFormed.{is_width};
ghost use Rattle.design_core.specs.Words.{valuation_of, AreWordsOf};
ghost use Rattle.plain_values.specs.Evaluate.{near_of};

use crate::signals::signal_at;
use crate::words::{is_negative, word_at};
use design_core::Signal;
use loc_base::Bits;

/// Every index that is named by a range and an offset of 32 bits lies below this, and above its negation.
const FAR: u128 = 1_099_511_627_776;

/// The number that an index is, where it lies near enough to 0 to name something.
#[tactic(auto, using(crate::proofs::EvaluateSelect::near_index))]
fn near_index(index: Bits, signed: bool) -> Option<i64>
    ensures { result ≡ near_of (integer_of signed (width_of index) (value_of index)) }
{
    let below = signed && is_negative(index);
    let size = if below {
        index.not().value()
    } else {
        index.value()
    };
    if size >= FAR {
        None
    } else if below {
        Some(-1 - size as i64)
    } else {
        Some(size as i64)
    }
}

/// A distance as a place among a number of places.
fn place_within(places: u32, distance: i64) -> Option<u32>
    ensures { result ≡ place_within places distance }
{
    if 0 <= distance && distance < i64::from(places) {
        Some(distance as u32)
    } else {
        None
    }
}

/// How far an index lies from the one declared rightmost.
pub fn distance_of(left: i32, right: i32, index: i64) -> i64
    requires low { neg_ℤ (pos (2 ^ 41)) ≤ℤ index }
    requires high { index ≤ℤ pos (2 ^ 41) }
    ensures { result ≡ distance_of left right index }
{
    if left < right {
        i64::from(right) - index
    } else {
        index - i64::from(right)
    }
}

/// The position of the bit of a signal that has an index and an offset (IEEE 1364-2005, 4.3).
pub fn position_from(signal: &Signal, index: Bits, signed: bool, offset: i32) -> Option<u32>
    ensures { result ≡ position_of signal.now (integer_of signed (width_of index) (value_of index) +ℤ offset) }
{
    let width = u32::from(signal.width);
    let left = signal.left;
    let right = signal.right;
    let Some(near) = near_index(index, signed) else {
        return None;
    };
    place_within(width, distance_of(left, right, near + i64::from(offset)))
}

/// The signal that is the word of an array at an index (IEEE 1364-2005, 4.9).
pub(crate) fn array_word(
    first: u32,
    count: u32,
    low: i32,
    index: Bits,
    signed: bool,
) -> Option<usize>
    ensures { result ≡ word_at first count low (integer_of signed (width_of index) (value_of index)) }
{
    let distance = near_index(index, signed)? - i64::from(low);
    Some(first as usize + place_within(count, distance)? as usize)
}

/// Whether a word has 1 at a position.
pub fn bit_of(word: Bits, position: u32) -> bool
    ensures { result ≡ bit_of word position }
{
    word.shift_right(u128::from(position)).value() % 2 == 1
}

/// Whether the bit of a signal that has an index and an offset is there and is 1.
fn picks(declared: &Signal, word: Bits, index: Bits, signed: bool, offset: i32) -> bool
    ensures { result ≡ bit_or_zero (bit (value_of word)) (position_of declared.now (integer_of signed (width_of index) (value_of index) +ℤ offset)) }
{
    match position_from(declared, index, signed, offset) {
        Some(position) => bit_of(word, position),
        None => false,
    }
}

/// A number of `b` bits with one more above them.
#[tactic(auto, using(design_core::proofs::NumberLaws::power_fits))]
pub fn with_next(value: u128, b: usize, holds: bool) -> u128
    requires place { b < 128 }
    requires below { value < 2 ^ b }
    ensures { result ≡ value + (if holds then 2 ^ b else 0) }
{
    if holds { value + (1 << b) } else { value }
}

/// The bits of a signal that have an index and each of the offsets. Those that the signal lacks are 0.
pub(crate) fn picked(
    signals: &[Signal],
    words: &[Bits],
    signal: usize,
    index: Bits,
    signed: bool,
    offsets: &[i32],
) -> Bits
    requires words { AreWordsOf signals.now words.now }
    requires signal { signal < length signals.now }
    requires offsets { IsTrue (is_width (length offsets.now)) }
    ensures width { width_of result ≡ length offsets.now }
    ensures value { let at = integer_of signed (width_of index) (value_of index) in
        value_of result ≡ number (length offsets.now) (picked signals.now (valuation_of words.now) signal at offsets.now) }
{
    let declared = signal_at(signals, signal);
    let word = word_at(words, signal);
    let mut value: u128 = 0;
    for (b, offset) in offsets.iter().enumerate() {
        value = with_next(value, b, picks(declared, word, index, signed, *offset));
    }
    Bits::new(offsets.len() as u8, value).unwrap()
}
