ghost use Rattle.std.specs.Prelude.{◌≡◌, ℕ, ◌+◌, ◌-◌, ◌≤◌, ◌<◌, length, map, slice_get, Some, ◌&&◌, nat_le, nat_lt, if◌then◌else◌};
ghost use Rattle.loc_base.specs.Bits.{width_of, value_of};
ghost use Rattle.design_core.specs.Valuation.{bit};
ghost use Rattle.design_core.specs.Store.{with_bits};
ghost use Rattle.design_core.specs.Words.{valuation_of};

use crate::operator::resized;
use crate::words::word_at;
use loc_base::Bits;

/// A word with 0 below a position.
#[tactic(auto, using(crate::proofs::EvaluateWrite::above))]
fn above(word: Bits, from: u8) -> Bits
    ensures width { width_of result ≡ width_of word }
    ensures bits { (p : ℕ) → p < width_of word → bit (value_of result) p ≡ (nat_le from p && bit (value_of word) p) }
{
    let by = u128::from(from);
    word.shift_right(by).shift_left(by)
}

/// A word with 0 from a position on.
#[tactic(auto, using(crate::proofs::EvaluateWrite::below))]
fn below(word: Bits, to: u8) -> Bits
    requires { to ≤ width_of word }
    ensures width { width_of result ≡ width_of word }
    ensures bits { (p : ℕ) → p < width_of word → bit (value_of result) p ≡ (nat_lt p to && bit (value_of word) p) }
{
    let by = u128::from(word.width() - to);
    word.shift_left(by).shift_right(by)
}

/// A word with `width` of its bits from a position on replaced by the lowest bits of a value, by masks.
#[inline(never)]
fn masked(word: Bits, from: u8, width: u8, value: Bits) -> Bits
    requires { from + width ≤ width_of word }
    ensures width { width_of result ≡ width_of word }
    ensures bits { (p : ℕ) → bit (value_of result) p
        ≡ (if nat_le from p && nat_lt p (from + width) then bit (value_of value) (p - from) else bit (value_of word) p) }
{
    let placed = below(resized(value, false, word.width()), width).shift_left(u128::from(from));
    above(word, from + width).or(below(word, from)).or(placed)
}

/// A word with `width` of its bits from a position on replaced by the lowest bits of a value. Most stores are of whole words,
/// which need no masks.
#[inline(always)]
pub fn replaced(word: Bits, from: u8, width: u8, value: Bits) -> Bits
    requires { from + width ≤ width_of word }
    ensures width { width_of result ≡ width_of word }
    ensures bits { (p : ℕ) → bit (value_of result) p
        ≡ (if nat_le from p && nat_lt p (from + width) then bit (value_of value) (p - from) else bit (value_of word) p) }
{
    if width == word.width() {
        resized(value, false, width)
    } else {
        masked(word, from, width, value)
    }
}

/// Replaces `width` bits of a signal, from a position on, by the lowest bits of a value.
#[tactic(auto, using(crate::proofs::EvaluateWrite::written))]
#[inline(always)]
pub(crate) fn write(words: &mut [Bits], signal: usize, from: u8, width: u8, value: Bits)
    requires signal { signal < length words.old }
    requires within { (word : Bits) → slice_get words.old signal ≡ Some word → from + width ≤ width_of word }
    ensures widths { map width_of words.new ≡ map width_of words.old }
    ensures words { valuation_of words.new ≡ with_bits (valuation_of words.old) signal from width (bit (value_of value)) }
{
    let word = replaced(words[signal], from, width, value);
    words[signal].take(word);
}
