//! Some bits of the words of signals, and how they are moved.

ghost use Rattle.std.specs.Prelude.{◌≡◌, ℕ, ◌<◌, length, map, slice_get, Some, if◌then◌else◌, false};
ghost use Rattle.loc_base.specs.Bits.{width_of, bit_of};
ghost use Rattle.design_core.specs.Constant.{zeros};
ghost use Rattle.design_core.specs.Words.{valuation_of};
ghost use Rattle.plain_sim.specs.EvaluateCycle.{blended};
ghost use Rattle.cycle_sim.specs.Masks.{AreMasksOf, covers, in_mask};

use loc_base::Bits;

/// The bits of a signal at which `bits` has 1. It has the signal's width.
#[derive(Clone, Copy, Drop)]
pub(crate) struct Mask {
    pub(crate) signal: usize,
    pub(crate) bits: Bits,
}

/// The mask of a number.
#[tactic(auto, using(plain_values::proofs::EvaluateWords::slice_get_at))]
pub(crate) fn mask_at(masks: &[Mask], k: usize) -> Mask
    requires { k < length masks.now }
    ensures { slice_get masks.now k ≡ Some result }
{
    masks[k]
}

/// A word with the bits of another one where a mask has 1.
#[tactic(auto, using(crate::proofs::Blending::bits_blended))]
fn blend(mask: Bits, one: Bits, other: Bits) -> Bits
    requires one { width_of one ≡ width_of other }
    requires mask { width_of mask ≡ width_of other }
    ensures width { width_of result ≡ width_of other }
    ensures bits { (b : ℕ) → bit_of result b ≡ (if bit_of mask b then bit_of one b else bit_of other b) }
{
    other.xor(other.xor(one).and(mask))
}

/// A word with 0 where a mask has 1.
#[tactic(auto, using(crate::proofs::Blending::bits_cleared))]
fn clear(mask: Bits, word: Bits) -> Bits
    requires { width_of mask ≡ width_of word }
    ensures width { width_of result ≡ width_of word }
    ensures bits { (b : ℕ) → bit_of result b ≡ (if bit_of mask b then false else bit_of word b) }
{
    word.xor(word.and(mask))
}

/// Puts the bits of a mask at those of other words.
fn copy_one(mask: Mask, to: &mut [Bits], from: &[Bits])
    requires fits { slice_get (map width_of to.old) mask.signal ≡ Some (width_of mask.bits) }
    requires from { map width_of from.now ≡ map width_of to.old }
    ensures widths { map width_of to.new ≡ map width_of to.old }
    ensures value { valuation_of to.new ≡ blended (in_mask mask) (valuation_of from.now) (valuation_of to.old) }
{
    let signal = mask.signal;
    let word = blend(mask.bits, from[signal], to[signal]);
    to[signal].take(word);
}

/// Puts the bits of a mask at 0.
fn clear_one(mask: Mask, words: &mut [Bits])
    requires { slice_get (map width_of words.old) mask.signal ≡ Some (width_of mask.bits) }
    ensures widths { map width_of words.new ≡ map width_of words.old }
    ensures value { valuation_of words.new ≡ blended (in_mask mask) zeros (valuation_of words.old) }
{
    let signal = mask.signal;
    let word = clear(mask.bits, words[signal]);
    words[signal].take(word);
}

/// Puts the bits of some masks at those of other words.
pub(crate) fn copy_bits(masks: &[Mask], to: &mut [Bits], from: &[Bits])
    requires fits { AreMasksOf (map width_of to.old) masks.now }
    requires from { map width_of from.now ≡ map width_of to.old }
    ensures widths { map width_of to.new ≡ map width_of to.old }
    ensures value { valuation_of to.new ≡ blended (covers masks.now) (valuation_of from.now) (valuation_of to.old) }
{
    for k in 0..masks.len() {
        copy_one(mask_at(masks, k), to, from);
    }
}

/// Puts the bits of some masks at 0.
pub(crate) fn clear_bits(masks: &[Mask], words: &mut [Bits])
    requires { AreMasksOf (map width_of words.old) masks.now }
    ensures widths { map width_of words.new ≡ map width_of words.old }
    ensures value { valuation_of words.new ≡ blended (covers masks.now) zeros (valuation_of words.old) }
{
    for k in 0..masks.len() {
        clear_one(mask_at(masks, k), words);
    }
}
