ghost use Rattle.std.specs.Prelude.{◌≡◌};
ghost use Rattle.loc_base.specs.Bits.{width_of, value_of};
ghost use Rattle.design_core.specs.Valuation.{number, bit};
ghost use Rattle.design_core.specs.Words.{valuation_of, AreWordsOf};
ghost use Rattle.plain_sim.specs.EvaluateCycle.{is_in, either_bit, blended};

use crate::cycle::region::{Region, is_in};
use design_core::Design;
use loc_base::Bits;
use plain_values::{bit_of, with_next};

/// A bit of one word where it is in a region, else of another.
fn taken_bit(
    design: &Design,
    words: &[Bits],
    region: Region,
    one: Bits,
    other: Bits,
    s: usize,
    b: u8,
) -> bool
    ensures { result ≡ either_bit (is_in design.now (valuation_of words.now) region s) (bit (value_of one)) (bit (value_of other)) b }
{
    if is_in(design, words, region, s, b) {
        bit_of(one, u32::from(b))
    } else {
        bit_of(other, u32::from(b))
    }
}

/// A word of a signal whose bits are those of one word where they are in a region, else of another.
fn taken_word(
    design: &Design,
    words: &[Bits],
    region: Region,
    one: Bits,
    other: Bits,
    s: usize,
) -> Bits
    ensures width { width_of result ≡ width_of other }
    ensures value { value_of result ≡ number (width_of other) (either_bit (is_in design.now (valuation_of words.now) region s) (bit (value_of one)) (bit (value_of other))) }
{
    let mut value: u128 = 0;
    for b in 0..other.width() {
        value = with_next(
            value,
            usize::from(b),
            taken_bit(design, words, region, one, other, s, b),
        );
    }
    Bits::new(other.width(), value).unwrap()
}

/// Replaces the bits of a region by those of other words. A reset is active by `words`.
pub(crate) fn take(design: &Design, words: &[Bits], region: Region, to: &mut [Bits], from: &[Bits])
    requires to { AreWordsOf design.now.signals.items to.old }
    requires from { AreWordsOf design.now.signals.items from.now }
    ensures words { AreWordsOf design.now.signals.items to.new }
    ensures value { valuation_of to.new ≡ blended (is_in design.now (valuation_of words.now) region) (valuation_of from.now) (valuation_of to.old) }
{
    for s in 0..to.len() {
        to[s] = taken_word(design, words, region, from[s], to[s], s);
    }
}
