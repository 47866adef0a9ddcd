ghost use Rattle.std.specs.Prelude.{◌≡◌, ◌<◌, ◌↔◌, ℕ, IsTrue};
ghost use Rattle.design_core.specs.Words.{valuation_of, AreWordsOf};
ghost use Rattle.design_core.specs.Reads.{AgreeOn};
ghost use Rattle.plain_sim.specs.EvaluateCycle.{is_in};

use crate::cycle::region::{Region, bit_at, is_in};
use design_core::Design;
use loc_base::Bits;

/// Whether two words of a signal agree in a bit, where it is in a region.
fn agree_bit(
    design: &Design,
    words: &[Bits],
    region: Region,
    one: &[Bits],
    other: &[Bits],
    s: usize,
    b: u8,
) -> bool
    ensures { IsTrue result ↔ (IsTrue (is_in design.now (valuation_of words.now) region s b) → valuation_of one.now s b ≡ valuation_of other.now s b) }
{
    !is_in(design, words, region, s, b) || bit_at(one, s, b) == bit_at(other, s, b)
}

/// Whether two words of a signal agree in the bits of a region.
fn agree_signal(
    design: &Design,
    words: &[Bits],
    region: Region,
    one: &[Bits],
    other: &[Bits],
    s: usize,
    width: u8,
) -> bool
    ensures { IsTrue result ↔ ((b : ℕ) → b < width → IsTrue (is_in design.now (valuation_of words.now) region s b) → valuation_of one.now s b ≡ valuation_of other.now s b) }
{
    for b in 0..width {
        if !agree_bit(design, words, region, one, other, s, b) {
            return false;
        }
    }
    true
}

/// Whether two words for each signal agree in the bits of a region. A reset is active by `words`.
pub(crate) fn agree(
    design: &Design,
    words: &[Bits],
    region: Region,
    one: &[Bits],
    other: &[Bits],
) -> bool
    requires one { AreWordsOf design.now.signals.items one.now }
    requires other { AreWordsOf design.now.signals.items other.now }
    ensures { IsTrue result ↔ AgreeOn (is_in design.now (valuation_of words.now) region) (valuation_of one.now) (valuation_of other.now) }
{
    for s in 0..one.len() {
        if !agree_signal(design, words, region, one, other, s, one[s].width()) {
            return false;
        }
    }
    true
}
