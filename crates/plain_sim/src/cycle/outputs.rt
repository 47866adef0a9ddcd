ghost use Rattle.std.specs.Prelude.{◌≡◌, ◌↔◌, IsTrue, true};
ghost use Rattle.loc_base.specs.Bits.{width_of};
ghost use Rattle.design_core.specs.Words.{valuation_of, AreWordsOf};
ghost use Rattle.design_core.specs.TraceFits.{expected_fit};
ghost use Rattle.design_core.specs.Run.{IsRight};
ghost use Rattle.plain_sim.specs.EvaluateCycle.{IsRightWord};

use design_core::{Checked, Design};
use loc_base::Bits;

/// Whether the bits of an output that are checked are as expected.
pub fn is_right(word: Bits, checked: Checked) -> bool
    requires value { width_of word ≡ width_of checked.value }
    requires mask { width_of word ≡ width_of checked.mask }
    ensures { IsTrue result ↔ IsRightWord word checked }
{
    word.xor(checked.value).and(checked.mask).value() == 0
}

/// Whether the checked bits of all outputs are as expected.
pub fn are_right(d: &Design, expected: &[Checked], words: &[Bits]) -> bool
    requires words { AreWordsOf d.now.signals.items words.now }
    requires expected { IsTrue (expected_fit d.now.signals.items d.now.outputs.items expected.now) }
    ensures { IsTrue result ↔ IsRight d.now expected.now (valuation_of words.now) }
{
    for i in 0..expected.len() {
        let checked = expected[i];
        let word = words[d.outputs[i] as usize];
        if !is_right(word, checked) {
            return false;
        }
    }
    true
}
