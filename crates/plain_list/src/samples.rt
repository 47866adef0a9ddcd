ghost use Rattle.std.specs.Prelude.{◌≡◌, ◌<◌, length, IsTrue, drop, slice_set, slice_index, slice_get, Some, Bool, true, false};
ghost use Rattle.loc_base.specs.Bits.{width_of, value_of};
ghost use Rattle.design_core.specs.Words.{valuation_of, AreWordsOf};
ghost use Rattle.design_core.specs.WellFormed.{IsWellFormed};
ghost use Rattle.design_core.specs.TraceFits.{samples_fit};
ghost use Rattle.design_core.specs.Cycle.{sampled};

use design_core::Signal;
use loc_base::Bits;

/// The words of a cycle before anything is computed: the inputs' samples, and 0 elsewhere.
pub(crate) fn load_samples(signals: &[Signal], inputs: &[u32], samples: &[Bits], words: &mut [Bits])
    requires words { AreWordsOf signals.now words.old }
    requires samples { samples_fit signals.now inputs.now samples.now ≡ true }
    ensures words { AreWordsOf signals.now words.new }
    ensures value { valuation_of words.new ≡ sampled inputs.now samples.now }
{
    clear(signals, words);
    let mut left = samples.len();
    while left > 0 {
        left -= 1;
        words[inputs[left] as usize] = samples[left];
    }
}

/// Puts every word at 0.
fn clear(signals: &[Signal], words: &mut [Bits])
    requires { AreWordsOf signals.now words.old }
    ensures words { AreWordsOf signals.now words.new }
    ensures value { valuation_of words.new ≡ (λ _ _. false) }
{
    for i in 0..words.len() {
        words[i] = Bits::zero(words[i].width());
    }
}
