ghost use Rattle.std.specs.Prelude.{◌≡◌, IsTrue, IfOk};
ghost use Rattle.design_core.specs.Words.{valuation_of, AreWordsOf};
ghost use Rattle.design_core.specs.Constant.{zeros};
ghost use Rattle.design_core.specs.TraceFits.{samples_fit};
ghost use Rattle.design_core.specs.Cycle.{sampled, sampled as sampled_of, before};

use crate::cycle::copies::zeros_like;
use crate::cycle::region::Region;
use crate::cycle::take::take;
use design_core::Design;
use loc_base::{Bits, NoMemory};
use std::alloc::Global;

/// Puts the samples into words that are 0, from the last input to the first.
fn load(design: &Design, samples: &[Bits], words: &mut [Bits])
    requires samples { IsTrue (samples_fit design.now.signals.items design.now.inputs.items samples.now) }
    requires words { AreWordsOf design.now.signals.items words.old }
    requires zeros { valuation_of words.old ≡ zeros }
    ensures words { AreWordsOf design.now.signals.items words.new }
    ensures value { valuation_of words.new ≡ sampled design.now.inputs.items samples.now }
{
    let mut left = samples.len();
    while left > 0 {
        left -= 1;
        words[design.inputs[left] as usize] = samples[left];
    }
}

/// The words of the inputs' samples, 0 elsewhere. `like` has one word for each signal.
pub(crate) fn sample_words(
    alloc: Global,
    design: &Design,
    samples: &[Bits],
    like: &[Bits],
) -> Result<Vec<Bits>, NoMemory>
    requires samples { IsTrue (samples_fit design.now.signals.items design.now.inputs.items samples.now) }
    requires like { AreWordsOf design.now.signals.items like.now }
    ensures words { IfOk result (λ words. AreWordsOf design.now.signals.items words.items) }
    ensures value { IfOk result (λ words. valuation_of words.items ≡ sampled design.now.inputs.items samples.now) }
{
    let mut words = zeros_like(alloc, design, like)?;
    load(design, samples, &mut words);
    Ok(words)
}

/// Puts register states and samples into words that are 0.
fn begin(design: &Design, samples: &[Bits], sampled: &[Bits], state: &[Bits], words: &mut [Bits])
    requires state { AreWordsOf design.now.signals.items state.now }
    requires sampled { AreWordsOf design.now.signals.items sampled.now }
    requires samples { valuation_of sampled.now ≡ sampled_of design.now.inputs.items samples.now }
    requires words { AreWordsOf design.now.signals.items words.old }
    requires zeros { valuation_of words.old ≡ zeros }
    ensures words { AreWordsOf design.now.signals.items words.new }
    ensures value { valuation_of words.new ≡ before design.now samples.now (valuation_of state.now) }
{
    take(design, &[], Region::Registers, words, state);
    take(design, &[], Region::Listed, words, sampled);
}

/// The words before anything is computed in a cycle: samples and register states, all other bits 0.
pub(crate) fn words_before(
    alloc: Global,
    design: &Design,
    samples: &[Bits],
    state: &[Bits],
) -> Result<Vec<Bits>, NoMemory>
    requires samples { IsTrue (samples_fit design.now.signals.items design.now.inputs.items samples.now) }
    requires state { AreWordsOf design.now.signals.items state.now }
    ensures words { IfOk result (λ words. AreWordsOf design.now.signals.items words.items) }
    ensures value { IfOk result (λ words. valuation_of words.items ≡ before design.now samples.now (valuation_of state.now)) }
{
    let sampled = sample_words(alloc, design, samples, state)?;
    let mut words = zeros_like(alloc, design, state)?;
    begin(design, samples, &sampled, state, &mut words);
    Ok(words)
}
