ghost use Rattle.std.specs.Prelude.{◌≡◌, IfOk};
ghost use Rattle.design_core.specs.Words.{valuation_of, AreWordsOf};
ghost use Rattle.design_core.specs.Constant.{zeros};

use design_core::Design;
use loc_base::{Bits, NoMemory};
use std::alloc::Global;

/// A copy of some words.
pub(crate) fn copy_of(alloc: Global, words: &[Bits]) -> Result<Vec<Bits>, NoMemory>
    ensures { IfOk result (λ copy. copy.items ≡ words.now) }
{
    Ok(words.to_vec(alloc)?)
}

/// Puts every word at 0.
fn clear(design: &Design, words: &mut [Bits])
    requires words { AreWordsOf design.now.signals.items words.old }
    ensures words { AreWordsOf design.now.signals.items words.new }
    ensures value { valuation_of words.new ≡ zeros }
{
    for i in 0..words.len() {
        words[i] = Bits::zero(words[i].width());
    }
}

/// As many words as some, each of them 0.
pub(crate) fn zeros_like(
    alloc: Global,
    design: &Design,
    words: &[Bits],
) -> Result<Vec<Bits>, NoMemory>
    requires words { AreWordsOf design.now.signals.items words.now }
    ensures words { IfOk result (λ copy. AreWordsOf design.now.signals.items copy.items) }
    ensures value { IfOk result (λ copy. valuation_of copy.items ≡ zeros) }
{
    let mut copy = copy_of(alloc, words)?;
    clear(design, &mut copy);
    Ok(copy)
}
