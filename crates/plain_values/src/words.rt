ghost use Rattle.std.specs.Prelude.{◌≡◌, ◌==◌, ◌-◌, ◌<◌, length, slice_get, Some};
ghost use Rattle.loc_base.specs.Bits.{width_of, value_of};
ghost use Rattle.loc_base.specs.Word.{is_negative};
ghost use Rattle.design_core.specs.Operator.{is_true, all_ones};

use loc_base::Bits;

/// The word of a signal.
#[tactic(auto, using(crate::proofs::EvaluateWords::slice_get_at))]
pub fn word_at(words: &[Bits], signal: usize) -> Bits
    requires { signal < length words.now }
    ensures { slice_get words.now signal ≡ Some result }
{
    words[signal]
}

/// Whether a word is not 0.
pub(crate) fn is_true(word: Bits) -> bool
    ensures { result ≡ is_true (value_of word) }
{
    word.value() != 0
}

/// Whether all bits of a word are 1.
pub(crate) fn is_full(word: Bits) -> bool
    ensures { result ≡ (value_of word == all_ones (width_of word)) }
{
    word.not().value() == 0
}

/// Whether the highest bit of a word is 1.
pub(crate) fn is_negative(word: Bits) -> bool
    ensures { result ≡ is_negative (width_of word) (value_of word) }
{
    word.value() >= 1 << (word.width() - 1)
}
