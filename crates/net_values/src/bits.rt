ghost use Rattle.std.specs.Prelude.{◌≡◌, ◌^◌, ◌<◌, if◌then◌else◌};
ghost use Rattle.std.specs.Ordering.{int_eq};
ghost use Rattle.loc_base.specs.Bits.{width_of, value_of};
ghost use Rattle.loc_base.specs.Word.{is_negative};
ghost use Rattle.design_core.specs.Operator.{integer_of};
ghost use Rattle.design_core.specs.Valuation.{bit, number};

use loc_base::Bits;

/// The bits of one word where a mask has 1, else those of another of its width.
#[tactic(auto, using(crate::proofs::Replaced::blend_steps))]
pub(crate) fn blended(mask: u128, one: Bits, other: Bits) -> Bits
    requires one { width_of one ≡ width_of other }
    requires mask { mask < 2 ^ width_of other }
    ensures width { width_of result ≡ width_of other }
    ensures value { value_of result ≡ number (width_of other) (λ b. if bit mask b then bit (value_of one) b else bit (value_of other) b) }
{
    let mask = Bits::new(other.width(), mask).unwrap();
    let apart = other.xor(one).and(mask);
    other.xor(apart)
}

/// Whether the highest bit is 1.
pub(crate) fn is_negative(word: Bits) -> bool
    ensures { result ≡ is_negative (width_of word) (value_of word) }
{
    word.value() >= 1 << (word.width() - 1)
}

/// Whether a word means a number, by its sign.
#[tactic(auto, using(crate::proofs::Replaced::number_steps))]
pub(crate) fn is_number(word: Bits, signed: bool, number: i64) -> bool
    ensures { result ≡ int_eq (integer_of signed (width_of word) (value_of word)) number }
{
    let size = u128::from(number.unsigned_abs());
    if signed && is_negative(word) {
        number < 0 && word.not().value() + 1 == size
    } else {
        number >= 0 && word.value() == size
    }
}
