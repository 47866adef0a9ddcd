//! Words by their texts in lower-case hex.

ghost use Rattle.std.specs.Prelude.{ℕ, ◌≡◌, ◌≢◌, ◌<◌, ◌≤◌, ◌^◌, length, IfNone, IfSome};
ghost use Rattle.loc_base.specs.declared.bits.Bits.{Bits as SpecBits};
ghost use Rattle.loc_base.specs.Bits.{width_of};
ghost use Rattle.printed_text.specs.Numerals.{hex, hex_digit};
ghost use Rattle.report_sets.specs.Found.{word_text};

use loc_base::Bits;

/// The digit that a byte is.
#[tactic(auto, using(crate::proofs::Spelling::digit_rules))]
fn digit_of(byte: u8) -> Option<u8>
    ensures some { IfSome result (λ digit. (digit < 16) × (hex_digit digit ≡ byte)) }
    ensures none { IfNone result ((digit : ℕ) → digit < 16 → hex_digit digit ≢ byte) }
{
    match byte {
        b'0'..=b'9' => Some(byte - b'0'),
        b'a'..=b'f' => Some(byte - 87),
        _ => None,
    }
}

/// The number of which a text has the digits.
#[tactic(auto, using(crate::proofs::Spelling::number_rules))]
fn number_of(text: &[u8]) -> Option<u128>
    requires { length text.now ≤ 32 }
    ensures some { IfSome result (λ number. (number < 16 ^ length text.now) × (hex (length text.now) number ≡ text.now)) }
    ensures none { IfNone result ((number : ℕ) → hex (length text.now) number ≢ text.now) }
{
    let mut number: u128 = 0;
    for byte in text {
        number = number * 16 + u128::from(digit_of(*byte)?);
    }
    Some(number)
}

/// The word of a width of which this is the text: a digit for every four bits, and a number below 2^width.
#[tactic(auto, using(crate::proofs::Spelling::word_rules))]
pub(crate) fn word_of(width: u8, text: &[u8]) -> Option<Bits>
    requires least { 1 ≤ width }
    requires most { width ≤ 128 }
    ensures some { IfSome result (λ word. (width_of word ≡ width) × (word_text word ≡ text.now)) }
    ensures none { IfNone result ((word : SpecBits) → width_of word ≡ width → word_text word ≢ text.now) }
{
    if text.len() != (usize::from(width) + 3) / 4 {
        return None;
    }
    Bits::new(width, number_of(text)?)
}
