ghost use Rattle.std.specs.Prelude.{◌≡◌, ◌≢◌, ◌<◌, ◌==◌, ℕ, length, decimal, slice_index, MatchOption};
ghost use Rattle.proof_check.specs.Text.{IsUpTo};

/// Whether a word that is not empty begins with a zero.
fn begins_with_zero(word: &[u8]) -> bool
    requires { 0 < length word.now }
    ensures { result ≡ (slice_index word.now 0 == 48) }
{
    word[0] == b'0'
}

/// The number from 1 to `most` that the word is in decimal, without leading zeros.
pub(crate) fn number_of(word: &[u8], most: u32) -> Option<u32>
    ensures { MatchOption result ((n : ℕ) → IsUpTo most n → word.now ≢ decimal n) (λ number. IsUpTo most number × (word.now ≡ decimal number)) }
{
    if word.is_empty() || begins_with_zero(word) {
        return None;
    }
    let mut value = 0u64;
    for digit in word {
        if !digit.is_ascii_digit() {
            return None;
        }
        value = value * 10 + u64::from(*digit - b'0');
        if value > u64::from(most) {
            return None;
        }
    }
    Some(value as u32)
}
