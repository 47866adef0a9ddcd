//! The numbers of real changes (IEEE 1364-2005, 18.2.1).
ghost use Rattle.std.specs.Prelude.{◌≡◌};
ghost use Rattle.std.specs.Option.{option_copied};
ghost use Rattle.vcd_reading.specs.Reals.{unsigned, drop_digits, past_digits, past_fraction, past_exponent, is_decimal_number, is_no_number, is_real};

use loc_base::is_decimal;

/// What stands behind a sign, where there is one.
fn unsigned(bytes: &[u8]) -> &[u8]
    ensures { result.now ≡ unsigned bytes.now }
{
    match bytes.split_first() {
        Some((b'+' | b'-', rest)) => rest,
        _ => bytes,
    }
}

/// What stands behind the digits at the front.
#[tactic(auto, using(crate::proofs::RealSteps::digit_steps))]
fn drop_digits(bytes: &[u8]) -> &[u8]
    ensures { result.now ≡ drop_digits bytes.now }
{
    for (i, byte) in bytes.iter().enumerate() {
        if !is_decimal(*byte) {
            return &bytes[i..];
        }
    }
    &[]
}

/// What stands behind at least one digit.
fn past_digits(bytes: &[u8]) -> Option<&[u8]>
    ensures { option_copied result ≡ past_digits bytes.now }
{
    let (first, rest) = bytes.split_first()?;
    if is_decimal(*first) {
        Some(drop_digits(rest))
    } else {
        None
    }
}

/// What stands behind a point and digits, where there is a point.
fn past_fraction(bytes: &[u8]) -> Option<&[u8]>
    ensures { option_copied result ≡ past_fraction bytes.now }
{
    match bytes.split_first() {
        Some((b'.', rest)) => past_digits(rest),
        _ => Some(bytes),
    }
}

/// What stands behind an exponent, where there is one.
fn past_exponent(bytes: &[u8]) -> Option<&[u8]>
    ensures { option_copied result ≡ past_exponent bytes.now }
{
    match bytes.split_first() {
        Some((b'e', rest)) => past_digits(unsigned(rest)),
        _ => Some(bytes),
    }
}

#[tactic(auto, unfolding(crate::specs::Reals::is_decimal_number))]
fn is_decimal_number(bytes: &[u8]) -> bool
    ensures { result ≡ is_decimal_number bytes.now }
{
    let Some(bytes) = past_digits(bytes) else {
        return false;
    };
    let Some(bytes) = past_fraction(bytes) else {
        return false;
    };
    let Some(bytes) = past_exponent(bytes) else {
        return false;
    };
    bytes.is_empty()
}

/// Whether a word stands for what is no number.
fn is_no_number(bytes: &[u8]) -> bool
    ensures { result ≡ is_no_number bytes.now }
{
    bytes == b"inf".as_slice() || bytes == b"nan".as_slice()
}

/// Whether a word is a real number: a sign if any, and a decimal number, `inf` or `nan`.
#[tactic(auto, unfolding(crate::specs::Reals::is_real))]
pub fn is_real(bytes: &[u8]) -> bool
    ensures { result ≡ is_real bytes.now }
{
    let bytes = unsigned(bytes);
    is_no_number(bytes) || is_decimal_number(bytes)
}
