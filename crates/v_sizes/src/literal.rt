//! What a number of the text is (IEEE 1364-2005, 3.5.1).
ghost use Rattle.std.specs.Prelude.{◌≡◌, ◌||◌, ◌%◌, ◌^◌, min};
ghost use Rattle.v_syntax.specs.Numbers as shape;
ghost use Rattle.v_syntax.specs.Literals as lexed;
ghost use Rattle.v_syntax.specs.Literals.{value_of};
ghost use Rattle.loc_base.specs.Bits as word;
ghost use Rattle.v_sizes.specs.Literal.{quote_in, width_of_size, written_width, value_in_base, value_behind, has_sign, literal_width, literal_signed, literal_value};
ghost use Rattle.v_sizes.specs.Refusals.{is_bad_width};
ghost use Rattle.v_sizes.specs.Written.{written_value};

use crate::numbers::{limited, low_bits};
use loc_base::Bits;

/// A digit that counts, or a wildcard.
#[tactic(auto, unfolding(v_syntax::specs::Numbers::is_hexadecimal, v_syntax::specs::Numbers::is_wild, v_syntax::specs::Bytes::is_decimal))]
fn counts(byte: u8) -> bool
    ensures { result ≡ (shape.is_hexadecimal byte || shape.is_wild byte) }
{
    matches!(byte, b'0'..=b'9' | b'a'..=b'f' | b'A'..=b'F' | b'z' | b'Z' | b'?')
}

/// The value of a digit; that of a wildcard is 0.
#[tactic(auto, unfolding(v_syntax::specs::Literals::digit_value, v_syntax::specs::Bytes::is_decimal))]
fn digit_value(byte: u8) -> u8
    ensures { result ≡ lexed.digit_value byte }
{
    if b'0' <= byte && byte <= b'9' {
        byte - b'0'
    } else if b'a' <= byte && byte <= b'f' {
        byte - b'a' + 10
    } else if b'A' <= byte && byte <= b'F' {
        byte - b'A' + 10
    } else {
        0
    }
}

/// The value of the digits up to this byte, from that of the digits before it, in 128 bits.
#[tactic(auto, using(crate::proofs::Digits::next_rows))]
fn next_value(value: u128, base: u128, byte: u8) -> u128
    ensures { result ≡ lexed.next_value base value byte % 2 ^ 128 }
{
    if counts(byte) {
        value
            .wrapping_mul(base)
            .wrapping_add(u128::from(digit_value(byte)))
    } else {
        value
    }
}

/// The value of a run of digits in 128 bits.
#[tactic(auto, using(crate::proofs::Digits::digits))]
fn value_of(base: u128, digits: &[u8]) -> u128
    ensures { result ≡ lexed.value_of base digits.now % 2 ^ 128 }
{
    let mut value = 0;
    for byte in digits {
        value = next_value(value, base, *byte);
    }
    value
}

/// The number that a base letter names.
#[tactic(auto, unfolding(v_syntax::specs::Literals::base_of))]
fn base_of(byte: u8) -> Option<u128>
    ensures { result ≡ lexed.base_of byte }
{
    match byte {
        b'b' | b'B' => Some(2),
        b'o' | b'O' => Some(8),
        b'd' | b'D' => Some(10),
        b'h' | b'H' => Some(16),
        _ => None,
    }
}

#[tactic(auto, unfolding(v_syntax::specs::Numbers::is_sign))]
fn is_sign(byte: u8) -> bool
    ensures { result ≡ shape.is_sign byte }
{
    matches!(byte, b's' | b'S')
}

/// Whether what stands behind the quote begins with the letter of the sign.
fn has_sign(behind: &[u8]) -> bool
    ensures { result ≡ has_sign behind.now }
{
    match behind.first() {
        Some(byte) => is_sign(*byte),
        None => false,
    }
}

/// The value of a base letter and the digits behind it, in 128 bits.
fn value_in_base(behind: &[u8]) -> u128
    ensures { result ≡ value_in_base behind.now % 2 ^ 128 }
{
    let Some((letter, digits)) = behind.split_first() else {
        return 0;
    };
    match base_of(*letter) {
        Some(base) => value_of(base, digits),
        None => 0,
    }
}

/// The value of what stands behind the quote, in 128 bits.
fn value_behind(behind: &[u8]) -> u128
    ensures { result ≡ value_behind behind.now % 2 ^ 128 }
{
    match behind.split_first() {
        Some((byte, rest)) => {
            if is_sign(*byte) {
                value_in_base(rest)
            } else {
                value_in_base(behind)
            }
        }
        None => 0,
    }
}

/// The place of the quote between size and base, where there is one.
fn quote_in(text: &[u8]) -> Option<usize>
    ensures { result ≡ quote_in text.now }
{
    text.iter().position(|byte| *byte == b'\'')
}

/// The value of the decimal digits up to this byte, from that of the digits before it, or 255 where it is more.
#[tactic(auto, using(crate::proofs::Digits::next_rows))]
fn next_capped(value: u8, byte: u8) -> u8
    ensures { result ≡ min (lexed.next_value 10 value byte) 255 }
{
    if counts(byte) {
        (u16::from(value) * 10 + u16::from(digit_value(byte))).min(255) as u8
    } else {
        value
    }
}

/// The value of decimal digits, or 255 where it is more.
#[tactic(auto, using(crate::proofs::Digits::sizes))]
fn capped_value(digits: &[u8]) -> u8
    ensures { result ≡ min (value_of 10 digits.now) 255 }
{
    let mut value = 0;
    for byte in digits {
        value = next_capped(value, *byte);
    }
    value
}

/// The width that a size gives, or 255 where it is more.
fn width_of_size(size: &[u8]) -> u8
    ensures { result ≡ min (width_of_size size.now) 255 }
{
    if size.is_empty() {
        32
    } else {
        capped_value(size)
    }
}

/// The width that is written, or 255 where it is more.
fn written_width(text: &[u8]) -> u8
    ensures { result ≡ min (written_width text.now) 255 }
{
    match quote_in(text) {
        Some(at) => width_of_size(&text[..at]),
        None => 32,
    }
}

/// Whether the width that is written is none of 1 to 128.
pub fn is_bad_literal(text: &[u8]) -> bool
    ensures { result ≡ is_bad_width (written_width text.now) }
{
    let width = written_width(text);
    width == 0 || width > 128
}

/// The width of a number.
pub fn literal_width(text: &[u8]) -> u8
    ensures { result ≡ literal_width text.now }
{
    limited(written_width(text))
}

/// Whether a number is signed.
pub fn literal_signed(text: &[u8]) -> bool
    ensures { result ≡ literal_signed text.now }
{
    match quote_in(text) {
        Some(at) => has_sign(&text[at + 1..]),
        None => true,
    }
}

/// The value of a number, in 128 bits.
fn written_value(text: &[u8]) -> u128
    ensures { result ≡ written_value text.now % 2 ^ 128 }
{
    match quote_in(text) {
        Some(at) => value_behind(&text[at + 1..]),
        None => value_of(10, text),
    }
}

/// The word of a number.
#[tactic(auto, using(loc_base::proofs::Modulo::mod_mod_of))]
pub fn literal_word(text: &[u8]) -> Bits
    ensures width { word.width_of result ≡ literal_width text.now }
    ensures value { word.value_of result ≡ literal_value text.now }
{
    low_bits(literal_width(text), written_value(text))
}
