//! The shape of a number (IEEE 1364-2005, 3.5.1).
ghost use Rattle.std.specs.Prelude.{◌≡◌, ◌≤◌, length, MatchOption};
ghost use Rattle.std.specs.List.{prefix_len};
ghost use Rattle.v_lexer.specs.declared.pieces.Piece.TheVariants.{Number};
ghost use Rattle.v_lexer.specs.Longest.{HasFront, HasNoFront};
ghost use Rattle.v_lexer.specs.Pieces.{if_all};
ghost use Rattle.v_syntax.specs.Numbers as shape;

use crate::bytes::{behind, first_of, is_decimal, is_white, white_run};

#[tactic(auto, unfolding(v_syntax::specs::Numbers::is_sign))]
pub fn is_sign(byte: u8) -> bool
    ensures { result ≡ shape.is_sign byte }
{
    matches!(byte, b's' | b'S')
}

#[tactic(auto, unfolding(v_syntax::specs::Numbers::is_base))]
fn is_base(byte: u8) -> bool
    ensures { result ≡ shape.is_base byte }
{
    matches!(byte, b'b' | b'B' | b'o' | b'O' | b'd' | b'D' | b'h' | b'H')
}

#[tactic(auto, unfolding(v_syntax::specs::Numbers::is_wild))]
pub fn is_wild(byte: u8) -> bool
    ensures { result ≡ shape.is_wild byte }
{
    matches!(byte, b'z' | b'Z' | b'?')
}

#[tactic(auto, unfolding(v_syntax::specs::Numbers::is_unknown))]
pub fn is_unknown(byte: u8) -> bool
    ensures { result ≡ shape.is_unknown byte }
{
    matches!(byte, b'x' | b'X')
}

#[tactic(auto, unfolding(v_syntax::specs::Numbers::is_hexadecimal, v_syntax::specs::Bytes::is_decimal))]
pub fn is_hexadecimal(byte: u8) -> bool
    ensures { result ≡ shape.is_hexadecimal byte }
{
    matches!(byte, b'0'..=b'9' | b'a'..=b'f' | b'A'..=b'F')
}

#[tactic(auto, unfolding(v_syntax::specs::Numbers::is_digit))]
fn is_digit(byte: u8) -> bool
    ensures { result ≡ shape.is_digit byte }
{
    is_hexadecimal(byte) || is_unknown(byte) || is_wild(byte)
}

#[tactic(auto, unfolding(v_syntax::specs::Numbers::is_digit_or_underscore))]
fn is_digit_or_underscore(byte: u8) -> bool
    ensures { result ≡ shape.is_digit_or_underscore byte }
{
    is_digit(byte) || byte == b'_'
}

#[tactic(auto, unfolding(v_syntax::specs::Numbers::is_decimal_or_underscore))]
fn is_decimal_or_underscore(byte: u8) -> bool
    ensures { result ≡ shape.is_decimal_or_underscore byte }
{
    is_decimal(byte) || byte == b'_'
}

fn digit_run(bytes: &[u8]) -> usize
    ensures counts { result ≡ prefix_len shape.is_digit_or_underscore bytes.now }
    ensures within { result ≤ length bytes.now }
{
    bytes
        .iter()
        .take_while(|byte| is_digit_or_underscore(**byte))
        .count()
}

pub fn decimal_run(bytes: &[u8]) -> usize
    ensures counts { result ≡ prefix_len shape.is_decimal_or_underscore bytes.now }
    ensures within { result ≤ length bytes.now }
{
    bytes
        .iter()
        .take_while(|byte| is_decimal_or_underscore(**byte))
        .count()
}

/// Behind white space: the length of more of it and the digits, where they come.
#[tactic(auto, using(crate::proofs::NumberRows::spaced_digits_rows))]
fn spaced_digits_length(rest: &[u8]) -> Option<usize>
    ensures { MatchOption result (HasNoFront (if_all shape.is_spaced_digits Number) rest.now) (HasFront (if_all shape.is_spaced_digits Number) rest.now Number) }
{
    let spaces = white_run(rest);
    let (byte, tail) = first_of(behind(rest, spaces))?;
    if is_digit(byte) {
        Some(spaces + 1 + digit_run(tail))
    } else {
        None
    }
}

/// Behind the base letter.
#[tactic(auto, using(crate::proofs::NumberRows::digits_rows))]
fn digits_length(rest: &[u8]) -> usize
    ensures { HasFront (if_all shape.is_digits Number) rest.now Number result }
{
    match first_of(rest) {
        None => 0,
        Some((byte, tail)) => {
            if is_white(byte) {
                match spaced_digits_length(tail) {
                    Some(size) => 1 + size,
                    None => 0,
                }
            } else if is_digit(byte) {
                1 + digit_run(tail)
            } else {
                0
            }
        }
    }
}

/// Behind the sign letter.
#[tactic(auto, using(crate::proofs::NumberRows::signed_base_rows))]
fn signed_base_length(rest: &[u8]) -> usize
    ensures { HasFront (if_all shape.is_signed_base Number) rest.now Number result }
{
    match first_of(rest) {
        None => 0,
        Some((byte, tail)) => {
            if is_base(byte) {
                1 + digits_length(tail)
            } else {
                0
            }
        }
    }
}

/// Behind the quote.
#[tactic(auto, using(crate::proofs::NumberRows::based_rows))]
pub fn based_length(rest: &[u8]) -> usize
    ensures { HasFront (if_all shape.is_based Number) rest.now Number result }
{
    match first_of(rest) {
        None => 0,
        Some((byte, tail)) => {
            if is_sign(byte) {
                1 + signed_base_length(tail)
            } else if is_base(byte) {
                1 + digits_length(tail)
            } else {
                0
            }
        }
    }
}

/// Behind white space behind a size: the length of more of it, the quote and what goes with it, where they come.
#[tactic(auto, using(crate::proofs::NumberRows::spaced_quote_rows))]
fn spaced_quote_length(rest: &[u8]) -> Option<usize>
    ensures { MatchOption result (HasNoFront (if_all shape.is_spaced_quote Number) rest.now) (HasFront (if_all shape.is_spaced_quote Number) rest.now Number) }
{
    let spaces = white_run(rest);
    let (byte, tail) = first_of(behind(rest, spaces))?;
    if byte == b'\'' {
        Some(spaces + 1 + based_length(tail))
    } else {
        None
    }
}

/// Behind the digits of a size or of a plain decimal number.
#[tactic(auto, using(crate::proofs::NumberRows::number_rows))]
fn quoted_length(rest: &[u8]) -> usize
    requires { prefix_len shape.is_decimal_or_underscore rest.now ≡ 0 }
    ensures { HasFront (if_all shape.is_number_rest Number) rest.now Number result }
{
    match first_of(rest) {
        None => 0,
        Some((byte, tail)) => {
            if is_white(byte) {
                match spaced_quote_length(tail) {
                    Some(size) => 1 + size,
                    None => 0,
                }
            } else if byte == b'\'' {
                1 + based_length(tail)
            } else {
                0
            }
        }
    }
}

/// Behind the first digit of a size or of a plain decimal number.
#[tactic(auto, using(crate::proofs::NumberRows::number_rows))]
pub fn number_length(rest: &[u8]) -> usize
    ensures { HasFront (if_all shape.is_number_rest Number) rest.now Number result }
{
    let digits = decimal_run(rest);
    digits + quoted_length(behind(rest, digits))
}
