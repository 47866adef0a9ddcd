//! What a number's digits say (IEEE 1364-2005, 3.5.1).
ghost use Rattle.std.specs.Prelude.{◌≡◌, ◌+◌, ◌*◌, ◌^◌, ◌<◌, ◌≤◌, ◌||◌, nat_eq, length, position, IfOk, IfSome, MatchOption};
ghost use Rattle.v_lexer.specs.Outcomes.{IsNumberKind};
ghost use Rattle.std.specs.List.{list_any};
ghost use Rattle.v_syntax.specs.Numbers as shape;
ghost use Rattle.v_syntax.specs.Literals as literal;

use crate::bytes::{behind, first_of, is_decimal, white_run};
use crate::numbers::{is_hexadecimal, is_sign, is_unknown, is_wild};
use v_syntax::{NumberFault, TokenKind};

/// The value of a digit; that of a wildcard is 0.
#[tactic(auto, unfolding(v_syntax::specs::Literals::digit_value, v_syntax::specs::Bytes::is_decimal))]
fn digit_value(byte: u8) -> u8
    ensures { result ≡ literal.digit_value byte }
{
    if is_decimal(byte) {
        byte - b'0'
    } else if b'a' <= byte && byte <= b'f' {
        byte - b'a' + 10
    } else if b'A' <= byte && byte <= b'F' {
        byte - b'A' + 10
    } else {
        0
    }
}

/// The value of the digits up to this byte, from that of the digits before it; `None` where it needs more than 128 bits.
#[tactic(auto, using(crate::proofs::LiteralRows::literal_rows))]
fn next_value(value: u128, base: u128, byte: u8) -> Option<u128>
    ensures { MatchOption result (2 ^ 128 ≤ literal.next_value base value byte) (λ next. next ≡ literal.next_value base value byte) }
{
    if is_hexadecimal(byte) || is_wild(byte) {
        value
            .checked_mul(base)?
            .checked_add(u128::from(digit_value(byte)))
    } else {
        Some(value)
    }
}

/// The value of a run of digits; `None` where it needs more than 128 bits.
fn value_of(base: u128, digits: &[u8]) -> Option<u128>
    requires { 1 ≤ base }
    ensures { MatchOption result (2 ^ 128 ≤ literal.value_of base digits.now) (λ value. value ≡ literal.value_of base digits.now) }
{
    let mut value = 0;
    for byte in digits {
        value = next_value(value, base, *byte)?;
    }
    Some(value)
}

/// The number that a base letter names.
#[tactic(auto, unfolding(v_syntax::specs::Literals::base_of))]
fn base_of(byte: u8) -> Option<u128>
    ensures names { result ≡ literal.base_of byte }
    ensures positive { IfSome result (λ base. 1 ≤ base) }
{
    match byte {
        b'b' | b'B' => Some(2),
        b'o' | b'O' => Some(8),
        b'd' | b'D' => Some(10),
        b'h' | b'H' => Some(16),
        _ => None,
    }
}

/// What is wrong with a digit in a base.
#[tactic(auto, unfolding(v_syntax::specs::Literals::digit_fault))]
fn digit_fault(base: u128, byte: u8) -> Option<NumberFault>
    ensures { result ≡ literal.digit_fault base byte }
{
    if is_unknown(byte) {
        Some(NumberFault::Unknown)
    } else if is_wild(byte) {
        if base == 10 {
            Some(NumberFault::Unknown)
        } else {
            None
        }
    } else if is_hexadecimal(byte) {
        if u128::from(digit_value(byte)) < base {
            None
        } else {
            Some(NumberFault::Malformed)
        }
    } else {
        None
    }
}

/// The leftmost fault.
fn digits_fault(base: u128, digits: &[u8]) -> Option<NumberFault>
    ensures { result ≡ literal.digits_fault base digits.now }
{
    for byte in digits {
        if let Some(fault) = digit_fault(base, *byte) {
            return Some(fault);
        }
    }
    None
}

fn has_wild(digits: &[u8]) -> bool
    ensures { result ≡ list_any shape.is_wild digits.now }
{
    digits.iter().any(|byte| is_wild(*byte))
}

/// The digits of a based number: their faults from the left, and a value too wide last.
#[tactic(auto, using(crate::proofs::LiteralRows::bound_rows))]
fn judge_digits(base: u128, digits: &[u8]) -> Result<TokenKind, NumberFault>
    requires { 1 ≤ base }
    ensures judged { result ≡ literal.judge_digits base digits.now }
    ensures number { IfOk result IsNumberKind }
{
    if digits.is_empty() {
        return Err(NumberFault::Malformed);
    }
    match digits_fault(base, digits) {
        Some(fault) => Err(fault),
        None => match value_of(base, digits) {
            None => Err(NumberFault::Wide),
            Some(_) => {
                if has_wild(digits) {
                    Ok(TokenKind::Wild)
                } else {
                    Ok(TokenKind::Number)
                }
            }
        },
    }
}

/// The bytes from the first that is no white space.
pub fn skip_white(bytes: &[u8]) -> &[u8]
    ensures { result.now ≡ literal.skip_white bytes.now }
{
    behind(bytes, white_run(bytes))
}

/// The base letter and the digits behind it.
#[tactic(auto, using(crate::proofs::LiteralRows::bound_rows))]
fn judge_base(rest: &[u8]) -> Result<TokenKind, NumberFault>
    ensures judged { result ≡ literal.judge_base rest.now }
    ensures number { IfOk result IsNumberKind }
{
    match first_of(rest) {
        None => Err(NumberFault::Malformed),
        Some((byte, tail)) => match base_of(byte) {
            None => Err(NumberFault::Malformed),
            Some(base) => judge_digits(base, skip_white(tail)),
        },
    }
}

/// What stands behind the quote.
fn judge_based(rest: &[u8]) -> Result<TokenKind, NumberFault>
    ensures judged { result ≡ literal.judge_based rest.now }
    ensures number { IfOk result IsNumberKind }
{
    match first_of(rest) {
        None => Err(NumberFault::Malformed),
        Some((byte, tail)) => {
            if is_sign(byte) {
                judge_base(tail)
            } else {
                judge_base(rest)
            }
        }
    }
}

/// Whether a size is there that isn't 1 to 128.
#[tactic(auto, using(crate::proofs::LiteralRows::bound_rows))]
fn is_bad_size(size: &[u8]) -> bool
    ensures { result ≡ literal.is_bad_size size.now }
{
    if size.is_empty() {
        return false;
    }
    match value_of(10, size) {
        None => true,
        Some(value) => value == 0 || 128 < value,
    }
}

/// A plain decimal number has 32 bits.
#[tactic(auto, using(crate::proofs::LiteralRows::bound_rows))]
fn judge_plain(digits: &[u8]) -> Result<TokenKind, NumberFault>
    ensures judged { result ≡ literal.judge_plain digits.now }
    ensures number { IfOk result IsNumberKind }
{
    match value_of(10, digits) {
        None => Err(NumberFault::Wide),
        Some(value) => {
            if value < 4294967296 {
                Ok(TokenKind::Number)
            } else {
                Err(NumberFault::Wide)
            }
        }
    }
}

/// Where the first quote stands.
fn quote_at(bytes: &[u8]) -> Option<usize>
    ensures at { result ≡ position (λ byte. nat_eq byte 39) bytes.now }
    ensures within { IfSome result (λ at. at < length bytes.now) }
{
    bytes.iter().position(|byte| *byte == b'\'')
}

/// A number's kind, or what is wrong with it.
pub fn judge(bytes: &[u8]) -> Result<TokenKind, NumberFault>
    ensures judged { result ≡ literal.judge bytes.now }
    ensures number { IfOk result IsNumberKind }
{
    match quote_at(bytes) {
        None => judge_plain(bytes),
        Some(at) => {
            let (size, _) = bytes.split_at(at);
            if is_bad_size(size) {
                Err(NumberFault::Wide)
            } else {
                judge_based(behind(bytes, at + 1))
            }
        }
    }
}
