//! What stands behind the word of a `line` directive (IEEE 1364-2005, 19.7): a number, a file's name in double quotes and a level.
ghost use Rattle.std.specs.Prelude.{◌≡◌, ◌≤◌, length};
ghost use Rattle.std.specs.List.{prefix_len};
ghost use Rattle.v_syntax.specs.Bytes as class;
ghost use Rattle.v_lexer.specs.LineDirectives as line;

use crate::bytes::{behind, first_of, is_all_white, is_decimal, is_white};
use crate::literals::skip_white;

fn is_level_digit(byte: u8) -> bool
    ensures { result ≡ line.is_level_digit byte }
{
    b'0' <= byte && byte <= b'2'
}

fn digit_run(bytes: &[u8]) -> usize
    ensures counts { result ≡ prefix_len class.is_decimal bytes.now }
    ensures within { result ≤ length bytes.now }
{
    bytes.iter().take_while(|byte| is_decimal(**byte)).count()
}

/// How many bytes stand before the first quote.
fn unquoted_run(bytes: &[u8]) -> usize
    ensures counts { result ≡ prefix_len line.not_quote bytes.now }
    ensures within { result ≤ length bytes.now }
{
    bytes.iter().take_while(|byte| **byte != b'"').count()
}

/// Whether the bytes are a level, with nothing but white space behind it.
fn is_level(bytes: &[u8]) -> bool
    ensures { result ≡ line.is_level bytes.now }
{
    match first_of(bytes) {
        None => false,
        Some((byte, rest)) => is_level_digit(byte) && is_all_white(rest),
    }
}

/// The same behind white space.
fn is_spaced_level(bytes: &[u8]) -> bool
    ensures { result ≡ line.is_spaced_level bytes.now }
{
    match first_of(bytes) {
        None => false,
        Some((byte, rest)) => is_white(byte) && is_level(skip_white(rest)),
    }
}

/// The same behind the quote that closes a file's name.
fn is_quote_and_level(bytes: &[u8]) -> bool
    ensures { result ≡ line.is_quote_and_level bytes.now }
{
    match first_of(bytes) {
        None => false,
        Some((_, rest)) => is_spaced_level(rest),
    }
}

/// Whether the bytes are a file's name in quotes and a level.
fn is_file(bytes: &[u8]) -> bool
    ensures { result ≡ line.is_file bytes.now }
{
    match first_of(bytes) {
        None => false,
        Some((byte, rest)) => byte == b'"' && is_quote_and_level(behind(rest, unquoted_run(rest))),
    }
}

/// The same behind white space.
fn is_spaced_file(bytes: &[u8]) -> bool
    ensures { result ≡ line.is_spaced_file bytes.now }
{
    match first_of(bytes) {
        None => false,
        Some((byte, rest)) => is_white(byte) && is_file(skip_white(rest)),
    }
}

/// The same behind the digits of a number.
fn is_numbered_file(bytes: &[u8]) -> bool
    ensures { result ≡ line.is_numbered_file bytes.now }
{
    match first_of(bytes) {
        None => false,
        Some((byte, rest)) => is_decimal(byte) && is_spaced_file(behind(rest, digit_run(rest))),
    }
}

/// Whether the bytes may stand behind the word.
#[tactic(auto, unfolding(crate::specs::LineDirectives::is_line_tail))]
pub fn is_line_tail(bytes: &[u8]) -> bool
    ensures { result ≡ line.is_line_tail bytes.now }
{
    match first_of(bytes) {
        None => false,
        Some((byte, rest)) => is_white(byte) && is_numbered_file(skip_white(rest)),
    }
}
