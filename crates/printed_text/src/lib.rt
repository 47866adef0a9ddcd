//! Numbers and values of words as text: decimal, and hexadecimal with a digit for every four bits. Each call appends to
//! a text, so that a line can be made in the room of the one before.
#![tactic(auto)]

ghost use Rattle.std.specs.Prelude.{◌≡◌, ◌≤◌, ◌<◌, ◌+◌, ◌/◌, ◌++◌, ◌∷◌, [], OnOk, decimal};
ghost use Rattle.loc_base.specs.Bits.{width_of, value_of};
ghost use Rattle.printed_text.specs.Numerals.{hex, hex_digit, value_text};

use itoa::Buffer;
use loc_base::{Bits, NoMemory};

/// Appends a piece.
pub fn push_bytes(text: &mut Vec<u8>, piece: &[u8]) -> Result<(), NoMemory>
    ensures { OnOk result (text.new.items ≡ text.old.items ++ piece.now) }
{
    text.extend_from_slice(piece)?;
    Ok(())
}

/// Appends a number in decimal.
pub fn push_number(text: &mut Vec<u8>, number: u64) -> Result<(), NoMemory>
    ensures { OnOk result (text.new.items ≡ text.old.items ++ decimal number) }
{
    let mut buffer = Buffer::new();
    push_bytes(text, buffer.format(number).as_bytes())
}

/// A digit of base 16, in lower case.
fn hex_digit(digit: u8) -> u8
    requires { digit < 16 }
    ensures { result ≡ hex_digit digit }
{
    if digit < 10 { b'0' + digit } else { 87 + digit }
}

/// Appends a digit of base 16.
fn push_digit(text: &mut Vec<u8>, digit: u8) -> Result<(), NoMemory>
    requires { digit < 16 }
    ensures { OnOk result (text.new.items ≡ text.old.items ++ hex_digit digit ∷ []) }
{
    text.push(hex_digit(digit))?;
    Ok(())
}

/// Appends the lowest digits of a number in base 16, so many.
fn push_hex(text: &mut Vec<u8>, count: u8, number: u128) -> Result<(), NoMemory>
    ensures { OnOk result (text.new.items ≡ text.old.items ++ hex count number) }
{
    if count == 0 {
        return Ok(());
    }
    push_hex(text, count - 1, number / 16)?;
    push_digit(text, (number % 16) as u8)?;
    Ok(())
}

/// Appends the value of a word in base 16, a digit for every four bits.
pub fn push_value(text: &mut Vec<u8>, word: Bits) -> Result<(), NoMemory>
    ensures { OnOk result (text.new.items ≡ text.old.items ++ value_text (width_of word) (value_of word)) }
{
    push_hex(text, (word.width() + 3) / 4, word.value())
}
