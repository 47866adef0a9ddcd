//! Identifier codes of variables (IEEE 1364-2005, 18.2): one for each number, and a place for each code.
ghost use Rattle.std.specs.Prelude.{◌≡◌, ◌≤◌, ◌-◌, ◌++◌, true, OnOk};
ghost use Rattle.loc_base.specs.Ascii.{is_visible};
ghost use Rattle.vcd_words.specs.Codes.{code_of, place_in, CodeLaws};

use loc_base::{Bytes, NoMemory, is_visible};

/// Appends the code of the variable with a number: its digits in base 94, the least first.
#[tactic(auto, using(crate::proofs::CodeSteps::code_steps))]
pub fn write_code(text: &mut Bytes, number: u64) -> Result<(), NoMemory>
    ensures { OnOk result (text.new ≡ text.old ++ code_of number) }
{
    let mut left = number;
    for _digit in 0..10u8 {
        text.push(b'!' + (left % 94) as u8)?;
        left /= 94;
        if left == 0 {
            return Ok(());
        }
    }
    Ok(())
}

/// The digit that a character of a code has in its place.
fn place_digit(byte: u8) -> u64
    requires { is_visible byte ≡ true }
    ensures value { result ≡ byte - 32 }
    ensures small { result ≤ 94 }
{
    u64::from(byte - b' ')
}

/// The place of a word among all codes, where it is a code of 1 to 9 characters. Codes that differ have places that
/// differ.
#[tactic(auto, using(crate::proofs::CodeSteps::place_steps))]
pub fn code_place(word: &[u8]) -> Option<u64>
    ensures { result ≡ place_in word.now }
{
    if word.is_empty() || 9 < word.len() {
        return None;
    }
    let mut place = 0u64;
    let mut power = 1u64;
    for byte in word {
        if !is_visible(*byte) {
            return None;
        }
        place += place_digit(*byte) * power;
        power *= 94;
    }
    Some(place)
}

/// A number is read back from its code, and codes that differ have places that differ.
#[tactic(auto, using(crate::proofs::CodeLaws::code_laws))]
pub fn code_laws()
    ensures { CodeLaws }
{}
