//! Numbers: decimal digits without leading zeros, in 32 bits.
ghost use Rattle.std.specs.Prelude.{◌≡◌, ◌≤◌, length, if◌then◌else◌, Some, None, IfOk};
ghost use Rattle.std.specs.List.{list_all};
ghost use Rattle.loc_base.specs.Ascii.{is_decimal};
ghost use Rattle.aiger_text.specs.Numbers.{is_short, number_of, number_in, numbers_in};

use crate::cut::cut_at;
use loc_base::{NoMemory, is_decimal};

/// Whether a word has one to ten bytes, the first of them no `0` unless it is the only one.
fn is_short(word: &[u8]) -> bool
    ensures { result ≡ is_short word.now }
{
    !word.is_empty() && word.len() <= 10 && (word.len() == 1 || word[0] != b'0')
}

/// The number that decimal digits mean.
#[tactic(auto, using(crate::proofs::NumberSteps::number_steps))]
fn digits(word: &[u8]) -> Option<u64>
    requires { length word.now ≤ 10 }
    ensures { result ≡ (if list_all is_decimal word.now then Some (number_of word.now) else None) }
{
    let mut number = 0u64;
    for digit in word {
        if !is_decimal(*digit) {
            return None;
        }
        number = number * 10 + u64::from(*digit - b'0');
    }
    Some(number)
}

/// The number that a word says.
pub(crate) fn number(word: &[u8]) -> Option<u32>
    ensures { result ≡ number_in word.now }
{
    if !is_short(word) {
        return None;
    }
    match digits(word) {
        Some(number) if number <= 0xffff_ffff => Some(number as u32),
        _ => None,
    }
}

/// Puts the numbers of a line into a list, and answers whether each word is one.
#[tactic(auto, using(crate::proofs::NumberSteps::line_steps))]
pub(crate) fn read_numbers(line: &[u8], numbers: &mut Vec<u32>) -> Result<bool, NoMemory>
    ensures { IfOk result (λ read. numbers_in line.now ≡ (if read then Some numbers.new.items else None)) }
{
    numbers.clear();
    let mut rest = line;
    while let Some(cut) = cut_at(rest, b' ') {
        match number(cut.front) {
            Some(number) => numbers.push(number)?,
            None => return Ok(false),
        }
        rest = cut.back;
    }
    match number(rest) {
        Some(number) => numbers.push(number)?,
        None => return Ok(false),
    }
    Ok(true)
}
