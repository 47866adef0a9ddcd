//! The levels of variables, read from digits and written as such (IEEE 1364-2005, 18.2).
ghost use Rattle.std.specs.Prelude.{◌≡◌, ◌<◌, ◌++◌, ◌∷◌, [], OnOk};
ghost use Rattle.loc_base.specs.Bits.{width_of, value_of};
ghost use Rattle.vcd_words.specs.Levels.{is_unknown, is_level_digit, shifted, filled, level_in, unknown_level, digit_of, digits_of, DigitsMean};

use loc_base::{Bits, Bytes, NoMemory};

/// The level of a variable: for each bit, from the lowest, whether it is 1 and whether it is unknown, x or z. It is one
/// of 128 bits; a variable of a smaller width has its lowest ones.
#[derive(Clone, Copy, Debug, PartialEq, Eq)]
pub struct Level {
    pub ones: u128,
    pub unknowns: u128,
}

impl Level {
    /// The level of a variable before its first change: no bit is known.
    pub fn unknown() -> Level
        ensures { result ≡ unknown_level }
    {
        Level {
            ones: 0,
            unknowns: u128::MAX,
        }
    }

    /// The level with one digit more on the right.
    fn shifted(self, digit: u8) -> Level
        ensures { result ≡ shifted self digit }
    {
        Level {
            ones: (self.ones << 1) + u128::from(digit == b'1'),
            unknowns: (self.unknowns << 1) + u128::from(is_unknown(digit)),
        }
    }
}

/// Whether a digit says that its bit is not known.
fn is_unknown(digit: u8) -> bool
    ensures { result ≡ is_unknown digit }
{
    digit == b'x' || digit == b'X' || digit == b'z' || digit == b'Z'
}

/// Whether a byte is a digit of a level: 0, 1, x or z.
pub fn is_level_digit(byte: u8) -> bool
    ensures { result ≡ is_level_digit byte }
{
    byte == b'0' || byte == b'1' || is_unknown(byte)
}

/// What stands on the left of digits, by the leftmost of them.
fn filled(first: u8) -> Level
    ensures { result ≡ filled (first ∷ []) }
{
    if is_unknown(first) {
        return Level::unknown();
    }
    Level {
        ones: 0,
        unknowns: 0,
    }
}

/// The level that a word says, where it is made of digits, the most significant first. It is extended on the left by
/// its leftmost digit, with 0 for 0 and 1.
#[tactic(auto, using(crate::proofs::LevelSteps::level_steps))]
pub fn read_level(word: &[u8]) -> Option<Level>
    ensures { result ≡ level_in word.now }
{
    if word.is_empty() {
        return None;
    }
    let mut level = filled(word[0]);
    for digit in word {
        if !is_level_digit(*digit) {
            return None;
        }
        level = level.shifted(*digit);
    }
    Some(level)
}

/// The digit of a bit: x where it is not known.
fn digit_of(bit: u128, known: u128) -> u8
    requires { bit < 2 }
    ensures { result ≡ digit_of bit known }
{
    if known == 0 {
        b'x'
    } else if bit == 0 {
        b'0'
    } else {
        b'1'
    }
}

/// Appends all digits of a value, the most significant first: x for each bit that is not in the mask.
#[tactic(auto, using(crate::proofs::DigitSteps::digit_steps))]
pub fn write_digits(text: &mut Bytes, value: Bits, mask: u128) -> Result<(), NoMemory>
    ensures { OnOk result (text.new ≡ text.old ++ digits_of (width_of value) (value_of value) mask) }
{
    let width = value.width();
    let bits = value.value();
    for done in 0..width {
        let place = width - 1 - done;
        text.push(digit_of((bits >> place) % 2, (mask >> place) % 2))?;
    }
    Ok(())
}

/// The level of a value's digits is that value within its mask.
#[tactic(auto, using(crate::proofs::LevelLaws::level_laws))]
pub fn digits_mean()
    ensures { DigitsMean }
{}
