//! Times of a dump (IEEE 1364-2005, 18.2): decimal numbers of 1 to 18 digits.
ghost use Rattle.std.specs.Prelude.{◌≡◌};
ghost use Rattle.vcd_words.specs.Times.{time_in, TimeBack};

use loc_base::is_decimal;

/// The time that a word says, where it is made of 1 to 18 decimal digits.
#[tactic(auto, using(crate::proofs::TimeSteps::time_steps))]
pub fn read_time(word: &[u8]) -> Option<u64>
    ensures { result ≡ time_in word.now }
{
    if word.is_empty() || 18 < word.len() {
        return None;
    }
    let mut time = 0u64;
    for digit in word {
        if !is_decimal(*digit) {
            return None;
        }
        time = time * 10 + u64::from(*digit - b'0');
    }
    Some(time)
}

/// A time that is written in decimal is read back.
#[tactic(auto, using(crate::proofs::TimeLaws::time_laws))]
pub fn time_back()
    ensures { TimeBack }
{}
