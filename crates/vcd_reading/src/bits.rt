//! The bits of variables that names say.
ghost use Rattle.std.specs.Prelude.{◌≡◌, ◌<◌, IfSome, length};
ghost use Rattle.std.specs.Option.{option_map};
ghost use Rattle.vcd_reading.specs.Bits.{bit_in, is_underscore, last_place, number_in};
ghost use Rattle.vcd_reading.specs.PortView.{bit_of};

use vcd_words::read_time;

/// A bit of a variable: the name of the variable, and the number of the bit, from the lowest.
#[derive(Clone, Copy)]
pub struct BitName<'a> {
    pub name: &'a [u8],
    pub number: u8,
}

/// The place of the last `_`.
#[tactic(auto, using(crate::proofs::BitSteps::bit_steps))]
fn last_underscore(bytes: &[u8]) -> Option<usize>
    ensures place { result ≡ last_place is_underscore bytes.now }
    ensures within { IfSome result (λ place. place < length bytes.now) }
{
    let mut last = None;
    for (i, byte) in bytes.iter().enumerate() {
        if *byte == b'_' {
            last = Some(i);
        }
    }
    last
}

/// The number below 128 that decimal digits say, without a 0 in front.
fn number_in(digits: &[u8]) -> Option<u8>
    ensures { result ≡ number_in digits.now }
{
    if 1 < digits.len() && digits[0] == b'0' {
        return None;
    }
    let number = read_time(digits)?;
    if number < 128 {
        Some(number as u8)
    } else {
        None
    }
}

/// The bit that a name says, if it is `NAME_i_`.
pub fn bit_in(name: &[u8]) -> Option<BitName<'_>>
    ensures { option_map bit_of result ≡ bit_in name.now }
{
    let front = name.strip_suffix(b"_")?;
    let place = last_underscore(front)?;
    let number = number_in(&front[place + 1..])?;
    Some(BitName {
        name: &front[..place],
        number,
    })
}
