//! Powers by squaring, and the logarithm (IEEE 1364-2005, 5.1.5 and 17.11).
ghost use Rattle.std.specs.Prelude.{◌≡◌, ◌<◌, ◌%◌, ◌^◌};
ghost use Rattle.loc_base.specs.Bits.{width_of, value_of};
ghost use Rattle.v_sizes.specs.Operations.{ceiling_of_logarithm};

use crate::numbers::low_bits;
use loc_base::Bits;

/// A power modulo 2 ^ width; it takes as many turns as the exponent has bits.
#[tactic(auto, using(crate::proofs::Powers::powers))]
pub fn power(base: Bits, exponent: u128) -> Bits
    ensures width { width_of result ≡ width_of base }
    ensures value { value_of result ≡ value_of base ^ exponent % 2 ^ width_of base }
{
    let mut power = low_bits(base.width(), 1);
    let mut square = base;
    let mut left = exponent;
    while left > 0 {
        if left % 2 == 1 {
            power = power.mul(square);
        }
        square = square.mul(square);
        left /= 2;
    }
    power
}

/// A power of 2.
fn two_to(bits: u8) -> u128
    requires { bits < 128 }
    ensures { result ≡ 2 ^ bits }
{
    1 << bits
}

/// The least number of bits that count to a number: 0 for 0.
#[tactic(auto, using(crate::proofs::Powers::logarithms))]
pub fn logarithm(number: u128) -> u8
    ensures { result ≡ ceiling_of_logarithm number }
{
    for bits in 0..128 {
        if number <= two_to(bits) {
            return bits;
        }
    }
    128
}
