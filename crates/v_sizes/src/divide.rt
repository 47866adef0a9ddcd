//! The operators that stand in constants alone (IEEE 1364-2005, 5.1.5 and 17.11).
ghost use Rattle.std.specs.Prelude.{◌≡◌, ◌/◌, ◌%◌};
ghost use Rattle.loc_base.specs.Bits.{width_of, value_of};
ghost use Rattle.design_core.specs.Operator.{integer_of};
ghost use Rattle.v_sizes.specs.Operations.{quotient_of, remainder_of};

use crate::numbers::{is_below_0, magnitude, word_of};
use loc_base::Bits;

/// The quotient of two distances; 0 where the divisor is.
#[tactic(auto, using(crate::proofs::Integers::by_zero))]
fn divided(distance: u128, divisor: u128) -> u128
    ensures { result ≡ distance / divisor }
{
    if divisor == 0 { 0 } else { distance / divisor }
}

/// The remainder of two distances; the first one where the divisor is 0.
#[tactic(auto, using(crate::proofs::Integers::by_zero))]
fn rest(distance: u128, divisor: u128) -> u128
    ensures { result ≡ distance % divisor }
{
    if divisor == 0 {
        distance
    } else {
        distance % divisor
    }
}

/// The quotient cut towards 0.
pub fn quotient(left: Bits, right: Bits, signed: bool) -> Bits
    ensures width { width_of result ≡ width_of left }
    ensures value { value_of result ≡ quotient_of (width_of left) (integer_of signed (width_of left) (value_of left)) (integer_of signed (width_of right) (value_of right)) }
{
    let negative = is_below_0(left, signed) != is_below_0(right, signed);
    let distance = divided(magnitude(left, signed), magnitude(right, signed));
    word_of(left.width(), negative, distance)
}

/// The remainder, with the sign of the left operand.
pub fn remainder(left: Bits, right: Bits, signed: bool) -> Bits
    ensures width { width_of result ≡ width_of left }
    ensures value { value_of result ≡ remainder_of (width_of left) (integer_of signed (width_of left) (value_of left)) (integer_of signed (width_of right) (value_of right)) }
{
    let distance = rest(magnitude(left, signed), magnitude(right, signed));
    word_of(left.width(), is_below_0(left, signed), distance)
}
