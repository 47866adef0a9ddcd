//! What a finished operand shows to the expression in which it stands.
ghost use Rattle.std.specs.Prelude.{◌≡◌, ◌≤◌, ◌%◌, ◌^◌};
ghost use Rattle.loc_base.specs.Bits.{width_of, value_of};
ghost use Rattle.v_sizes.specs.Literal.{limited};
ghost use Rattle.v_sizes.specs.Operations.{is_below_0, magnitude};
ghost use Rattle.v_sizes.specs.Sizing.{known};
ghost use Rattle.v_selects.specs.Folding.{number_in};
ghost use Rattle.v_selects.specs.Integer.{whole};
ghost use Rattle.v_selects.specs.Taken.{taken};

use crate::closed::Closed;
use crate::integer::{Integer, integer_of};
use crate::node::low_in;
use design_core::Typed;
use loc_base::Bits;
use v_sizes::numbers::{limited, magnitude};

/// The word of a finished operand that is a constant, in its own width.
pub fn number_word(e: &Typed) -> Bits
    ensures width { width_of result ≡ limited e.now.width }
    ensures value { value_of result ≡ number_in e.now % 2 ^ limited e.now.width }
{
    low_in(limited(e.width), e)
}

/// The whole number that a constant is; 0 where there is none.
pub(crate) fn known(e: &Closed) -> Integer
    ensures { whole result ≡ known (taken e.now) }
{
    if !e.constant {
        return Integer::Natural(0);
    }
    integer_of(number_word(&e.typed), e.typed.signed)
}

/// Whether a finished operand is a constant below 0.
pub fn is_known_below_0(e: &Closed) -> bool
    ensures { result ≡ is_below_0 (known (taken e.now)) }
{
    match known(e) {
        Integer::Natural(_) => false,
        Integer::Below(_) => true,
    }
}

/// How far a finished operand that is a constant lies from 0.
pub fn known_magnitude(e: &Closed) -> u128
    ensures { result ≡ magnitude (known (taken e.now)) }
{
    if e.constant {
        magnitude(number_word(&e.typed), e.typed.signed)
    } else {
        0
    }
}
