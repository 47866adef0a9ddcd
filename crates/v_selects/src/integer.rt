//! Whole numbers that words mean (IEEE 1364-2005, 5.1.3).
ghost use Rattle.std.specs.Prelude.{◌≡◌, ◌+◌, ◌-◌, ◌≤◌, min, int_lt};
ghost use Rattle.loc_base.specs.Bits.{width_of, value_of};
ghost use Rattle.design_core.specs.Operator.{integer_of};
ghost use Rattle.v_selects.specs.Integer.{whole};
ghost use Rattle.v_sizes.specs.Selected.{at_least_0, count_between};

use loc_base::Bits;
use v_sizes::numbers::is_below_0;

/// A whole number.
#[derive(Clone, Copy)]
pub(crate) enum Integer {
    Natural(u128),
    /// So far below -1.
    Below(u128),
}

/// The whole number that a word means.
#[tactic(auto, using(v_sizes::proofs::Integers::signs, crate::proofs::Indexes::words))]
pub(crate) fn integer_of(word: Bits, signed: bool) -> Integer
    ensures { whole result ≡ integer_of signed (width_of word) (value_of word) }
{
    if is_below_0(word, signed) {
        Integer::Below(word.not().value())
    } else {
        Integer::Natural(word.value())
    }
}

pub(crate) fn is_less(one: Integer, other: Integer) -> bool
    ensures { result ≡ int_lt (whole one) (whole other) }
{
    match one {
        Integer::Natural(one) => match other {
            Integer::Natural(other) => one < other,
            Integer::Below(_) => false,
        },
        Integer::Below(one) => match other {
            Integer::Natural(_) => true,
            Integer::Below(other) => other < one,
        },
    }
}

/// A number, or the one above the most bits that a word has.
fn capped(number: u128) -> u8
    ensures { result ≡ min 129 number }
{
    if number < 129 { number as u8 } else { 129 }
}

/// A whole number as a natural one: none below 0.
pub(crate) fn at_least_0(number: Integer) -> u8
    ensures { result ≡ min 129 (at_least_0 (whole number)) }
{
    match number {
        Integer::Natural(number) => capped(number),
        Integer::Below(_) => 0,
    }
}

/// How many numbers there are from one natural number to another.
fn between(one: u128, other: u128) -> u8
    ensures least { one ≤ other → result ≡ min 129 (other - one + 1) }
    ensures most { other ≤ one → result ≡ min 129 (one - other + 1) }
{
    let apart = if one < other {
        other - one
    } else {
        one - other
    };
    capped(u128::from(capped(apart)) + 1)
}

/// How many indexes there are from one bound to another.
pub(crate) fn count_between(one: Integer, other: Integer) -> u8
    ensures { result ≡ min 129 (count_between (whole one) (whole other)) }
{
    match one {
        Integer::Natural(one) => match other {
            Integer::Natural(other) => between(one, other),
            Integer::Below(other) => across(one, other),
        },
        Integer::Below(one) => match other {
            Integer::Natural(other) => across(other, one),
            Integer::Below(other) => between(one, other),
        },
    }
}

/// How many indexes there are from a natural number to one below 0.
fn across(natural: u128, below: u128) -> u8
    ensures { result ≡ min 129 (natural + below + 2) }
{
    let sum = u128::from(capped(natural)) + u128::from(capped(below));
    capped(sum + 2)
}
