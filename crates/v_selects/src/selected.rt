//! Which bits a select names (IEEE 1364-2005, 5.2.1).
ghost use Rattle.std.specs.Prelude.{◌≡◌, ◌+◌, ◌-◌, ◌≤◌, ◌<◌, ℤ, pos, negsuc, ◌+ℤ◌, ◌-ℤ◌, ◌≤ℤ◌, min, int_lt};
ghost use Rattle.v_selects.specs.Integer.{whole};
ghost use Rattle.v_selects.specs.Capped.{capped, near};
ghost use Rattle.v_sizes.specs.Selected.{descends, part_count, runs_along, base_index, part_offset, bits_below, bits_within, start_within};
ghost use Rattle.design_core.specs.Valuation.{distance_of};

use crate::integer::{Integer, at_least_0, count_between, is_less};
use v_syntax::PartKind;

/// The indexes of the leftmost and the rightmost bit of a word.
#[derive(Clone, Copy)]
pub(crate) struct Bounds {
    pub left: i32,
    pub right: i32,
}

/// Whether the indexes become less from the left to the right.
pub(crate) fn descends(bounds: Bounds) -> bool
    ensures { result ≡ descends bounds.left bounds.right }
{
    bounds.left >= bounds.right
}

/// How many bits a part-select names, or one more than a word has.
pub(crate) fn part_count(kind: PartKind, one: Integer, other: Integer) -> u8
    ensures { result ≡ min 129 (part_count kind (whole one) (whole other)) }
{
    match kind {
        PartKind::Range => count_between(one, other),
        PartKind::Up | PartKind::Down => at_least_0(other),
    }
}

/// Whether a part-select runs as the declared range does.
pub(crate) fn runs_along(kind: PartKind, down: bool, one: Integer, other: Integer) -> bool
    ensures { result ≡ runs_along kind down (whole one) (whole other) }
{
    match kind {
        PartKind::Range => {
            if down {
                !is_less(one, other)
            } else {
                !is_less(other, one)
            }
        }
        PartKind::Up | PartKind::Down => true,
    }
}

/// The index from which those of the bits are counted.
pub(crate) fn base_index(kind: PartKind, one: Integer, other: Integer) -> Integer
    ensures { whole result ≡ base_index kind (whole one) (whole other) }
{
    match kind {
        PartKind::Range => other,
        PartKind::Up | PartKind::Down => one,
    }
}

/// How far the index of a bit lies from that index.
pub(crate) fn part_offset(kind: PartKind, down: bool, count: u8, place: u8) -> i32
    requires { place < count }
    ensures { result ≡ part_offset kind down count place }
{
    let place = i32::from(place);
    let last = i32::from(count) - 1;
    match kind {
        PartKind::Range => { if down { place } else { -place } }
        PartKind::Up => { if down { place } else { last - place } }
        PartKind::Down => { if down { place - last } else { -place } }
    }
}

/// An index, or one that lies beyond every range.
pub(crate) fn near(index: Integer) -> i64
    ensures value { result ≡ near (whole index) }
    ensures least { negsuc 1099511627776 ≤ℤ result }
    ensures most { result ≤ℤ pos 1099511627776 }
{
    match index {
        Integer::Natural(index) => index.min(1 << 40) as i64,
        Integer::Below(index) => -1 - (index.min(1 << 40) as i64),
    }
}

/// How far an index lies from the one of the rightmost bit, towards the leftmost.
fn apart(bounds: Bounds, index: i64) -> i64
    requires least { negsuc 1099511628776 ≤ℤ index }
    requires most { index ≤ℤ pos 1099511628776 }
    ensures value { result ≡ distance_of bounds.left bounds.right index }
    ensures least { negsuc 2147483647 ≤ℤ bounds.right }
    ensures most { bounds.right ≤ℤ pos 2147483647 }
{
    let right = i64::from(bounds.right);
    if bounds.left < bounds.right {
        right - index
    } else {
        index - right
    }
}

/// A distance, or one beyond each word's bits on its side.
fn cut(distance: i64) -> i64
    ensures { result ≡ capped distance }
{
    if distance < -1001 {
        -1001
    } else if distance > 1000 {
        1000
    } else {
        distance
    }
}

/// How far the index of a bit lies from that of the rightmost one, towards the leftmost.
#[tactic(auto, using(crate::proofs::Indexes::near_enough))]
pub(crate) fn distance_of(bounds: Bounds, index: Integer, offset: i32) -> i64
    requires least { negsuc 254 ≤ℤ offset }
    requires most { offset ≤ℤ pos 255 }
    ensures { result ≡ capped (distance_of bounds.left bounds.right (whole index +ℤ offset)) }
{
    cut(apart(bounds, near(index) + i64::from(offset)))
}
