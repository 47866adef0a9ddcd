//! The bits of a part-select (IEEE 1364-2005, 5.2.1): their number, their offsets, their value in a constant.
ghost use Rattle.std.specs.Prelude.{◌≡◌, ◌≤◌, ◌<◌, ◌+◌, ◌^◌, ◌+ℤ◌, if◌then◌else◌, IfOk};
ghost use Rattle.loc_base.specs.Bits.{width_of, value_of};
ghost use Rattle.design_core.specs.Valuation.{bit, distance_of, place_within, bit_or_zero};
ghost use Rattle.v_selects.specs.Capped.{capped};
ghost use Rattle.v_selects.specs.Integer.{whole};
ghost use Rattle.v_sizes.specs.Selected.{descends, part_offset, part_number, bit_at_index};
ghost use Rattle.v_sizes.specs.Sized.{offsets_to};

use crate::integer::Integer;
use crate::places::place_within;
use crate::selected::{Bounds, descends, distance_of, part_offset};
use loc_base::{Bits, Items, NoMemory};
use std::alloc::Global;
use v_syntax::PartKind;

/// So many bits of a word, by the index from which theirs are counted.
#[derive(Clone, Copy)]
pub(crate) struct PartBits {
    pub kind: PartKind,
    pub base: Integer,
    /// 1 to 128.
    pub count: u8,
}

/// How far a bit of a part lies from the rightmost bit of its word.
pub(crate) fn distance_at(bounds: Bounds, part: PartBits, place: u8) -> i64
    requires within { place < part.count }
    requires most { part.count ≤ 128 }
    ensures { result ≡ capped (distance_of bounds.left bounds.right (whole part.base +ℤ part_offset part.kind (descends bounds.left bounds.right) part.count place)) }
{
    let offset = part_offset(part.kind, descends(bounds), part.count, place);
    distance_of(bounds, part.base, offset)
}

/// The offsets of a part's bits from that index, from bit 0 on.
#[tactic(auto, using(crate::proofs::Parted::listed))]
pub(crate) fn offsets(alloc: Global, down: bool, part: PartBits) -> Result<Items<i32>, NoMemory>
    requires { part.count ≤ 128 }
    ensures { IfOk result (λ list. list ≡ offsets_to (part_offset part.kind down part.count) part.count) }
{
    let mut list = Items::new(alloc);
    for place in 0..part.count {
        list.push(part_offset(part.kind, down, part.count, place))?;
    }
    Ok(list)
}

/// One bit of a word by its place, and 0 where there is none.
fn bit_at(word: Bits, distance: i64) -> bool
    ensures { result ≡ bit_or_zero (bit (value_of word)) (place_within (width_of word) distance) }
{
    match place_within(word.width().into(), distance) {
        Some(place) => word.value() >> place & 1 == 1,
        None => false,
    }
}

/// A bit of a part of a word.
#[tactic(auto, using(crate::proofs::Parted::cut_bits))]
fn bit_of_part(word: Bits, bounds: Bounds, part: PartBits, place: u8) -> bool
    requires within { place < part.count }
    requires most { part.count ≤ 128 }
    ensures { result ≡ bit_at_index (bit (value_of word)) (width_of word) bounds.left bounds.right (whole part.base +ℤ part_offset part.kind (descends bounds.left bounds.right) part.count place) }
{
    bit_at(word, distance_at(bounds, part, place))
}

fn two_to(place: u8) -> u128
    requires { place < 128 }
    ensures { result ≡ 2 ^ place }
{
    1 << place
}

/// A number with one bit more on its left.
fn with_bit(number: u128, place: u8, one: bool) -> u128
    requires few { place < 128 }
    requires below { number < 2 ^ place }
    ensures { result ≡ number + (if one then 2 ^ place else 0) }
{
    if one { number + two_to(place) } else { number }
}

/// The number that a part of a constant means.
#[tactic(auto, using(crate::proofs::Parted::numbers))]
pub(crate) fn value_of_part(word: Bits, bounds: Bounds, part: PartBits) -> u128
    requires { part.count ≤ 128 }
    ensures { result ≡ part_number (bit (value_of word)) (width_of word) bounds.left bounds.right (whole part.base) part.count (part_offset part.kind (descends bounds.left bounds.right) part.count) }
{
    let mut number = 0;
    for place in 0..part.count {
        number = with_bit(number, place, bit_of_part(word, bounds, part, place));
    }
    number
}
