//! The numbers of an index that name bits (IEEE 1364-2005, 5.2.1).

ghost use Rattle.std.specs.Prelude.{◌≡◌, ◌-◌, ◌<◌, ◌≤◌, ◌^◌, IfOk, get_or, length, map, nat_lt, pos};
ghost use Rattle.bit_circuit.specs.Indexes.{index_at, name_at, name_of, names_from};

use loc_base::{Items, NoMemory};
use std::alloc::Global;
use word_net::Select;

/// Whether a number has no more than that many bits.
fn is_below(number: u128, bits: u8) -> bool
    requires { bits ≤ 128 }
    ensures { result ≡ nat_lt number (2 ^ bits) }
{
    bits == 128 || number < 1 << bits
}

/// The greatest number of `width` bits.
#[tactic(auto, using(loc_base::proofs::Modulo::ones_of))]
fn ones(width: u8) -> u128
    requires least { 1 ≤ width }
    requires most { width ≤ 128 }
    ensures { result ≡ 2 ^ width - 1 }
{
    u128::MAX >> (128 - width)
}

/// The number that a word of a width has where it means a whole number by its sign, and `None` where it can't mean it.
#[tactic(auto, using(crate::proofs::NameSteps::names))]
pub(crate) fn name_of(signed: bool, width: u8, value: i64) -> Option<u128>
    requires least { 1 ≤ width }
    requires most { width ≤ 128 }
    ensures { result ≡ name_of signed width value }
{
    let size = u128::from(value.unsigned_abs());
    if value >= 0 {
        let bits = if signed { width - 1 } else { width };
        if is_below(size, bits) {
            Some(size)
        } else {
            None
        }
    } else if signed && is_below(size - 1, width - 1) {
        Some(ones(width) - (size - 1))
    } else {
        None
    }
}

/// The declared index of a position.
fn index_at(left: i32, right: i32, position: u8) -> i64
    ensures { result ≡ index_at left right position }
{
    let last = i64::from(right);
    let distance = i64::from(position);
    if left < right {
        last - distance
    } else {
        last + distance
    }
}

/// The number of the index by which the bit with an offset lies at a position.
fn name_at(select: &Select, position: u8, offset: i32) -> Option<u128>
    requires least { 1 ≤ select.now.index.width }
    requires most { select.now.index.width ≤ 128 }
    ensures { result ≡ name_at select.now position offset }
{
    let index = index_at(select.left, select.right, position);
    name_of(
        select.index.signed,
        select.index.width,
        index - i64::from(offset),
    )
}

/// The offset of a bit.
pub(crate) fn offset_at(offsets: &[i32], bit: usize) -> i32
    requires { bit < length offsets.now }
    ensures { result ≡ get_or offsets.now bit (pos 0) }
{
    offsets[bit]
}

/// Those by which the bit with an offset lies at each of the first positions.
#[tactic(auto, using(crate::proofs::NameSteps::positions))]
pub(crate) fn names_from(
    alloc: Global,
    select: &Select,
    offset: i32,
    count: usize,
) -> Result<Items<Option<u128>>, NoMemory>
    requires least { 1 ≤ select.now.index.width }
    requires most { select.now.index.width ≤ 128 }
    requires few { count ≤ 128 }
    ensures { IfOk result (λ names. names ≡ names_from select.now offset 0 count) }
{
    let mut names = Items::new(alloc);
    let mut position = 0u8;
    for i in 0..count {
        names.push(name_at(select, position, offset))?;
        position += 1;
    }
    Ok(names)
}

/// Those by which the bit with each offset lies at a position.
#[tactic(auto, using(crate::proofs::NameSteps::offsets))]
pub(crate) fn names_at(
    alloc: Global,
    select: &Select,
    position: u8,
) -> Result<Items<Option<u128>>, NoMemory>
    requires least { 1 ≤ select.now.index.width }
    requires most { select.now.index.width ≤ 128 }
    ensures { IfOk result (λ names. names ≡ map (name_at select.now position) select.now.offsets) }
{
    let offsets = select.offsets.as_slice();
    let mut names = Items::new(alloc);
    for i in 0..offsets.len() {
        names.push(name_at(select, position, offset_at(offsets, i)))?;
    }
    Ok(names)
}
