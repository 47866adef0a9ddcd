//! Where the bits of a select lie in a word, and which word of an array has an address (IEEE 1364-2005, 4.9 and 5.2).
ghost use Rattle.std.specs.Prelude.{◌≡◌, ◌+◌, ◌≤◌, pos, ◌≤ℤ◌};
ghost use Rattle.design_core.specs.Valuation.{place_within, word_at};
ghost use Rattle.v_selects.specs.Integer.{whole};
ghost use Rattle.v_sizes.specs.Selected.{bits_below, bits_within, start_within};
ghost use Rattle.v_sizes.specs.Sized.{start_of};

use crate::integer::Integer;
use crate::selected::near;

/// A distance as a place among a number of places.
pub(crate) fn place_within(places: u32, distance: i64) -> Option<u32>
    ensures { result ≡ place_within places distance }
{
    if 0 <= distance && distance < i64::from(places) {
        Some(distance as u32)
    } else {
        None
    }
}

/// Where bits that lie side by side begin, if the word has them all.
pub(crate) fn start_of(width: u8, count: u8, distance: i64) -> Option<u8>
    ensures { result ≡ start_of width count distance }
{
    if distance < 0 || distance > 255 {
        return None;
    }
    let from = distance as u8;
    if u16::from(from) + u16::from(count) <= u16::from(width) {
        Some(from)
    } else {
        None
    }
}

/// How many of the bits lie below the word.
pub(crate) fn bits_below(count: u8, distance: i64) -> u8
    ensures { result ≡ bits_below count distance }
{
    if distance >= 0 {
        0
    } else if distance <= -i64::from(count) {
        count
    } else {
        (-distance) as u8
    }
}

/// How many of the bits lie within the word.
pub(crate) fn bits_within(width: u8, count: u8, distance: i64) -> u8
    ensures { result ≡ bits_within width count distance }
{
    if distance >= 0 {
        if distance < i64::from(width) {
            count.min(width - distance as u8)
        } else {
            0
        }
    } else if distance <= -i64::from(count) {
        0
    } else {
        width.min(count - (-distance) as u8)
    }
}

/// Where the bits within the word begin.
pub(crate) fn start_within(distance: i64) -> u8
    requires { distance ≤ℤ pos 255 }
    ensures { result ≡ start_within distance }
{
    if distance < 0 { 0 } else { distance as u8 }
}

/// The signal that is the word of an array at an address.
#[tactic(auto, using(crate::proofs::Indexes::near_words))]
pub(crate) fn word_at(first: u32, count: u32, low: i32, address: Integer) -> Option<u32>
    requires { first + count ≤ 4294967295 }
    ensures { result ≡ word_at first count low (whole address) }
{
    match place_within(count, near(address) - i64::from(low)) {
        Some(place) => Some(first + place),
        None => None,
    }
}
