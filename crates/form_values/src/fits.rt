//! Whether values can be given, for callers that can't know.

ghost use Rattle.std.specs.Prelude.{◌≡◌, ◌↔◌, ◌+◌, ◌==◌, ◌<◌, if◌then◌else◌, max, All, IsTrue, Some, get_or, length, slice_get, ℕ};
ghost use Rattle.unroller.specs.Reads.{HasFreeBit};
ghost use Rattle.form_laws.specs.Models.{HasOneColumnEach, is_bit};
ghost use Rattle.form_values.specs.ModelValues.{ArePlaces, IsPlace, width_in};
ghost use Rattle.form_values.specs.Places.{IsAbsent};

use suspect_map::Groups;
use unroller::{FreeBit, Unrolled};

/// Whether a free bit is that bit of that place.
fn is_bit(free: FreeBit, place: u32, bit: u8) -> bool
    ensures { result ≡ is_bit place bit free }
{
    free.place == place && free.bit == bit
}

/// Whether none of the free bits from one on is that bit of that place.
#[tactic(auto, using(crate::proofs::FitSteps::absent))]
fn is_absent(bits: &[FreeBit], from: usize, place: u32, bit: u8) -> bool
    ensures { IsTrue result ↔ IsAbsent bits.now from place bit }
{
    for i in from..bits.len() {
        if is_bit(bits[i], place, bit) {
            return false;
        }
    }
    true
}

/// Whether each bit of a place has one column of literals in a form. It is for tests: its time grows with the square of the bits.
#[tactic(auto, using(crate::proofs::FitSteps::columns))]
pub fn has_one_column_each(u: &Unrolled) -> bool
    ensures { IsTrue result ↔ HasOneColumnEach u.now }
{
    let bits = u.bits();
    for i in 0..bits.len() {
        if !is_absent(bits, i + 1, bits[i].place, bits[i].bit) {
            return false;
        }
    }
    true
}

/// The width of a place with one bit more, where it is a bit of the place.
fn wider(width: u16, bit: FreeBit, place: u32) -> u16
    ensures { result ≡ (if bit.place == place then max width (bit.bit + 1) else width) }
{
    if bit.place == place {
        width.max(u16::from(bit.bit) + 1)
    } else {
        width
    }
}

/// The width of a place, by all bits of places.
#[tactic(auto, using(crate::proofs::ColumnSteps::widths))]
fn width_in(bits: &[FreeBit], place: u32) -> u16
    ensures { result ≡ width_in bits.now place }
{
    let mut width = 0;
    for i in 0..bits.len() {
        width = wider(width, bits[i], place);
    }
    width
}

/// Whether a place has from 1 to 128 bits, and each up to the last is there.
#[tactic(auto, using(crate::proofs::FitSteps::one_place))]
fn is_place(u: &Unrolled, place: u32) -> bool
    ensures { IsTrue result ↔ IsPlace u.now place }
{
    let width = width_in(u.bits(), place);
    if width < 1 || width > 128 {
        return false;
    }
    for bit in 0..width as u8 {
        if !u.has_free(place, bit) {
            return false;
        }
    }
    true
}

/// Whether some places are.
#[tactic(auto, using(crate::proofs::FitSteps::some_places))]
fn are_all_places(u: &Unrolled, places: &[u32]) -> bool
    ensures { IsTrue result ↔ All (IsPlace u.now) places.now }
{
    for i in 0..places.len() {
        if !is_place(u, places[i]) {
            return false;
        }
    }
    true
}

/// Whether the places of the suspects are places of the circuit: each has from 1 to 128 bits, and each up to the last is there.
/// It is for tests: it goes over the bits of the form for each place.
pub fn are_places(u: &Unrolled, groups: &Groups) -> bool
    ensures { IsTrue result ↔ ArePlaces u.now groups.now }
{
    for i in 0..groups.len() {
        if !are_all_places(u, groups[i].places.as_slice()) {
            return false;
        }
    }
    true
}
