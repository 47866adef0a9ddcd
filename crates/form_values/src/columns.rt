//! The columns of the bits of places in a form.

ghost use Rattle.std.specs.Prelude.{◌≡◌, ◌+◌, ◌==◌, ◌<◌, if◌then◌else◌, max, All, IfOk, OnOk, get_or, map, ℕ};
ghost use Rattle.unroller.specs.Reads.{HasFreeBit};
ghost use Rattle.form_laws.specs.Models.{HasOneColumnEach};
ghost use Rattle.form_values.specs.ModelValues.{IsPlace, width_in};
ghost use Rattle.form_values.specs.Places.{columns_of, columns_to};

use crate::places::lengthen;
use loc_base::{Items, NoMemory, Rows};
use std::alloc::Global;
use unroller::{FreeBit, Unrolled};

/// Widens a place by a bit of it.
#[tactic(auto, using(crate::proofs::ColumnSteps::widens))]
fn widen(widths: &mut Items<u16>, bit: FreeBit) -> Result<(), NoMemory>
    ensures { OnOk result ((p : ℕ) → get_or widths.new p 0 ≡ (if bit.place == p then max (get_or widths.old p 0) (bit.bit + 1) else get_or widths.old p 0)) }
{
    let place = bit.place as usize;
    lengthen(widths, place + 1, 0)?;
    let width = widths[place].max(u16::from(bit.bit) + 1);
    widths.set(place, width);
    Ok(())
}

/// For each place its width, by one pass over the bits of places.
#[tactic(auto, using(crate::proofs::ColumnSteps::tables))]
fn widths_in(alloc: Global, bits: &[FreeBit]) -> Result<Items<u16>, NoMemory>
    ensures { IfOk result (λ widths. (p : ℕ) → get_or widths p 0 ≡ width_in bits.now p) }
{
    let mut widths = Items::new(alloc);
    for i in 0..bits.len() {
        widen(&mut widths, bits[i])?;
    }
    Ok(widths)
}

/// The width of a place in a table, 0 where it is none of its.
fn width_at(widths: &[u16], place: u32) -> u16
    ensures { result ≡ get_or widths.now place 0 }
{
    match widths.get(place as usize) {
        Some(width) => *width,
        None => 0,
    }
}

/// The columns of so many bits of a place.
#[tactic(auto, using(crate::proofs::ColumnSteps::columns))]
fn columns_to(alloc: Global, u: &Unrolled, place: u32, width: u8) -> Result<Items<usize>, NoMemory>
    requires distinct { HasOneColumnEach u.now }
    requires there { (bit : ℕ) → bit < width → HasFreeBit u.now place bit }
    ensures { IfOk result (λ columns. columns ≡ columns_to u.now.bits place width) }
{
    let mut columns = Items::new(alloc);
    for bit in 0..width {
        columns.push(u.column(place, bit))?;
    }
    Ok(columns)
}

/// For each of some places, the columns of its bits.
#[tactic(auto, using(crate::proofs::ColumnSteps::places))]
pub(crate) fn columns_of(
    alloc: Global,
    u: &Unrolled,
    places: &[u32],
) -> Result<Rows<usize>, NoMemory>
    requires distinct { HasOneColumnEach u.now }
    requires places { All (IsPlace u.now) places.now }
    ensures { IfOk result (λ columns. columns ≡ map (columns_of u.now.bits) places.now) }
{
    let widths = widths_in(alloc, u.bits())?;
    let mut columns = Rows::new(alloc);
    for i in 0..places.len() {
        let place = places[i];
        let width = width_at(widths.as_slice(), place) as u8;
        let of_place = columns_to(alloc, u, place, width)?;
        columns.push(of_place.as_slice())?;
    }
    Ok(columns)
}
