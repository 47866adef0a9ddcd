//! Where the bits of a place are looked for. Nothing rests on it but time.

ghost use Rattle.std.specs.Prelude.{◌≤◌, OnOk, length};

use crate::free_bit::FreeBit;
use crate::groups::lengthen;
use loc_base::{Items, NoMemory};
use std::alloc::Global;

/// Notes where the first bit of a place stands.
fn note(hints: &mut Items<usize>, free: FreeBit, column: usize) -> Result<(), NoMemory> {
    if free.bit == 0 {
        let place = free.place as usize;
        lengthen(hints, place + 1, 0)?;
        hints.set(place, column);
    }
    Ok(())
}

/// For each place, the number of its first bit among the free bits.
pub(crate) fn hints(alloc: Global, bits: &[FreeBit]) -> Result<Items<usize>, NoMemory> {
    let mut hints = Items::new(alloc);
    for i in 0..bits.len() {
        note(&mut hints, bits[i], i)?;
    }
    Ok(hints)
}
