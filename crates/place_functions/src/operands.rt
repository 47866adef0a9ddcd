ghost use Rattle.std.specs.Prelude.{◌≡◌, ◌<◌, ◌^◌, length, map, IfOk};
ghost use Rattle.place_functions.specs.Operands.{operands_of};

use crate::note_bits::bits_of;
use crate::note_places::notes_of;
use crate::place_notes::{by_place, notes_at};
use crate::signal_bit::SignalBit;
use design_core::Design;
use loc_base::{Items, NoMemory};
use std::alloc::Global;

/// The operands of each of some places: the bits that its right side reads, by signal and then position.
pub fn operands_of(
    alloc: Global,
    design: &Design,
    places: &[u32],
) -> Result<Vec<Items<SignalBit>>, NoMemory>
    requires { length design.now.signals.items < 2 ^ 32 }
    ensures { IfOk result (λ rows. rows.items ≡ map (operands_of design.now) places.now) }
{
    let mut notes = notes_of(alloc, design)?;
    by_place(&mut notes);
    let mut rows = Vec::new(alloc);
    for place in places {
        let bits = bits_of(alloc, &design.signals, notes_at(&notes, *place))?;
        rows.push(Items::from_vec(bits))?;
    }
    Ok(rows)
}
