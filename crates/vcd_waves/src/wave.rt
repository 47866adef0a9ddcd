//! What a wave is written from.
ghost use Rattle.std.specs.Prelude.{◌≡◌, ◌*◌, ◌↔◌, IsTrue, length};
ghost use Rattle.vcd_waves.specs.Lines.{HasRows};

use design_core::{Design, Trace};
use loc_base::{Bits, Name};

/// A trace of a design and the values chosen for freed places, to be written as a wave.
#[derive(Clone, Copy)]
pub struct Wave<'a> {
    /// The name of the top module.
    pub top: &'a Name,
    pub design: &'a Design,
    /// The name of the clock, where the design has one.
    pub clock: Option<&'a Name>,
    pub trace: &'a Trace,
    /// The numbers of the freed places.
    pub places: &'a [u32],
    /// One word for each of the freed places in each cycle of the trace: first all of cycle 0.
    pub chosen: &'a [Bits],
}

/// Whether a list has so many entries in each cycle.
fn has_entries(len: usize, cycles: u32, count: usize) -> bool
    ensures { IsTrue result ↔ (len ≡ cycles * count) }
{
    len as u128 == u128::from(cycles) * count as u128
}

/// Whether the trace and the chosen values have one entry for each input, output and freed place in each cycle.
pub fn has_rows(wave: &Wave<'_>) -> bool
    ensures { IsTrue result ↔ HasRows wave.now }
{
    let cycles = wave.trace.cycles;
    has_entries(wave.trace.inputs.len(), cycles, wave.design.inputs.len())
        && has_entries(wave.trace.expected.len(), cycles, wave.design.outputs.len())
        && has_entries(wave.chosen.len(), cycles, wave.places.len())
}
