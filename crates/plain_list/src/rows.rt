ghost use Rattle.std.specs.Prelude.{◌≡◌, ◌<◌, ◌≤◌, ◌*◌, ◌^◌, IfOk, All, length, map, slice_index};
ghost use Rattle.loc_base.specs.Bits.{width_of, value_of};
ghost use Rattle.design_core.specs.WellFormed.{IsWellFormed};
ghost use Rattle.design_core.specs.Run.{samples_at, expected_at};
ghost use Rattle.plain_list.specs.Trial.{AreNumbersFor};
ghost use Rattle.design_core.specs.Explained.{place_width};
ghost use Rattle.design_core.specs.Explained.{IsRow};

use design_core::{Checked, Design, Trace};
use loc_base::{Bits, NoMemory};
use std::alloc::Global;

/// The samples of a cycle of a trace.
#[tactic(auto, using(crate::proofs::Rowing::row_within))]
pub(crate) fn samples_of<'a>(d: &Design, trace: &'a Trace, cycle: u32) -> &'a [Bits]
    requires count { length trace.now.inputs.items ≡ trace.now.cycles * length d.now.inputs.items }
    requires cycle { cycle < trace.now.cycles }
    ensures { result.now ≡ samples_at d.now trace.now cycle }
{
    let inputs = d.inputs.len();
    let from = cycle as usize * inputs;
    &trace.inputs[from..from + inputs]
}

/// What is expected in a cycle of a trace.
#[tactic(auto, using(crate::proofs::Rowing::row_within))]
pub(crate) fn expected_of<'a>(d: &Design, trace: &'a Trace, cycle: u32) -> &'a [Checked]
    requires count { length trace.now.expected.items ≡ trace.now.cycles * length d.now.outputs.items }
    requires cycle { cycle < trace.now.cycles }
    ensures { result.now ≡ expected_at d.now trace.now cycle }
{
    let outputs = d.outputs.len();
    let from = cycle as usize * outputs;
    &trace.expected[from..from + outputs]
}

/// The word of a number for a place.
fn word_for(d: &Design, place: u32, number: u128) -> Bits
    requires well_formed { IsWellFormed d.now }
    requires place { place < length d.now.places.items }
    requires range { number < 2 ^ place_width d.now place }
    ensures width { width_of result ≡ place_width d.now place }
    ensures value { value_of result ≡ number }
{
    Bits::new(d.places[place as usize].width, number).unwrap()
}

/// The row of the numbers chosen for some places.
pub(crate) fn row_for(
    alloc: Global,
    d: &Design,
    places: &[u32],
    numbers: &[u128],
) -> Result<Vec<Bits>, NoMemory>
    requires well_formed { IsWellFormed d.now }
    requires places { All (λ p. p < length d.now.places.items) places.now }
    requires numbers { AreNumbersFor d.now places.now numbers.now }
    ensures row { IfOk result (λ row. IsRow d.now places.now row.items) }
    ensures value { IfOk result (λ row. map value_of row.items ≡ numbers.now) }
{
    let mut row = Vec::new(alloc);
    for i in 0..places.len() {
        row.push(word_for(d, places[i], numbers[i]))?;
    }
    Ok(row)
}
