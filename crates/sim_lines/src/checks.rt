//! Whether the outputs of a cycle are as expected, and what is told of the first that isn't.
ghost use Rattle.std.specs.Prelude.{◌≡◌, ◌↔◌, ◌<◌, ◌^◌, ℕ, IsTrue, bit_and, bit_xor, length};
ghost use Rattle.loc_base.specs.Bits.{bit_of, value_of, width_of};
ghost use Rattle.design_core.specs.TraceFits.{expected_fit};
ghost use Rattle.design_core.specs.Valuation.{width_at};
ghost use Rattle.cycle_sim.specs.Replaying.{FirstWrong};
ghost use Rattle.cycle_sim.specs.Simulator.{IsSim, held_by};

use crate::lines::Moment;
use cycle_sim::Sim;
use design_core::{Checked, Design};
use loc_base::Bits;
use plain_sim::is_right;
use refusal::{Note, Notes};

/// Whether the checked bits of an output are as expected.
fn is_output_right(sim: &Sim, output: u32, checked: Checked) -> bool
    requires sim { IsSim sim.now }
    requires output { output < length (held_by sim.now).design.signals.items }
    requires value { width_at (held_by sim.now).design.signals.items output ≡ width_of checked.value }
    requires mask { width_at (held_by sim.now).design.signals.items output ≡ width_of checked.mask }
    ensures { IsTrue result ↔ ((b : ℕ) → IsTrue (bit_of checked.mask b) → (held_by sim.now).values output b ≡ bit_of checked.value b) }
{
    is_right(sim.value(output), checked)
}

/// The number of the first output whose checked bits are not all as expected in the cycle that was made.
pub(crate) fn first_wrong(design: &Design, sim: &Sim, expected: &[Checked]) -> Option<u32>
    requires sim { IsSim sim.now }
    requires design { (held_by sim.now).design ≡ design.now }
    requires expected { IsTrue (expected_fit design.now.signals.items design.now.outputs.items expected.now) }
    requires few { length design.now.outputs.items < 2 ^ 32 }
    ensures { FirstWrong design.now expected.now (held_by sim.now).values result }
{
    for i in 0..expected.len() {
        let checked = expected[i];
        let output = design.outputs[i];
        if !is_output_right(sim, output, checked) {
            return Some(i as u32);
        }
    }
    None
}

/// The first output of a trace that isn't as expected: its number, and what is expected of all outputs in that cycle.
#[derive(Clone, Copy)]
pub(crate) struct Miss<'a> {
    pub(crate) moment: Moment,
    pub(crate) output: u32,
    pub(crate) expected: &'a [Checked],
}

/// What an output would have to be: as expected in the bits that are checked, and as it is in the others.
fn wanted_of(given: Bits, checked: Checked) -> Bits
    requires value { width_of given ≡ width_of checked.value }
    requires mask { width_of given ≡ width_of checked.mask }
    ensures width { width_of result ≡ width_of given }
    ensures value { value_of result ≡ bit_xor (value_of given)
        (bit_and (bit_xor (value_of given) (value_of checked.value)) (value_of checked.mask)) }
{
    given.xor(given.xor(checked.value).and(checked.mask))
}

/// Tells of a miss, with the value that is wanted and the one that is given.
pub(crate) fn note_miss<N: Notes>(design: &Design, sim: &Sim, miss: &Miss, notes: &mut N)
    requires sim { IsSim sim.now }
    requires design { (held_by sim.now).design ≡ design.now }
    requires expected { IsTrue (expected_fit design.now.signals.items design.now.outputs.items miss.now.expected.now) }
    requires output { miss.now.output < length miss.now.expected.now }
{
    let checked = miss.expected[miss.output as usize];
    let output = design.outputs[miss.output as usize];
    let given = sim.value(output);
    notes.note(&Note::Missed {
        trace: miss.moment.trace,
        cycle: miss.moment.cycle,
        output: &design.signals[output as usize].path,
        wanted: wanted_of(given, checked),
        given,
    });
}
