ghost use Rattle.std.specs.Prelude.{◌≡◌, ◌==◌, ◌&&◌, ◌↔◌, ◌*◌, ◌<◌, bit_and, length, IsTrue};
ghost use Rattle.loc_base.specs.Bits.{width_of, value_of};
ghost use Rattle.design_core.specs.Valuation.{width_at};
ghost use Rattle.design_core.specs.TraceFits.{samples_fit, expected_fit, IsTraceOf};
ghost use Rattle.design_fits.specs.Fits.{CycleFits};
ghost use Rattle.design_core.specs.Given.{AreChosenThroughout};

use design_core::{Checked, Design, Signal, Trace};
use loc_base::Bits;
use plain_values::{row, width_at};

/// Whether there is one sample for each of some inputs, of its width.
pub fn samples_fit(signals: &[Signal], inputs: &[u32], samples: &[Bits]) -> bool
    ensures { result ≡ samples_fit signals.now inputs.now samples.now }
{
    match inputs.split_first() {
        Some((input, inputs)) => match samples.split_first() {
            Some((sample, samples)) => {
                sample.width() == width_at(signals, *input as usize)
                    && samples_fit(signals, inputs, samples)
            }
            None => false,
        },
        None => samples.is_empty(),
    }
}

/// Whether an entry has an output's width, and is 0 in the bits that are not checked.
fn checked_fits(signals: &[Signal], output: u32, checked: Checked) -> bool
    ensures { result ≡ (width_of checked.value == width_at signals.now output && width_of checked.mask == width_at signals.now output
        && bit_and (value_of checked.value) (value_of checked.mask) == value_of checked.value) }
{
    let width = width_at(signals, output as usize);
    checked.value.width() == width
        && checked.mask.width() == width
        && checked.value.and(checked.mask).value() == checked.value.value()
}

/// Whether there is one entry for each of some outputs that fits it.
fn expected_fit(signals: &[Signal], outputs: &[u32], expected: &[Checked]) -> bool
    ensures { result ≡ expected_fit signals.now outputs.now expected.now }
{
    match outputs.split_first() {
        Some((output, outputs)) => match expected.split_first() {
            Some((checked, expected)) => {
                checked_fits(signals, *output, *checked) && expected_fit(signals, outputs, expected)
            }
            None => false,
        },
        None => expected.is_empty(),
    }
}

/// Whether the samples and the entries of a cycle fit the inputs and outputs.
fn cycle_fits(design: &Design, trace: &Trace, t: u32) -> bool
    requires time { t < trace.now.cycles }
    requires samples { length trace.now.inputs.items ≡ trace.now.cycles * length design.now.inputs.items }
    requires expected { length trace.now.expected.items ≡ trace.now.cycles * length design.now.outputs.items }
    ensures { IsTrue result ↔ CycleFits design.now trace.now t }
{
    let samples = row(&trace.inputs, design.inputs.len(), t as usize);
    let expected = row(&trace.expected, design.outputs.len(), t as usize);
    samples_fit(&design.signals, &design.inputs, samples)
        && expected_fit(&design.signals, &design.outputs, expected)
}

/// Whether a list has so many entries in each cycle.
fn has_rows(len: usize, cycles: u32, width: usize) -> bool
    ensures { IsTrue result ↔ (len ≡ cycles * width) }
{
    len as u128 == u128::from(cycles) * width as u128
}

/// Whether a trace is one of a design: a sample for each input and an entry for each output in each cycle, of their
/// widths.
pub fn is_trace_of(design: &Design, trace: &Trace) -> bool
    ensures { IsTrue result ↔ IsTraceOf design.now trace.now }
{
    if !has_rows(trace.inputs.len(), trace.cycles, design.inputs.len())
        || !has_rows(trace.expected.len(), trace.cycles, design.outputs.len())
    {
        return false;
    }
    for t in 0..trace.cycles {
        if !cycle_fits(design, trace, t) {
            return false;
        }
    }
    true
}

/// Whether there is one entry of `freed` for each place of a design, and one word of `chosen` for each place in each cycle.
pub fn are_chosen(design: &Design, trace: &Trace, freed: &[bool], chosen: &[Bits]) -> bool
    ensures { IsTrue result ↔ AreChosenThroughout design.now trace.now freed.now chosen.now }
{
    freed.len() == design.places.len() && has_rows(chosen.len(), trace.cycles, design.places.len())
}
