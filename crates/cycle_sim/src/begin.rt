//! The words with which a cycle begins: samples in the inputs, and states in the registers.

ghost use Rattle.std.specs.Prelude.{◌≡◌, ℕ, IsTrue, if◌then◌else◌};
ghost use Rattle.design_core.specs.TraceFits.{samples_fit};
ghost use Rattle.design_core.specs.Words.{valuation_of, AreWordsOf};
ghost use Rattle.design_core.specs.Drives.{is_listed};
ghost use Rattle.design_core.specs.Cycle.{sampled};
ghost use Rattle.cycle_code.specs.Program.{program_of};
ghost use Rattle.cycle_code.specs.Fitting.{IsSound};
ghost use Rattle.cycle_sim.specs.Masks.{AreRegisters, AreSplit, covers, widths_of};
ghost use Rattle.cycle_sim.specs.Compiled.{AreCells, now_in, later_in};

use crate::registers::Registers;
use cycle_code::Code;
use design_core::Design;
use loc_base::Bits;

/// Puts the samples into the words of the inputs, from the last input to the first.
fn load(design: &Design, samples: &[Bits], words: &mut [Bits])
    requires samples { IsTrue (samples_fit design.now.signals.items design.now.inputs.items samples.now) }
    requires words { AreWordsOf design.now.signals.items words.old }
    ensures words { AreWordsOf design.now.signals.items words.new }
    ensures value { (s b : ℕ) → valuation_of words.new s b
        ≡ (if is_listed design.now s then sampled design.now.inputs.items samples.now s b else valuation_of words.old s b) }
{
    let mut left = samples.len();
    while left > 0 {
        left -= 1;
        words[design.inputs[left] as usize].take(samples[left]);
    }
}

/// Puts the states into the registers' bits and the samples into the inputs.
fn begin(
    design: &Design,
    registers: &Registers,
    samples: &[Bits],
    state: &[Bits],
    values: &mut [Bits],
)
    requires registers { AreRegisters design.now registers.now.masks.items }
    requires split { AreSplit (widths_of design.now.signals.items) registers.now }
    requires samples { IsTrue (samples_fit design.now.signals.items design.now.inputs.items samples.now) }
    requires state { AreWordsOf design.now.signals.items state.now }
    requires values { AreWordsOf design.now.signals.items values.old }
    ensures words { AreWordsOf design.now.signals.items values.new }
    ensures value { (s b : ℕ) → valuation_of values.new s b ≡ (if is_listed design.now s then sampled design.now.inputs.items samples.now s b
        else if covers registers.now.masks.items s b then valuation_of state.now s b else valuation_of values.old s b) }
{
    registers.load(values, state);
    load(design, samples, values);
}

/// Puts the states into the registers' bits and the samples into the inputs, all of them cells of a code.
pub(crate) fn begin_cells(code: &Code, registers: &Registers, samples: &[Bits], cells: &mut [Bits])
    requires sound { IsSound (program_of code.now) }
    requires registers { AreRegisters code.now.design.now registers.now.masks.items }
    requires split { AreSplit (widths_of code.now.design.now.signals.items) registers.now }
    requires samples { IsTrue (samples_fit code.now.design.now.signals.items code.now.design.now.inputs.items samples.now) }
    requires cells { AreCells (program_of code.now) cells.old }
    ensures cells { AreCells (program_of code.now) cells.new }
    ensures now { (s b : ℕ) → now_in (program_of code.now) (valuation_of cells.new) s b
        ≡ (if is_listed code.now.design.now s then sampled code.now.design.now.inputs.items samples.now s b
        else if covers registers.now.masks.items s b then later_in (program_of code.now) (valuation_of cells.old) s b
        else now_in (program_of code.now) (valuation_of cells.old) s b) }
    ensures later { later_in (program_of code.now) (valuation_of cells.new) ≡ later_in (program_of code.now) (valuation_of cells.old) }
{
    let design = code.design;
    let count = design.signals.len();
    let (values, rest) = cells.split_at_mut(count);
    let (state, _) = rest.split_at_mut(count);
    begin(design, registers, samples, state, values);
}
