//! Code as it is built: only pushed to, so that what was pushed keeps its numbers.

ghost use Rattle.std.specs.Prelude.{◌≡◌, ◌++◌, false, true, IsTrue, IfOk, OnOk, length, map};
ghost use Rattle.std.specs.List.{list_all};
ghost use Rattle.loc_base.specs.Bits.{width_of, value_of};
ghost use Rattle.design_core.specs.WellFormed.{signal_fits, is_width};
ghost use Rattle.cycle_code.specs.Program.{program_of, signal_widths, empty_of, with_cell, with_instruction, with_tree, with_target, Grown};
ghost use Rattle.cycle_code.specs.Fitting.{fits, IsSound};

use crate::instruction::Instruction;
use design_core::{Design, Signal, Target, Typed};
use loc_base::{Bits, NoMemory};
use std::alloc::Global;

/// A list of instructions, and what they name by number. It is run from its end down: instructions that are pushed later run
/// earlier, and a jump names a number that is known already.
///
/// With S signals, the cells from 0 on are the words that are read, one for each signal; those from S on are the words of later
/// updates; those from 2 S on are room for who runs the code, and those from 3 S on are the code's own: constants, which are
/// never written, and temporaries.
pub struct Code<'a> {
    pub design: &'a Design,
    pub instructions: Vec<Instruction>,
    /// What each cell holds before the first run. Its width never changes.
    pub cells: Vec<Bits>,
    /// For each cell whether it is a constant.
    pub fixed: Vec<bool>,
    pub trees: Vec<&'a Typed>,
    pub targets: Vec<&'a Target>,
}

// A `drop` is written out, so that it is proved once, here: a derived one is proved again by each crate that lets a value go.
impl<'a> Drop for Code<'a> {
    fn drop(self) {
        let Code {
            design: _,
            instructions: _,
            cells: _,
            fixed: _,
            trees: _,
            targets: _,
        } = self;
    }
}

impl<'a> Code<'a> {
    /// No instructions, and zeros in the cells of the signals.
    pub fn new(alloc: Global, design: &'a Design) -> Result<Code<'a>, NoMemory>
        requires { IsTrue (list_all signal_fits design.now.signals.items) }
        ensures value { IfOk result (λ code. program_of code ≡ empty_of design.now) }
        ensures sound { IfOk result (λ code. IsSound (program_of code)) }
    {
        let mut cells = Vec::new(alloc);
        let mut fixed = Vec::new(alloc);
        push_zeros(&design.signals, &mut cells, &mut fixed)?;
        push_zeros(&design.signals, &mut cells, &mut fixed)?;
        push_zeros(&design.signals, &mut cells, &mut fixed)?;
        Ok(Code {
            design,
            instructions: Vec::new(alloc),
            cells,
            fixed,
            trees: Vec::new(alloc),
            targets: Vec::new(alloc),
        })
    }

    /// The number of instructions, which is the number at which a run of all of them begins.
    pub fn len(&self) -> usize
        ensures { result ≡ length (program_of self.now).instructions }
    {
        self.instructions.len()
    }

    /// A new cell that always holds this word. `NoMemory` also past the greatest `u32`; memory ends long before.
    pub fn constant(&mut self, word: Bits) -> Result<u32, NoMemory>
        requires { IsSound (program_of self.old) }
        ensures number { IfOk result (λ cell. cell ≡ length (program_of self.old).widths) }
        ensures value { OnOk result (program_of self.new ≡ with_cell true (width_of word) (value_of word) (program_of self.old)) }
        ensures sound { OnOk result (IsSound (program_of self.new)) }
        ensures grown { OnOk result (Grown (program_of self.old) (program_of self.new)) }
    {
        self.cell(word, true)
    }

    /// A new cell of a width, to be written by instructions. `NoMemory` also past the greatest `u32`; memory ends long before.
    pub fn temporary(&mut self, width: u8) -> Result<u32, NoMemory>
        requires sound { IsSound (program_of self.old) }
        requires width { IsTrue (is_width width) }
        ensures number { IfOk result (λ cell. cell ≡ length (program_of self.old).widths) }
        ensures value { OnOk result (program_of self.new ≡ with_cell false width 0 (program_of self.old)) }
        ensures sound { OnOk result (IsSound (program_of self.new)) }
        ensures grown { OnOk result (Grown (program_of self.old) (program_of self.new)) }
    {
        self.cell(Bits::zero(width), false)
    }

    /// A new cell.
    fn cell(&mut self, word: Bits, fixed: bool) -> Result<u32, NoMemory>
        requires { IsSound (program_of self.old) }
        ensures number { IfOk result (λ cell. cell ≡ length (program_of self.old).widths) }
        ensures value { OnOk result (program_of self.new ≡ with_cell fixed (width_of word) (value_of word) (program_of self.old)) }
        ensures sound { OnOk result (IsSound (program_of self.new)) }
        ensures grown { OnOk result (Grown (program_of self.old) (program_of self.new)) }
    {
        let number = number_of(self.cells.len())?;
        self.cells.push(word)?;
        self.fixed.push(fixed)?;
        Ok(number)
    }

    /// One more instruction, which runs before those that were pushed earlier.
    pub fn push(&mut self, instruction: Instruction) -> Result<(), NoMemory>
        requires sound { IsSound (program_of self.old) }
        requires fits { IsTrue (fits (program_of self.old) (length (program_of self.old).instructions) instruction) }
        ensures value { OnOk result (program_of self.new ≡ with_instruction instruction (program_of self.old)) }
        ensures sound { OnOk result (IsSound (program_of self.new)) }
        ensures grown { OnOk result (Grown (program_of self.old) (program_of self.new)) }
    {
        self.instructions.push(instruction)?;
        Ok(())
    }

    /// One more expression, and its number. `NoMemory` also past the greatest `u32`; memory ends long before.
    pub fn push_tree(&mut self, tree: &'a Typed) -> Result<u32, NoMemory>
        requires { IsSound (program_of self.old) }
        ensures number { IfOk result (λ number. number ≡ length (program_of self.old).trees) }
        ensures value { OnOk result (program_of self.new ≡ with_tree tree.now (program_of self.old)) }
        ensures sound { OnOk result (IsSound (program_of self.new)) }
        ensures grown { OnOk result (Grown (program_of self.old) (program_of self.new)) }
    {
        let number = number_of(self.trees.len())?;
        self.trees.push(tree)?;
        Ok(number)
    }

    /// One more left side, and its number. `NoMemory` also past the greatest `u32`; memory ends long before.
    pub fn push_target(&mut self, target: &'a Target) -> Result<u32, NoMemory>
        requires { IsSound (program_of self.old) }
        ensures number { IfOk result (λ number. number ≡ length (program_of self.old).targets) }
        ensures value { OnOk result (program_of self.new ≡ with_target target.now.parts (program_of self.old)) }
        ensures sound { OnOk result (IsSound (program_of self.new)) }
        ensures grown { OnOk result (Grown (program_of self.old) (program_of self.new)) }
    {
        let number = number_of(self.targets.len())?;
        self.targets.push(target)?;
        Ok(number)
    }
}

/// One more cell for each signal, with a word of 0.
fn push_zeros(
    signals: &[Signal],
    cells: &mut Vec<Bits>,
    fixed: &mut Vec<bool>,
) -> Result<(), NoMemory>
    requires { IsTrue (list_all signal_fits signals.now) }
    ensures widths { OnOk result (map width_of cells.new.items ≡ map width_of cells.old.items ++ signal_widths signals.now) }
    ensures values { OnOk result (map value_of cells.new.items ≡ map value_of cells.old.items ++ map (λ s. 0) signals.now) }
    ensures fixed { OnOk result (fixed.new.items ≡ fixed.old.items ++ map (λ s. false) signals.now) }
{
    for signal in signals {
        cells.push(Bits::zero(signal.width))?;
        fixed.push(false)?;
    }
    Ok(())
}

/// A count as a number of 32 bits.
fn number_of(count: usize) -> Result<u32, NoMemory>
    ensures { IfOk result (λ number. number ≡ count) }
{
    match u32::try_from(count) {
        Ok(number) => Ok(number),
        Err(_) => Err(NoMemory),
    }
}
