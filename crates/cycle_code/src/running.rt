//! A run of instructions on words.

ghost use Rattle.std.specs.Prelude.{◌≡◌, ◌≤◌, IsTrue, length, map};
ghost use Rattle.loc_base.specs.Bits.{width_of};
ghost use Rattle.design_core.specs.Value.{value};
ghost use Rattle.design_core.specs.Words.{valuation_of};
ghost use Rattle.cycle_code.specs.Choosing.{AreChoices, as_choice};
ghost use Rattle.cycle_code.specs.Program.{program_of};
ghost use Rattle.cycle_code.specs.Cells.{below};
ghost use Rattle.cycle_code.specs.Effects.{jumped, next, effect};
ghost use Rattle.cycle_code.specs.Running.{run};
ghost use Rattle.cycle_code.specs.Fitting.{fits, IsSound};

use crate::assigning::{set, store_cell, store_chosen};
use crate::cell::{are_equal, holds, matches};
use crate::choices::Choices;
use crate::code::Code;
use crate::common::{add, and, equal, not, or, subtract, unlike, xor};
use crate::instruction::Instruction;
use crate::operating::{combine, compute, copy, join, move_word, operate, repeat, resize, slice};
use crate::range::Range;
use loc_base::Bits;

/// The number at which a run goes on behind an instruction.
#[inline(always)]
fn jumped(at: usize, next: u32, jumps: bool) -> usize
    requires { next ≤ at }
    ensures { result ≡ jumped at next jumps }
{
    if jumps { next as usize } else { at }
}

/// Carries out an instruction, and answers the number at which the run goes on. The number of the instruction is `at`.
#[inline(always)]
fn perform(
    code: &Code,
    instruction: Instruction,
    at: usize,
    choices: &Choices,
    cells: &mut [Bits],
) -> usize
    requires sound { IsSound (program_of code.now) }
    requires widths { map width_of cells.old ≡ (program_of code.now).widths }
    requires choices { AreChoices code.now.design.now choices.now }
    requires fits { IsTrue (fits (program_of code.now) at instruction) }
    ensures widths { map width_of cells.new ≡ (program_of code.now).widths }
    ensures next { result ≡ next (program_of code.now) instruction at (valuation_of cells.old) }
    ensures value { valuation_of cells.new
        ≡ effect (program_of code.now) (as_choice choices.now) instruction (valuation_of cells.old) }
{
    match instruction {
        Instruction::Jump { next } => return jumped(at, next, true),
        Instruction::JumpIf { cond, next } => return jumped(at, next, holds(cells, cond)),
        Instruction::JumpUnless { cond, next } => return jumped(at, next, !holds(cells, cond)),
        Instruction::JumpEqual { left, right, next } => {
            return jumped(at, next, are_equal(cells, left, right));
        }
        Instruction::JumpUnlike { left, right, next } => {
            return jumped(at, next, !are_equal(cells, left, right));
        }
        Instruction::JumpNoMatch {
            subject,
            label,
            wild,
            next,
        } => {
            return jumped(at, next, !matches(cells, subject, label, wild));
        }
        Instruction::Move { from, to } => move_word(cells, from, to),
        Instruction::Slice {
            arg,
            from,
            width,
            to,
        } => slice(cells, arg, from, width, to),
        Instruction::Join { high, low, to } => join(cells, high, low, to),
        Instruction::Repeat { times, part, to } => repeat(cells, times, part, to),
        Instruction::Resize { arg, signed, to } => resize(cells, arg, signed, to),
        Instruction::Unary { op, arg, to } => operate(cells, op, arg, to),
        Instruction::Binary {
            op,
            left,
            left_signed,
            right,
            right_signed,
            to,
        } => {
            combine(cells, op, left, left_signed, right, right_signed, to);
        }
        Instruction::Add { left, right, to } => add(cells, left, right, to),
        Instruction::Subtract { left, right, to } => subtract(cells, left, right, to),
        Instruction::And { left, right, to } => and(cells, left, right, to),
        Instruction::Or { left, right, to } => or(cells, left, right, to),
        Instruction::Xor { left, right, to } => xor(cells, left, right, to),
        Instruction::Not { arg, to } => not(cells, arg, to),
        Instruction::Equal { left, right, to } => equal(cells, left, right, to),
        Instruction::Unlike { left, right, to } => unlike(cells, left, right, to),
        Instruction::Value { tree, to } => compute(code, tree, to, cells),
        Instruction::Set { place, value, to } => set(cells, choices, place, value, to),
        Instruction::Put { value, to } => copy(cells, value, to),
        Instruction::Assign {
            target,
            place,
            value,
            later,
        } => {
            store_chosen(code, choices, target, place, value, later, cells);
        }
        Instruction::Store {
            target,
            value,
            later,
        } => store_cell(code, target, value, later, cells),
    }
    at
}

/// Runs the instructions of a range on the cells. The choices have one entry of each kind for each place of the design. Takes no
/// memory.
pub fn run(code: &Code, range: Range, choices: &Choices, cells: &mut [Bits])
    requires sound { IsSound (program_of code.now) }
    requires widths { map width_of cells.old ≡ (program_of code.now).widths }
    requires choices { AreChoices code.now.design.now choices.now }
    requires within { range.from ≤ length (program_of code.now).instructions }
    ensures widths { map width_of cells.new ≡ (program_of code.now).widths }
    ensures value { valuation_of cells.new
        ≡ run (program_of code.now) (as_choice choices.now) range.to range.from (valuation_of cells.old) }
{
    let mut at = range.from;
    while at > range.to {
        let below = at - 1;
        at = perform(code, code.instructions[below], below, choices, cells);
    }
}
