//! The clocked blocks, carried out in place: their resets before the drivers, and their bodies behind them.

ghost use Rattle.std.specs.Prelude.{◌≡◌, ◌<◌, ◌≤◌, ℕ, false, length, slice_get, Some, true};
ghost use Rattle.design_core.specs.declared.driver.Clocked.{Clocked};
ghost use Rattle.design_core.specs.declared.statement.Stmt.{Stmt};
ghost use Rattle.design_core.specs.Valuation.{Valuation};
ghost use Rattle.design_core.specs.Words.{valuation_of};
ghost use Rattle.design_core.specs.Given.{CanRun};
ghost use Rattle.plain_sim.specs.EvaluateCycle.{blended};
ghost use Rattle.cycle_code.specs.Choosing.{AreChoices, as_choice};
ghost use Rattle.cycle_code.specs.Program.{program_of};
ghost use Rattle.cycle_code.specs.Fitting.{IsSound};
ghost use Rattle.cycle_sim.specs.Masks.{AreMasksOf, AreClockedMasks, covers, widths_of};
ghost use Rattle.cycle_sim.specs.Compiled.{AreBodies, AreCells, AreResets, CarriesWithin, LeftBy, now_in, later_in, room_in};
ghost use Rattle.design_core.specs.WellFormed.{IsWellFormed};
ghost use Rattle.design_core.specs.DrivenOnce.{IsDrivenOnce};
ghost use Rattle.design_core.specs.Drives.{is_driven, is_register_bit};
ghost use Rattle.cycle_sim.specs.Blocks.{WithReset, WithBody, AreReset, AreRun};

use crate::mask::{Mask, copy_bits};
use cycle_code::{Choices, Code, Range, run};
use loc_base::{Bits, Rows};
use plain_sim::is_active;

/// The masks of all clocked blocks, a row of each kind for a block.
#[derive(Drop)]
pub(crate) struct BlockMasks {
    /// The bits of registers that the block drives.
    pub(crate) own: Rows<Mask>,
    /// The bits that it assigns by `=`.
    pub(crate) at_once: Rows<Mask>,
    /// Those of `own` that are in no signal that it assigns by `<=`.
    pub(crate) now: Rows<Mask>,
}

/// Puts the bits of some masks in the room at those of the words that are read.
fn save(code: &Code, masks: &[Mask], cells: &mut [Bits])
    requires sound { IsSound (program_of code.now) }
    requires masks { AreMasksOf (widths_of code.now.design.now.signals.items) masks.now }
    requires cells { AreCells (program_of code.now) cells.old }
    ensures cells { AreCells (program_of code.now) cells.new }
    ensures now { now_in (program_of code.now) (valuation_of cells.new) ≡ now_in (program_of code.now) (valuation_of cells.old) }
    ensures later { later_in (program_of code.now) (valuation_of cells.new) ≡ later_in (program_of code.now) (valuation_of cells.old) }
    ensures room { room_in (program_of code.now) (valuation_of cells.new) ≡ blended (covers masks.now) (now_in (program_of code.now) (valuation_of cells.old)) (room_in (program_of code.now) (valuation_of cells.old)) }
{
    let count = code.design.signals.len();
    let (values, rest) = cells.split_at_mut(count);
    let (_, rest) = rest.split_at_mut(count);
    let (room, _) = rest.split_at_mut(count);
    copy_bits(masks, room, values);
}

/// Puts the bits of the masks `now` in the later updates at those of the words that are read, and then the bits of the masks
/// `at_once` in these at those in the room.
fn settle(code: &Code, at_once: &[Mask], now: &[Mask], cells: &mut [Bits])
    requires sound { IsSound (program_of code.now) }
    requires at_once { AreMasksOf (widths_of code.now.design.now.signals.items) at_once.now }
    requires now { AreMasksOf (widths_of code.now.design.now.signals.items) now.now }
    requires cells { AreCells (program_of code.now) cells.old }
    ensures cells { AreCells (program_of code.now) cells.new }
    ensures now { now_in (program_of code.now) (valuation_of cells.new) ≡ blended (covers at_once.now) (room_in (program_of code.now) (valuation_of cells.old)) (now_in (program_of code.now) (valuation_of cells.old)) }
    ensures later { later_in (program_of code.now) (valuation_of cells.new) ≡ blended (covers now.now) (now_in (program_of code.now) (valuation_of cells.old)) (later_in (program_of code.now) (valuation_of cells.old)) }
{
    let count = code.design.signals.len();
    let (values, rest) = cells.split_at_mut(count);
    let (state, rest) = rest.split_at_mut(count);
    let (room, _) = rest.split_at_mut(count);
    copy_bits(now, state, values);
    copy_bits(at_once, values, room);
}

/// Puts the bits of some masks of the words that are read at those of the later updates.
fn take(code: &Code, masks: &[Mask], cells: &mut [Bits])
    requires sound { IsSound (program_of code.now) }
    requires masks { AreMasksOf (widths_of code.now.design.now.signals.items) masks.now }
    requires cells { AreCells (program_of code.now) cells.old }
    ensures cells { AreCells (program_of code.now) cells.new }
    ensures now { now_in (program_of code.now) (valuation_of cells.new) ≡ blended (covers masks.now) (later_in (program_of code.now) (valuation_of cells.old)) (now_in (program_of code.now) (valuation_of cells.old)) }
    ensures later { later_in (program_of code.now) (valuation_of cells.new) ≡ later_in (program_of code.now) (valuation_of cells.old) }
{
    let count = code.design.signals.len();
    let (values, rest) = cells.split_at_mut(count);
    let (state, _) = rest.split_at_mut(count);
    copy_bits(masks, values, state);
}

/// Carries out the statement of a clocked block that a range has, and leaves in the states what it gives the block's registers.
/// The values are as before.
fn leave(
    code: &Code,
    range: Range,
    at_once: &[Mask],
    now: &[Mask],
    choices: &Choices,
    cells: &mut [Bits],
)
    requires sound { IsSound (program_of code.now) }
    requires within { range.from ≤ length (program_of code.now).instructions }
    requires at_once { AreMasksOf (widths_of code.now.design.now.signals.items) at_once.now }
    requires now { AreMasksOf (widths_of code.now.design.now.signals.items) now.now }
    requires choices { AreChoices code.now.design.now choices.now }
    requires cells { AreCells (program_of code.now) cells.old }
    ensures cells { AreCells (program_of code.now) cells.new }
    ensures left { (statement : Stmt) → CarriesWithin (program_of code.now) range at_once.now statement
        → LeftBy (program_of code.now) (as_choice choices.now) now.now statement (valuation_of cells.old) (valuation_of cells.new) }
{
    save(code, at_once, cells);
    run(code, range, choices, cells);
    settle(code, at_once, now, cells);
}

/// Puts the registers of the clocked block of a number at their reset values, in the values and in the states, where its
/// reset is active.
fn reset_block(
    code: &Code,
    ranges: &[Range],
    i: usize,
    masks: &BlockMasks,
    choices: &Choices,
    cells: &mut [Bits],
)
    requires sound { IsSound (program_of code.now) }
    requires resets { AreResets (program_of code.now) code.now.design.now.clocked.items ranges.now }
    requires design { CanRun code.now.design.now }
    requires number { i < length code.now.design.now.clocked.items }
    requires masks { AreClockedMasks code.now.design.now masks.now.own masks.now.at_once masks.now.now }
    requires choices { AreChoices code.now.design.now choices.now }
    requires cells { AreCells (program_of code.now) cells.old }
    ensures cells { AreCells (program_of code.now) cells.new }
    ensures reset { (block : Clocked) → slice_get code.now.design.now.clocked.items i ≡ Some block
        → WithReset code.now.design.now (as_choice choices.now) block (now_in (program_of code.now) (valuation_of cells.old)) (later_in (program_of code.now) (valuation_of cells.old))
        (now_in (program_of code.now) (valuation_of cells.new)) (later_in (program_of code.now) (valuation_of cells.new)) }
{
    let block = &code.design.clocked[i];
    if !is_active(&cells[..code.design.signals.len()], block) {
        return;
    }
    if let Some(_reset) = &block.reset {
        leave(
            code,
            ranges[i],
            masks.at_once.row(i),
            masks.now.row(i),
            choices,
            cells,
        );
        take(code, masks.own.row(i), cells);
    }
}

/// Puts all registers whose block's reset is active at their reset values. The ranges are those of the resets' values.
pub(crate) fn reset_blocks(
    code: &Code,
    ranges: &[Range],
    masks: &BlockMasks,
    choices: &Choices,
    cells: &mut [Bits],
)
    requires sound { IsSound (program_of code.now) }
    requires resets { AreResets (program_of code.now) code.now.design.now.clocked.items ranges.now }
    requires design { CanRun code.now.design.now }
    requires masks { AreClockedMasks code.now.design.now masks.now.own masks.now.at_once masks.now.now }
    requires choices { AreChoices code.now.design.now choices.now }
    requires cells { AreCells (program_of code.now) cells.old }
    ensures cells { AreCells (program_of code.now) cells.new }
    ensures reset { IsWellFormed code.now.design.now → IsDrivenOnce code.now.design.now
        → ((s b : ℕ) → is_register_bit code.now.design.now s b ≡ true → later_in (program_of code.now) (valuation_of cells.old) s b ≡ now_in (program_of code.now) (valuation_of cells.old) s b)
        → (E : Valuation) → ((s b : ℕ) → is_driven code.now.design.now s b ≡ false → now_in (program_of code.now) (valuation_of cells.old) s b ≡ E s b)
        → AreReset code.now.design.now (as_choice choices.now) E (now_in (program_of code.now) (valuation_of cells.new)) (later_in (program_of code.now) (valuation_of cells.new)) }
{
    for i in 0..code.design.clocked.len() {
        reset_block(code, ranges, i, masks, choices, cells);
    }
}

/// Carries out the body of the clocked block of a number on the states, where its reset is not active.
fn run_block(
    code: &Code,
    ranges: &[Range],
    i: usize,
    masks: &BlockMasks,
    choices: &Choices,
    cells: &mut [Bits],
)
    requires sound { IsSound (program_of code.now) }
    requires bodies { AreBodies (program_of code.now) code.now.design.now.clocked.items ranges.now }
    requires design { CanRun code.now.design.now }
    requires number { i < length code.now.design.now.clocked.items }
    requires masks { AreClockedMasks code.now.design.now masks.now.own masks.now.at_once masks.now.now }
    requires choices { AreChoices code.now.design.now choices.now }
    requires cells { AreCells (program_of code.now) cells.old }
    ensures cells { AreCells (program_of code.now) cells.new }
    ensures same { now_in (program_of code.now) (valuation_of cells.new) ≡ now_in (program_of code.now) (valuation_of cells.old) }
    ensures run { (block : Clocked) → slice_get code.now.design.now.clocked.items i ≡ Some block
        → WithBody code.now.design.now (as_choice choices.now) block (now_in (program_of code.now) (valuation_of cells.old)) (later_in (program_of code.now) (valuation_of cells.old)) (later_in (program_of code.now) (valuation_of cells.new)) }
{
    let block = &code.design.clocked[i];
    if is_active(&cells[..code.design.signals.len()], block) {
        return;
    }
    leave(
        code,
        ranges[i],
        masks.at_once.row(i),
        masks.now.row(i),
        choices,
        cells,
    );
}

/// Carries out the bodies of all clocked blocks whose reset is not active. The values are as before. The ranges are those of
/// the bodies.
pub(crate) fn run_blocks(
    code: &Code,
    ranges: &[Range],
    masks: &BlockMasks,
    choices: &Choices,
    cells: &mut [Bits],
)
    requires sound { IsSound (program_of code.now) }
    requires bodies { AreBodies (program_of code.now) code.now.design.now.clocked.items ranges.now }
    requires design { CanRun code.now.design.now }
    requires masks { AreClockedMasks code.now.design.now masks.now.own masks.now.at_once masks.now.now }
    requires choices { AreChoices code.now.design.now choices.now }
    requires cells { AreCells (program_of code.now) cells.old }
    ensures cells { AreCells (program_of code.now) cells.new }
    ensures same { now_in (program_of code.now) (valuation_of cells.new) ≡ now_in (program_of code.now) (valuation_of cells.old) }
    ensures run { IsWellFormed code.now.design.now → IsDrivenOnce code.now.design.now
        → ((s b : ℕ) → is_register_bit code.now.design.now s b ≡ true → later_in (program_of code.now) (valuation_of cells.old) s b ≡ now_in (program_of code.now) (valuation_of cells.old) s b)
        → AreRun code.now.design.now (as_choice choices.now) (now_in (program_of code.now) (valuation_of cells.old)) (later_in (program_of code.now) (valuation_of cells.new)) }
{
    for i in 0..code.design.clocked.len() {
        run_block(code, ranges, i, masks, choices, cells);
    }
}
