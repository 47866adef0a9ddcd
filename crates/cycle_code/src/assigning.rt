//! Instructions that assign: to a whole signal, or to a left side. They have functions of their own, as those of `operating`.

ghost use Rattle.std.specs.Prelude.{◌≡◌, ◌<◌, IsTrue, length, map};
ghost use Rattle.loc_base.specs.Bits.{width_of, value_of};
ghost use Rattle.design_core.specs.After.{assigned};
ghost use Rattle.design_core.specs.Words.{valuation_of};
ghost use Rattle.cycle_code.specs.Choosing.{as_choice};
ghost use Rattle.cycle_code.specs.Program.{program_of};
ghost use Rattle.cycle_code.specs.Cells.{held, with_held};
ghost use Rattle.cycle_code.specs.Effects.{with_stored};
ghost use Rattle.cycle_code.specs.Fitting.{target_fits, IsSound};

use crate::cell::{put, read};
use crate::choices::Choices;
use crate::code::Code;
use loc_base::Bits;
use plain_values::{assign, assigned};

/// Puts what a place assigns, where the word of a cell is the computed one, into a cell.
#[inline(always)]
pub(crate) fn set(cells: &mut [Bits], choices: &Choices, place: u32, from: u32, to: u32)
    requires freed { place < length choices.now.freed.now }
    requires chosen { place < length choices.now.chosen.now }
    requires from { from < length cells.old }
    requires to { to < length cells.old }
    ensures widths { map width_of cells.new ≡ map width_of cells.old }
    ensures value { valuation_of cells.new ≡ with_held (map width_of cells.old) to
        (assigned (as_choice choices.now) place (held (map width_of cells.old) (valuation_of cells.old) from))
        (valuation_of cells.old) }
{
    let word = assigned(choices.freed, choices.chosen, place, read(cells, from));
    put(cells, to, word);
}

/// Assigns a word to a left side, in the words that are read or in those of later updates.
pub(crate) fn store(code: &Code, target: u32, word: Bits, is_later: bool, cells: &mut [Bits])
    requires sound { IsSound (program_of code.now) }
    requires widths { map width_of cells.old ≡ (program_of code.now).widths }
    requires fits { IsTrue (target_fits (program_of code.now) target) }
    ensures widths { map width_of cells.new ≡ (program_of code.now).widths }
    ensures value { valuation_of cells.new
        ≡ with_stored (program_of code.now) target (value_of word) is_later (valuation_of cells.old) }
{
    let signals = code.design.signals.as_slice();
    let (now, rest) = cells.split_at_mut(signals.len());
    let (later, _) = rest.split_at_mut(signals.len());
    assign(
        signals,
        now,
        later,
        &code.targets[target as usize].parts,
        word,
        is_later,
    );
}

/// Assigns the word of a cell to a left side, in the words that are read or in those of later updates.
#[inline(always)]
pub(crate) fn store_cell(code: &Code, target: u32, value: u32, later: bool, cells: &mut [Bits])
    requires sound { IsSound (program_of code.now) }
    requires widths { map width_of cells.old ≡ (program_of code.now).widths }
    requires fits { IsTrue (target_fits (program_of code.now) target) }
    requires value { value < length cells.old }
    ensures widths { map width_of cells.new ≡ (program_of code.now).widths }
    ensures value { valuation_of cells.new ≡ with_stored (program_of code.now) target
        (held (map width_of cells.old) (valuation_of cells.old) value) later (valuation_of cells.old) }
{
    let word = read(cells, value);
    store(code, target, word, later, cells);
}

/// Assigns what a place assigns, where the word of a cell is the computed one, to a left side.
#[inline(always)]
pub(crate) fn store_chosen(
    code: &Code,
    choices: &Choices,
    target: u32,
    place: u32,
    value: u32,
    later: bool,
    cells: &mut [Bits],
)
    requires sound { IsSound (program_of code.now) }
    requires widths { map width_of cells.old ≡ (program_of code.now).widths }
    requires fits { IsTrue (target_fits (program_of code.now) target) }
    requires freed { place < length choices.now.freed.now }
    requires chosen { place < length choices.now.chosen.now }
    requires value { value < length cells.old }
    ensures widths { map width_of cells.new ≡ (program_of code.now).widths }
    ensures value { valuation_of cells.new ≡ with_stored (program_of code.now) target
        (assigned (as_choice choices.now) place (held (map width_of cells.old) (valuation_of cells.old) value))
        later (valuation_of cells.old) }
{
    let word = assigned(choices.freed, choices.chosen, place, read(cells, value));
    store(code, target, word, later, cells);
}
