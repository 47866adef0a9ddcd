//! Instructions that put a word into a cell, a function each: the room for the locals of a function is cleared when it is entered, and
//! so only where such an instruction runs.

ghost use Rattle.std.specs.Prelude.{◌≡◌, ◌≤◌, ◌<◌, ◌+◌, ◌*◌, ◌^◌, IsTrue, false, length, map, slice_get};
ghost use Rattle.std.specs.Option.{option_map_or};
ghost use Rattle.loc_base.specs.Bits.{width_of, value_of};
ghost use Rattle.design_core.specs.Valuation.{number};
ghost use Rattle.design_core.specs.Value.{value};
ghost use Rattle.design_core.specs.WellFormed.{unary_fits};
ghost use Rattle.design_core.specs.Operator.{repeated, resized, unary, binary};
ghost use Rattle.design_core.specs.Words.{valuation_of};
ghost use Rattle.cycle_code.specs.Program.{program_of, signals_of, count_of};
ghost use Rattle.cycle_code.specs.Cells.{width_in, held, with_held, below};
ghost use Rattle.cycle_code.specs.Operands.{AreOperands, with_computed};
ghost use Rattle.cycle_code.specs.Fitting.{tree_fits, IsSound};

use crate::cell::{put, read, write};
use crate::code::Code;
use design_core::{BinaryOp, Typed, UnaryOp};
use loc_base::Bits;
use plain_values::{binary, repeated, resized, unary, value};

/// Copies a cell to one of its width.
#[inline(always)]
pub(crate) fn move_word(cells: &mut [Bits], from: u32, to: u32)
    requires from { from < length cells.old }
    requires to { to < length cells.old }
    requires width { width_in (map width_of cells.old) from ≡ width_in (map width_of cells.old) to }
    ensures widths { map width_of cells.new ≡ map width_of cells.old }
    ensures value { valuation_of cells.new ≡ with_held (map width_of cells.old) to
        (held (map width_of cells.old) (valuation_of cells.old) from) (valuation_of cells.old) }
{
    let word = read(cells, from);
    write(cells, to, word);
}

/// Puts some bits of a cell into a cell.
#[inline(always)]
pub(crate) fn slice(cells: &mut [Bits], arg: u32, from: u8, width: u8, to: u32)
    requires arg { arg < length cells.old }
    requires to { to < length cells.old }
    requires some { 1 ≤ width }
    requires within { from + width ≤ width_in (map width_of cells.old) arg }
    requires width { width_in (map width_of cells.old) to ≡ width }
    ensures widths { map width_of cells.new ≡ map width_of cells.old }
    ensures value { valuation_of cells.new ≡ with_held (map width_of cells.old) to
        (number width (λ b. valuation_of cells.old arg (from + b))) (valuation_of cells.old) }
{
    let word = read(cells, arg).part(from, width);
    write(cells, to, word);
}

/// Puts two cells, one above the other, into a cell.
#[inline(always)]
pub(crate) fn join(cells: &mut [Bits], high: u32, low: u32, to: u32)
    requires high { high < length cells.old }
    requires low { low < length cells.old }
    requires to { to < length cells.old }
    requires width { width_in (map width_of cells.old) to
        ≡ width_in (map width_of cells.old) high + width_in (map width_of cells.old) low }
    ensures widths { map width_of cells.new ≡ map width_of cells.old }
    ensures value { valuation_of cells.new ≡ with_held (map width_of cells.old) to
        (held (map width_of cells.old) (valuation_of cells.old) high * 2 ^ width_in (map width_of cells.old) low
        + held (map width_of cells.old) (valuation_of cells.old) low)
        (valuation_of cells.old) }
{
    let word = read(cells, high).join(read(cells, low));
    write(cells, to, word);
}

/// Puts the word of a cell a number of times, one after another, into a cell.
#[inline(always)]
pub(crate) fn repeat(cells: &mut [Bits], times: u8, part: u32, to: u32)
    requires part { part < length cells.old }
    requires to { to < length cells.old }
    requires some { 1 ≤ times }
    requires fits { times * width_in (map width_of cells.old) part ≤ 128 }
    requires width { times * width_in (map width_of cells.old) part ≡ width_in (map width_of cells.old) to }
    ensures widths { map width_of cells.new ≡ map width_of cells.old }
    ensures value { valuation_of cells.new ≡ with_held (map width_of cells.old) to
        (repeated times (width_in (map width_of cells.old) part) (held (map width_of cells.old) (valuation_of cells.old) part))
        (valuation_of cells.old) }
{
    let word = repeated(times, read(cells, part));
    write(cells, to, word);
}

/// Puts the word of a cell, extended by its sign or cut, into a cell.
#[inline(always)]
pub(crate) fn resize(cells: &mut [Bits], arg: u32, signed: bool, to: u32)
    requires arg { arg < length cells.old }
    requires to { to < length cells.old }
    ensures widths { map width_of cells.new ≡ map width_of cells.old }
    ensures value { valuation_of cells.new ≡ with_held (map width_of cells.old) to
        (resized (width_in (map width_of cells.old) to) signed (width_in (map width_of cells.old) arg)
        (held (map width_of cells.old) (valuation_of cells.old) arg))
        (valuation_of cells.old) }
{
    let word = resized(read(cells, arg), signed, read(cells, to).width());
    write(cells, to, word);
}

/// Puts what a unary operator makes of a cell into a cell.
#[inline(always)]
pub(crate) fn operate(cells: &mut [Bits], op: UnaryOp, arg: u32, to: u32)
    requires arg { arg < length cells.old }
    requires to { to < length cells.old }
    requires fits { IsTrue (unary_fits op (width_in (map width_of cells.old) to) (width_in (map width_of cells.old) arg)) }
    ensures widths { map width_of cells.new ≡ map width_of cells.old }
    ensures value { valuation_of cells.new ≡ with_held (map width_of cells.old) to
        (unary op (width_in (map width_of cells.old) arg) (held (map width_of cells.old) (valuation_of cells.old) arg))
        (valuation_of cells.old) }
{
    let word = unary(op, read(cells, arg));
    write(cells, to, word);
}

/// Puts what a binary operator makes of two cells into a cell.
#[inline(always)]
pub(crate) fn combine(
    cells: &mut [Bits],
    op: BinaryOp,
    left: u32,
    left_signed: bool,
    right: u32,
    right_signed: bool,
    to: u32,
)
    requires { AreOperands op (map width_of cells.old) left right to }
    ensures widths { map width_of cells.new ≡ map width_of cells.old }
    ensures value { valuation_of cells.new ≡ with_held (map width_of cells.old) to
        (binary op (width_in (map width_of cells.old) left) left_signed right_signed
        (held (map width_of cells.old) (valuation_of cells.old) left) (held (map width_of cells.old) (valuation_of cells.old) right))
        (valuation_of cells.old) }
{
    let word = binary(
        op,
        read(cells, left),
        left_signed,
        read(cells, right),
        right_signed,
    );
    write(cells, to, word);
}

/// The value of an expression in the words that are read.
pub(crate) fn computed(code: &Code, e: &Typed, cells: &[Bits]) -> Bits
    requires sound { IsSound (program_of code.now) }
    requires widths { map width_of cells.now ≡ (program_of code.now).widths }
    requires fits { IsTrue (tree_fits (program_of code.now) e.now.width e.now) }
    ensures width { width_of result ≡ e.now.width }
    ensures value { value_of result
        ≡ value (signals_of (program_of code.now)) (below (count_of (program_of code.now)) (valuation_of cells.now)) e.now }
{
    let signals = code.design.signals.as_slice();
    value(signals, &cells[..signals.len()], e)
}

/// Puts the value of the expression of a number, in the words that are read, into a cell.
#[inline(always)]
pub(crate) fn compute(code: &Code, tree: u32, to: u32, cells: &mut [Bits])
    requires sound { IsSound (program_of code.now) }
    requires widths { map width_of cells.old ≡ (program_of code.now).widths }
    requires to { to < length cells.old }
    requires fits { IsTrue (option_map_or (tree_fits (program_of code.now) (width_in (program_of code.now).widths to))
        (slice_get (program_of code.now).trees tree) false) }
    ensures widths { map width_of cells.new ≡ map width_of cells.old }
    ensures value { valuation_of cells.new ≡ with_computed (program_of code.now) tree to (valuation_of cells.old) }
{
    let word = computed(code, code.trees[tree as usize], cells);
    write(cells, to, word);
}

/// Puts the word of a cell into a cell, extended by zeros or cut to its width.
#[inline(always)]
pub(crate) fn copy(cells: &mut [Bits], from: u32, to: u32)
    requires from { from < length cells.old }
    requires to { to < length cells.old }
    ensures widths { map width_of cells.new ≡ map width_of cells.old }
    ensures value { valuation_of cells.new ≡ with_held (map width_of cells.old) to
        (held (map width_of cells.old) (valuation_of cells.old) from) (valuation_of cells.old) }
{
    let word = read(cells, from);
    put(cells, to, word);
}
