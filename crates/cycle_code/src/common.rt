//! The commonest operators, which have instructions of their own: what each puts into a cell is what the operator gives for operands
//! without a sign.

ghost use Rattle.std.specs.Prelude.{◌≡◌, ◌<◌, IsTrue, length, map};
ghost use Rattle.loc_base.specs.Bits.{width_of};
ghost use Rattle.design_core.specs.declared.expression.UnaryOp.TheVariants as unary_op;
ghost use Rattle.design_core.specs.declared.expression.BinaryOp.TheVariants as binary_op;
ghost use Rattle.design_core.specs.WellFormed.{unary_fits};
ghost use Rattle.design_core.specs.Operator.{unary};
ghost use Rattle.design_core.specs.Words.{valuation_of};
ghost use Rattle.cycle_code.specs.Cells.{width_in, held, with_held};
ghost use Rattle.cycle_code.specs.Operands.{AreOperands, with_result};

use crate::cell::{are_equal, read, write};
use loc_base::Bits;

/// Puts the sum of two cells into a cell.
#[inline(always)]
pub(crate) fn add(cells: &mut [Bits], left: u32, right: u32, to: u32)
    requires { AreOperands binary_op.Add (map width_of cells.old) left right to }
    ensures widths { map width_of cells.new ≡ map width_of cells.old }
    ensures value { valuation_of cells.new ≡ with_result binary_op.Add (map width_of cells.old) left right to (valuation_of cells.old) }
{
    let word = read(cells, left).add(read(cells, right));
    write(cells, to, word);
}

/// Puts the difference of two cells into a cell.
#[inline(always)]
pub(crate) fn subtract(cells: &mut [Bits], left: u32, right: u32, to: u32)
    requires { AreOperands binary_op.Subtract (map width_of cells.old) left right to }
    ensures widths { map width_of cells.new ≡ map width_of cells.old }
    ensures value { valuation_of cells.new ≡ with_result binary_op.Subtract (map width_of cells.old) left right to (valuation_of cells.old) }
{
    let word = read(cells, left).sub(read(cells, right));
    write(cells, to, word);
}

/// Puts 1 into each place of a cell where two cells have 1.
#[inline(always)]
pub(crate) fn and(cells: &mut [Bits], left: u32, right: u32, to: u32)
    requires { AreOperands binary_op.And (map width_of cells.old) left right to }
    ensures widths { map width_of cells.new ≡ map width_of cells.old }
    ensures value { valuation_of cells.new ≡ with_result binary_op.And (map width_of cells.old) left right to (valuation_of cells.old) }
{
    let word = read(cells, left).and(read(cells, right));
    write(cells, to, word);
}

/// Puts 1 into each place of a cell where one of two cells has 1.
#[inline(always)]
pub(crate) fn or(cells: &mut [Bits], left: u32, right: u32, to: u32)
    requires { AreOperands binary_op.Or (map width_of cells.old) left right to }
    ensures widths { map width_of cells.new ≡ map width_of cells.old }
    ensures value { valuation_of cells.new ≡ with_result binary_op.Or (map width_of cells.old) left right to (valuation_of cells.old) }
{
    let word = read(cells, left).or(read(cells, right));
    write(cells, to, word);
}

/// Puts 1 into each place of a cell where exactly one of two cells has 1.
#[inline(always)]
pub(crate) fn xor(cells: &mut [Bits], left: u32, right: u32, to: u32)
    requires { AreOperands binary_op.Xor (map width_of cells.old) left right to }
    ensures widths { map width_of cells.new ≡ map width_of cells.old }
    ensures value { valuation_of cells.new ≡ with_result binary_op.Xor (map width_of cells.old) left right to (valuation_of cells.old) }
{
    let word = read(cells, left).xor(read(cells, right));
    write(cells, to, word);
}

/// Puts 1 into each place of a cell where another one has 0.
#[inline(always)]
pub(crate) fn not(cells: &mut [Bits], arg: u32, to: u32)
    requires arg { arg < length cells.old }
    requires to { to < length cells.old }
    requires fits { IsTrue (unary_fits unary_op.Not (width_in (map width_of cells.old) to) (width_in (map width_of cells.old) arg)) }
    ensures widths { map width_of cells.new ≡ map width_of cells.old }
    ensures value { valuation_of cells.new ≡ with_held (map width_of cells.old) to
        (unary unary_op.Not (width_in (map width_of cells.old) arg) (held (map width_of cells.old) (valuation_of cells.old) arg))
        (valuation_of cells.old) }
{
    let word = read(cells, arg).not();
    write(cells, to, word);
}

/// Puts 1 into a cell where two cells hold one number, else 0.
#[inline(always)]
pub(crate) fn equal(cells: &mut [Bits], left: u32, right: u32, to: u32)
    requires { AreOperands binary_op.Equal (map width_of cells.old) left right to }
    ensures widths { map width_of cells.new ≡ map width_of cells.old }
    ensures value { valuation_of cells.new ≡ with_result binary_op.Equal (map width_of cells.old) left right to (valuation_of cells.old) }
{
    let word = Bits::from_bool(are_equal(cells, left, right));
    write(cells, to, word);
}

/// Puts 1 into a cell where two cells hold different numbers, else 0.
#[inline(always)]
pub(crate) fn unlike(cells: &mut [Bits], left: u32, right: u32, to: u32)
    requires { AreOperands binary_op.NotEqual (map width_of cells.old) left right to }
    ensures widths { map width_of cells.new ≡ map width_of cells.old }
    ensures value { valuation_of cells.new ≡ with_result binary_op.NotEqual (map width_of cells.old) left right to (valuation_of cells.old) }
{
    let word = Bits::from_bool(!are_equal(cells, left, right));
    write(cells, to, word);
}
