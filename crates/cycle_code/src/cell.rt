//! The words of cells: read, written and compared.

ghost use Rattle.std.specs.Prelude.{◌≡◌, ◌<◌, not, ◌==◌, bit_or, false, length, map};
ghost use Rattle.loc_base.specs.Bits.{width_of, value_of};
ghost use Rattle.design_core.specs.Value.{value};
ghost use Rattle.design_core.specs.Operator.{resized};
ghost use Rattle.design_core.specs.Words.{valuation_of};
ghost use Rattle.cycle_code.specs.Cells.{width_in, held, with_held};

use loc_base::Bits;
use plain_values::{resized, word_at};

/// The word of a cell.
#[inline(always)]
pub(crate) fn read(cells: &[Bits], cell: u32) -> Bits
    requires { cell < length cells.now }
    ensures width { width_of result ≡ width_in (map width_of cells.now) cell }
    ensures value { value_of result ≡ held (map width_of cells.now) (valuation_of cells.now) cell }
{
    word_at(cells, cell as usize)
}

/// Puts a word into a cell of its width.
#[inline(always)]
pub(crate) fn write(cells: &mut [Bits], cell: u32, word: Bits)
    requires within { cell < length cells.old }
    requires width { width_of word ≡ width_in (map width_of cells.old) cell }
    ensures widths { map width_of cells.new ≡ map width_of cells.old }
    ensures value { valuation_of cells.new
        ≡ with_held (map width_of cells.old) cell (value_of word) (valuation_of cells.old) }
{
    cells[cell as usize].take(word);
}

/// Puts a word into a cell, extended by zeros or cut to its width.
pub(crate) fn fit(cells: &mut [Bits], cell: u32, word: Bits)
    requires { cell < length cells.old }
    ensures widths { map width_of cells.new ≡ map width_of cells.old }
    ensures value { valuation_of cells.new
        ≡ with_held (map width_of cells.old) cell (value_of word) (valuation_of cells.old) }
{
    let fitted = resized(word, false, read(cells, cell).width());
    write(cells, cell, fitted);
}

/// Puts a word into a cell, extended by zeros or cut to its width. Most words have that width, and are only copied.
#[inline(always)]
pub(crate) fn put(cells: &mut [Bits], cell: u32, word: Bits)
    requires { cell < length cells.old }
    ensures widths { map width_of cells.new ≡ map width_of cells.old }
    ensures value { valuation_of cells.new
        ≡ with_held (map width_of cells.old) cell (value_of word) (valuation_of cells.old) }
{
    if word.width() == read(cells, cell).width() {
        write(cells, cell, word);
    } else {
        fit(cells, cell, word);
    }
}

/// Whether a cell does not hold 0.
#[inline(always)]
pub(crate) fn holds(cells: &[Bits], cell: u32) -> bool
    requires { cell < length cells.now }
    ensures { result ≡ not (held (map width_of cells.now) (valuation_of cells.now) cell == 0) }
{
    read(cells, cell).value() != 0
}

/// Whether two cells hold one number.
#[inline(always)]
pub(crate) fn are_equal(cells: &[Bits], left: u32, right: u32) -> bool
    requires left { left < length cells.now }
    requires right { right < length cells.now }
    ensures { result ≡ (held (map width_of cells.now) (valuation_of cells.now) left
        == held (map width_of cells.now) (valuation_of cells.now) right) }
{
    read(cells, left).value() == read(cells, right).value()
}

/// Whether a label is equal to the subject outside its wild bits.
#[inline(always)]
pub(crate) fn matches(cells: &[Bits], subject: u32, label: u32, wild: u32) -> bool
    requires subject { subject < length cells.now }
    requires label { label < length cells.now }
    requires wild { wild < length cells.now }
    requires label_width { width_in (map width_of cells.now) label ≡ width_in (map width_of cells.now) subject }
    requires wild_width { width_in (map width_of cells.now) wild ≡ width_in (map width_of cells.now) subject }
    ensures { result ≡ (bit_or (held (map width_of cells.now) (valuation_of cells.now) subject) (held (map width_of cells.now) (valuation_of cells.now) wild)
        == bit_or (held (map width_of cells.now) (valuation_of cells.now) label) (held (map width_of cells.now) (valuation_of cells.now) wild)) }
{
    let wild = read(cells, wild);
    read(cells, subject).or(wild).value() == read(cells, label).or(wild).value()
}
