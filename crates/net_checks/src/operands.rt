//! Whether operands fit.

ghost use Rattle.std.specs.Prelude.{◌≡◌, ◌<◌, ◌≤◌, ◌^◌, IsTrue};
ghost use Rattle.design_core.specs.Valuation.{distance_of};
ghost use Rattle.design_core.specs.WellFormed.{spans};
ghost use Rattle.word_net.specs.Fits.{OfWidth, OperandFits, SelectFits};

use word_net::{Operand, Select};

/// Whether an operand is a node that is there, and has its width.
pub(crate) fn is_operand(widths: &[u8], operand: Operand) -> bool
    ensures { IsTrue result → OperandFits widths.now operand }
{
    match widths.get(operand.node as usize) {
        Some(width) => *width == operand.width,
        None => false,
    }
}

/// Whether it has that width.
pub(crate) fn has_width(widths: &[u8], operand: Operand, width: u8) -> bool
    ensures { IsTrue result → OfWidth widths.now operand width }
{
    is_operand(widths, operand) && operand.width == width
}

/// Whether a number has no more than that many bits.
pub(crate) fn is_below(number: u128, bits: u8) -> bool
    requires { bits ≤ 128 }
    ensures { IsTrue result → number < 2 ^ bits }
{
    bits == 128 || number < 1 << bits
}

/// How far the position declared leftmost lies from the one declared rightmost.
fn distance(left: i32, right: i32) -> i64
    ensures { result ≡ distance_of left right left }
{
    if left < right {
        i64::from(right) - i64::from(left)
    } else {
        i64::from(left) - i64::from(right)
    }
}

/// Whether a range has as many positions as a word has bits.
#[tactic(auto, using(crate::proofs::FitSteps::ranges))]
pub(crate) fn spans(width: u8, left: i32, right: i32) -> bool
    ensures { IsTrue result → IsTrue (spans width (distance_of left right left)) }
{
    let distance = distance(left, right);
    distance >= 0 && distance + 1 == i64::from(width)
}

/// Whether a select fits a word.
pub(crate) fn select_fits(widths: &[u8], word: Operand, select: &Select) -> bool
    ensures { IsTrue result → SelectFits widths.now word select.now }
{
    is_operand(widths, select.index) && spans(word.width, select.left, select.right)
}
