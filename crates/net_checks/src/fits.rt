//! Whether nodes fit behind others.

ghost use Rattle.std.specs.Prelude.{◌≡◌, ◌≤◌, [], IsTrue};
ghost use Rattle.word_net.specs.Fits.{AllFit, NodeFits, OperationFits, widths_of};

use crate::operands::{has_width, is_below, is_operand, select_fits};
use design_fits::{binary_fits, unary_fits};
use word_net::{Operation, WordNode};

/// Whether the operands of a node are there and have the widths that it asks for.
fn operation_fits(widths: &[u8], node: &WordNode) -> bool
    requires { node.now.width ≤ 128 }
    ensures { IsTrue result → OperationFits widths.now node.now.width node.now.operation }
{
    let width = usize::from(node.width);
    match &node.operation {
        Operation::Const(value) => is_below(*value, node.width),
        Operation::Input(_) | Operation::State(_) => true,
        Operation::Free { place: _, computed } => {
            is_operand(widths, *computed) && node.width <= computed.width
        }
        Operation::Unary { op, arg } => {
            is_operand(widths, *arg) && unary_fits(*op, node.width, arg.width)
        }
        Operation::Binary { op, left, right } => {
            is_operand(widths, *left)
                && is_operand(widths, *right)
                && binary_fits(*op, node.width, left.width, right.width)
        }
        Operation::Choose { cond, yes, no } => {
            has_width(widths, *cond, 1)
                && has_width(widths, *yes, node.width)
                && has_width(widths, *no, node.width)
        }
        Operation::Join { high, low } => {
            is_operand(widths, *high)
                && is_operand(widths, *low)
                && usize::from(high.width) + usize::from(low.width) == width
        }
        Operation::Repeat { times, part } => {
            is_operand(widths, *part) && usize::from(*times) * usize::from(part.width) == width
        }
        Operation::Resize(arg) => is_operand(widths, *arg),
        Operation::Slice { word, from } => {
            is_operand(widths, *word) && usize::from(*from) + width <= usize::from(word.width)
        }
        Operation::Pick { word, select } => {
            is_operand(widths, *word)
                && select_fits(widths, *word, select)
                && select.offsets.len() == width
        }
        Operation::Is { index, number: _ } => is_operand(widths, *index) && node.width == 1,
        Operation::Put {
            old,
            from,
            size,
            word,
            offset,
        } => {
            has_width(widths, *old, node.width)
                && is_operand(widths, *word)
                && usize::from(*from) + usize::from(*size) <= width
                && usize::from(*offset) + usize::from(*size) <= usize::from(word.width)
        }
        Operation::PutPick {
            old,
            select,
            word,
            offset,
        } => {
            has_width(widths, *old, node.width)
                && is_operand(widths, *word)
                && select_fits(widths, *old, select)
                && select.offsets.len() <= usize::from(word.width)
                && usize::from(*offset) + select.offsets.len() <= usize::from(word.width)
        }
        Operation::Blend { mask, one, other } => {
            has_width(widths, *one, node.width)
                && has_width(widths, *other, node.width)
                && is_below(*mask, node.width)
        }
    }
}

/// Whether a node of 1 to 128 bits has its operands.
fn node_fits(widths: &[u8], node: &WordNode) -> bool
    ensures { IsTrue result → NodeFits widths.now node.now }
{
    1 <= node.width && node.width <= 128 && operation_fits(widths, node)
}

/// Whether each node fits behind those before it, whose widths are given.
#[tactic(auto, using(crate::proofs::FitSteps::steps))]
pub(crate) fn all_fit(widths: &[u8], nodes: &[WordNode]) -> bool
    requires { widths.now ≡ widths_of nodes.now }
    ensures { IsTrue result → AllFit [] nodes.now }
{
    for i in 0..nodes.len() {
        if !node_fits(&widths[..i], &nodes[i]) {
            return false;
        }
    }
    true
}
