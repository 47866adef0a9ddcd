//! Words of arrays by a variable index (IEEE 1364-2005, 4.9).
ghost use Rattle.std.specs.Prelude.{◌≡◌, ◌≤◌, ◌+◌, ◌^◌, ◌<◌, length, IfOk};
ghost use Rattle.std.specs.Prelude.{◌+ℤ◌, pos};
ghost use Rattle.word_net.specs.Build.{made, pushed};
ghost use Rattle.word_net.specs.declared.node.Operation.TheVariants as operation;
ghost use Rattle.synth_parts.specs.Expression.{array_made, word_made};

use crate::scene::{Nodes, Scene, push, unsigned};
use loc_base::NoMemory;
use word_net::{Operand, Operation};

/// Bits of a word of an array by a variable index: the number of the array's first word, its least address, the index,
/// and which bits of a word are meant.
#[derive(Clone, Copy, Debug)]
pub struct ArrayPart {
    pub first: u32,
    pub low: i32,
    pub index: Operand,
    pub from: u8,
    pub width: u8,
}

/// Whether the address is that of the word at a place.
pub(crate) fn is_word(nodes: &mut Nodes, array: ArrayPart, place: u32) -> Result<u32, NoMemory>
    ensures { IfOk result (λ n. made nodes.new n ≡ pushed nodes.old 1 (operation.Is array.index (array.low +ℤ pos place))) }
{
    let number = i64::from(array.low) + i64::from(place);
    let is = Operation::Is {
        index: array.index,
        number,
    };
    push(nodes, 1, is)
}

/// The bits of the word at a place where the address is its, else those so far.
#[tactic(auto, unfolding(crate::specs::Expression::word_made))]
fn word(
    at: &Scene,
    nodes: &mut Nodes,
    array: ArrayPart,
    so_far: u32,
    place: u32,
) -> Result<u32, NoMemory>
    requires few { length at.now.signals.now < 2 ^ 32 }
    requires within { array.first + place < length at.now.signals.now }
    requires each { length at.now.nodes_of.now ≡ length at.now.signals.now }
    ensures { IfOk result (λ n. made nodes.new n ≡ word_made at.now.signals.now at.now.nodes_of.now array nodes.old so_far place) }
{
    let is = is_word(nodes, array, place)?;
    let slice = Operation::Slice {
        word: at.read(array.first + place),
        from: array.from,
    };
    let bits = push(nodes, array.width, slice)?;
    let choose = Operation::Choose {
        cond: unsigned(is, 1),
        yes: unsigned(bits, array.width),
        no: unsigned(so_far, array.width),
    };
    push(nodes, array.width, choose)
}

/// A word of an array, or 0 where the address is none of its words'.
#[inline(never)]
#[tactic(auto, using(crate::proofs::ArraySteps::steps), unfolding(crate::specs::Expression::array_made))]
pub(crate) fn array(
    at: &Scene,
    nodes: &mut Nodes,
    array: ArrayPart,
    count: u32,
) -> Result<u32, NoMemory>
    requires few { length at.now.signals.now < 2 ^ 32 }
    requires within { array.first + count ≤ length at.now.signals.now }
    requires each { length at.now.nodes_of.now ≡ length at.now.signals.now }
    ensures { IfOk result (λ n. made nodes.new n ≡ array_made at.now.signals.now at.now.nodes_of.now array nodes.old count) }
{
    let mut so_far = push(nodes, array.width, Operation::Const(0))?;
    for place in 0..count {
        so_far = word(at, nodes, array, so_far, place)?;
    }
    Ok(so_far)
}
