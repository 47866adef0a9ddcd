//! The node of each operator (IEEE 1364-2005, clause 5), over operands that are made. None of these is made a part of its caller, so that a
//! caller which calls itself for the operands keeps no room for any of these nodes meanwhile.
ghost use Rattle.std.specs.Prelude.{◌≡◌, IfOk};
ghost use Rattle.word_net.specs.Build.{made, pushed};
ghost use Rattle.word_net.specs.declared.node.Operation.TheVariants as operation;

use crate::scene::{Nodes, push};
use design_core::{BinaryOp, UnaryOp};
use loc_base::NoMemory;
use word_net::{Operand, Operation, Select};

/// The two operands of an operator, or the two arms of a choice.
#[derive(Clone, Copy, Drop)]
pub(crate) struct Both {
    pub(crate) one: Operand,
    pub(crate) other: Operand,
}

/// A number.
#[inline(never)]
pub(crate) fn constant(nodes: &mut Nodes, width: u8, value: u128) -> Result<u32, NoMemory>
    ensures { IfOk result (λ n. made nodes.new n ≡ pushed nodes.old width (operation.Const value)) }
{
    push(nodes, width, Operation::Const(value))
}

/// An operator on one operand.
#[inline(never)]
pub(crate) fn unary(
    nodes: &mut Nodes,
    width: u8,
    op: UnaryOp,
    arg: Operand,
) -> Result<u32, NoMemory>
    ensures { IfOk result (λ n. made nodes.new n ≡ pushed nodes.old width (operation.Unary op arg)) }
{
    push(nodes, width, Operation::Unary { op, arg })
}

/// An operator on two operands.
#[inline(never)]
pub(crate) fn binary(
    nodes: &mut Nodes,
    width: u8,
    op: BinaryOp,
    both: Both,
) -> Result<u32, NoMemory>
    ensures { IfOk result (λ n. made nodes.new n ≡ pushed nodes.old width (operation.Binary op both.one both.other)) }
{
    let binary = Operation::Binary {
        op,
        left: both.one,
        right: both.other,
    };
    push(nodes, width, binary)
}

/// One of two arms by a condition.
#[inline(never)]
pub(crate) fn choose(
    nodes: &mut Nodes,
    width: u8,
    cond: Operand,
    arms: Both,
) -> Result<u32, NoMemory>
    ensures { IfOk result (λ n. made nodes.new n ≡ pushed nodes.old width (operation.Choose cond arms.one arms.other)) }
{
    let choose = Operation::Choose {
        cond,
        yes: arms.one,
        no: arms.other,
    };
    push(nodes, width, choose)
}

/// A word several times.
#[inline(never)]
pub(crate) fn repeat(
    nodes: &mut Nodes,
    width: u8,
    times: u8,
    part: Operand,
) -> Result<u32, NoMemory>
    ensures { IfOk result (λ n. made nodes.new n ≡ pushed nodes.old width (operation.Repeat times part)) }
{
    push(nodes, width, Operation::Repeat { times, part })
}

/// A word extended or cut.
#[inline(never)]
pub(crate) fn resize(nodes: &mut Nodes, width: u8, arg: Operand) -> Result<u32, NoMemory>
    ensures { IfOk result (λ n. made nodes.new n ≡ pushed nodes.old width (operation.Resize arg)) }
{
    push(nodes, width, Operation::Resize(arg))
}

/// The bits of a word from a position on.
#[inline(never)]
pub(crate) fn slice(nodes: &mut Nodes, width: u8, word: Operand, from: u8) -> Result<u32, NoMemory>
    ensures { IfOk result (λ n. made nodes.new n ≡ pushed nodes.old width (operation.Slice word from)) }
{
    push(nodes, width, Operation::Slice { word, from })
}

/// Bits of a word by a variable index.
#[inline(never)]
pub(crate) fn pick(
    nodes: &mut Nodes,
    width: u8,
    word: Operand,
    select: Select,
) -> Result<u32, NoMemory>
    ensures { IfOk result (λ n. made nodes.new n ≡ pushed nodes.old width (operation.Pick word select)) }
{
    push(nodes, width, Operation::Pick { word, select })
}
