//! The literals of a node of a net, by cases on what it computes.

ghost use Rattle.std.specs.Prelude.{◌≡◌, ◌+◌, ◌<◌, ◌≤◌, ◌^◌, [], IfErr, OnOk, if◌then◌else◌, length, map};
ghost use Rattle.gate_base.specs.Arena.{UnlessNoMemory};
ghost use Rattle.gate_base.specs.Nodes.{counted, sources_in, word};
ghost use Rattle.word_net.specs.Fits.{NodeFits, OperandFits};
ghost use Rattle.word_net.specs.Nets.{is_source};
ghost use Rattle.bit_circuit.specs.Fields.{AreWords};
ghost use Rattle.bit_circuit.specs.Nodes.{bits_at, literals_made};

use crate::binary::{Operator, binary};
use crate::index::{ByIndex, picks, puts};
use crate::names::name_of;
use crate::operators::{push, unary};
use crate::sources::{frees, inputs, states};
use crate::wires::{blend, constant, repeat, replace, resize};
use bit_words::WordMaker;
use gate_base::{Literal, MakeErr};
use loc_base::Rows;
use std::alloc::Global;
use word_net::{Operand, Operation, WordNode};

/// The literals of an operand, those of the nodes so far being given.
#[tactic(auto, using(crate::proofs::NodeSteps::operands))]
fn bits(words: &Rows<Literal>, operand: Operand) -> &[Literal]
    requires fits { OperandFits (map length words.now) operand }
    requires words { AreWords words.now }
    ensures value { result.now ≡ bits_at words.now operand }
    ensures width { length result.now ≡ operand.width }
    ensures least { 1 ≤ operand.width }
    ensures most { operand.width ≤ 128 }
{
    words.row(operand.node as usize)
}

/// Appends the literals of a node, those of the nodes before it being given.
#[tactic(auto, using(crate::proofs::NodeSteps::nodes), unfolding(crate::specs::Nodes::operation_made))]
pub(crate) fn literals(
    maker: &mut WordMaker,
    alloc: Global,
    words: &Rows<Literal>,
    node: &WordNode,
) -> Result<(), MakeErr>
    requires empty { maker.old.bits ≡ [] }
    requires fits { NodeFits (map length words.now) node.now }
    requires words { AreWords words.now }
    requires few { sources_in maker.old.maker.nodes + (if is_source node.now.operation then node.now.width else 0) ≤ 2 ^ 31 }
    ensures ok { OnOk result (word maker.new.maker.nodes maker.new.bits ≡ literals_made maker.old.maker.nodes words.now node.now) }
    ensures err { IfErr result (λ e. UnlessNoMemory e (maker.old.maker.limit < counted (literals_made maker.old.maker.nodes words.now node.now).nodes)) }
    ensures limit { maker.new.maker.limit ≡ maker.old.maker.limit }
{
    match &node.operation {
        Operation::Const(value) => {
            constant(maker, node.width, *value)?;
            Ok(())
        }
        Operation::Input(input) => {
            inputs(maker, *input, node.width)?;
            Ok(())
        }
        Operation::State(state) => {
            states(maker, *state, node.width)?;
            Ok(())
        }
        Operation::Free { place, computed } => {
            let low = &bits(words, *computed)[..usize::from(node.width)];
            frees(maker, *place, low)
        }
        Operation::Unary { op, arg } => unary(maker, alloc, *op, bits(words, *arg)),
        Operation::Binary { op, left, right } => {
            let operator = Operator {
                alloc,
                op: *op,
                left_signed: left.signed,
                right_signed: right.signed,
            };
            binary(maker, operator, bits(words, *left), bits(words, *right))
        }
        Operation::Choose { cond, yes, no } => {
            let test = bits(words, *cond)[0];
            maker.choose(test, bits(words, *yes), bits(words, *no))
        }
        Operation::Join { high, low } => {
            maker.bits.append(bits(words, *low))?;
            maker.bits.append(bits(words, *high))?;
            Ok(())
        }
        Operation::Repeat { times, part } => {
            repeat(maker, *times, bits(words, *part))?;
            Ok(())
        }
        Operation::Resize(arg) => {
            resize(
                maker,
                usize::from(node.width),
                arg.signed,
                bits(words, *arg),
            )?;
            Ok(())
        }
        Operation::Slice { word, from } => {
            let first = usize::from(*from);
            let part = &bits(words, *word)[first..first + usize::from(node.width)];
            maker.bits.append(part)?;
            Ok(())
        }
        Operation::Pick { word, select } => {
            let index = bits(words, select.index);
            picks(
                maker,
                ByIndex {
                    alloc,
                    select,
                    index,
                },
                bits(words, *word),
            )
        }
        Operation::Is { index, number } => {
            let literals = bits(words, *index);
            let name = name_of(index.signed, index.width, *number);
            let is = maker.matches(literals, name)?;
            push(maker, is)
        }
        Operation::Put {
            old,
            from,
            size,
            word,
            offset,
        } => {
            let first = usize::from(*offset);
            let part = &bits(words, *word)[first..first + usize::from(*size)];
            replace(maker, usize::from(*from), part, bits(words, *old))?;
            Ok(())
        }
        Operation::PutPick {
            old,
            select,
            word,
            offset,
        } => {
            let index = bits(words, select.index);
            let value = &bits(words, *word)[usize::from(*offset)..];
            puts(
                maker,
                ByIndex {
                    alloc,
                    select,
                    index,
                },
                value,
                bits(words, *old),
            )
        }
        Operation::Blend { mask, one, other } => {
            blend(maker, *mask, bits(words, *one), bits(words, *other))?;
            Ok(())
        }
    }
}
