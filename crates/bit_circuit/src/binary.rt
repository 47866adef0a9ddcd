//! Binary operators on words, each the nodes of its definition.

ghost use Rattle.std.specs.Prelude.{[], ◌∷◌, ◌++◌, ◌≡◌, ◌<◌, ◌≤◌, IfErr, IfOk, OnOk, false, length};
ghost use Rattle.gate_base.specs.Arena.{UnlessNoMemory};
ghost use Rattle.gate_base.specs.Nodes.{counted, made, word};
ghost use Rattle.bit_circuit.specs.Nodes.{binary_made, both_true_made, one_true_made};
ghost use Rattle.bit_circuit.specs.Wires.{sign_bit};
ghost use Rattle.bit_circuit.specs.Fields.{AreTaken};

use crate::operators::push;
use bit_words::{Bitwise, Direction, Shift, WordMaker};
use design_core::BinaryOp;
use gate_base::{Literal, MakeErr, Maker};
use std::alloc::Global;

/// An operator, whether its operands are signed, and where lists that it needs meanwhile are allocated.
#[derive(Clone, Copy)]
pub(crate) struct Operator {
    pub alloc: Global,
    pub op: BinaryOp,
    pub left_signed: bool,
    pub right_signed: bool,
}

/// What comes in at the left of a word that is shifted or extended by its sign.
pub(crate) fn sign_bit(signed: bool, word: &[Literal]) -> Literal
    requires { 1 ≤ length word.now }
    ensures { result ≡ sign_bit signed word.now }
{
    if signed {
        word[word.len() - 1]
    } else {
        Literal::Known(false)
    }
}

/// Whether both words are true.
#[tactic(auto, using(gate_base::proofs::Counts::operators), unfolding(crate::specs::Nodes::both_true_made))]
fn both_true(maker: &mut Maker, left: &[Literal], right: &[Literal]) -> Result<Literal, MakeErr>
    ensures ok { IfOk result (λ l. made maker.new.nodes l ≡ both_true_made maker.old.nodes left.now right.now) }
    ensures err { IfErr result (λ e. UnlessNoMemory e (maker.old.limit < counted (both_true_made maker.old.nodes left.now right.now).nodes)) }
    ensures limit { maker.new.limit ≡ maker.old.limit }
{
    let one = maker.or_all(left)?;
    let other = maker.or_all(right)?;
    maker.and(one, other)
}

/// Whether one of two words is true.
#[tactic(auto, using(gate_base::proofs::Counts::operators), unfolding(crate::specs::Nodes::one_true_made))]
fn one_true(maker: &mut Maker, left: &[Literal], right: &[Literal]) -> Result<Literal, MakeErr>
    ensures ok { IfOk result (λ l. made maker.new.nodes l ≡ one_true_made maker.old.nodes left.now right.now) }
    ensures err { IfErr result (λ e. UnlessNoMemory e (maker.old.limit < counted (one_true_made maker.old.nodes left.now right.now).nodes)) }
    ensures limit { maker.new.limit ≡ maker.old.limit }
{
    let one = maker.or_all(left)?;
    let other = maker.or_all(right)?;
    maker.or(one, other)
}

/// Appends what a binary operator gives.
#[tactic(auto, unfolding(crate::specs::Nodes::binary_made))]
pub(crate) fn binary(
    words: &mut WordMaker,
    operator: Operator,
    left: &[Literal],
    right: &[Literal],
) -> Result<(), MakeErr>
    requires empty { words.old.bits ≡ [] }
    requires some { 1 ≤ length left.now }
    requires long { length left.now ≤ 128 }
    requires taken { AreTaken operator.op (length left.now) (length right.now) }
    ensures ok { OnOk result (word words.new.maker.nodes words.new.bits ≡ binary_made operator.op operator.left_signed operator.right_signed words.old.maker.nodes left.now right.now) }
    ensures err { IfErr result (λ e. UnlessNoMemory e (words.old.maker.limit < counted (binary_made operator.op operator.left_signed operator.right_signed words.old.maker.nodes left.now right.now).nodes)) }
    ensures limit { words.new.maker.limit ≡ words.old.maker.limit }
{
    let signed = operator.left_signed && operator.right_signed;
    let left_in = Shift {
        direction: Direction::Left,
        fill: Literal::Known(false),
    };
    let right_in = Shift {
        direction: Direction::Right,
        fill: Literal::Known(false),
    };
    match operator.op {
        BinaryOp::Add => words.add(left, right, Literal::Known(false)),
        BinaryOp::Subtract => words.subtract(left, right),
        BinaryOp::Multiply => words.multiply(operator.alloc, left, right),
        BinaryOp::And => words.bitwise(Bitwise::And, left, right),
        BinaryOp::Or => words.bitwise(Bitwise::Or, left, right),
        BinaryOp::Xor => words.bitwise(Bitwise::Xor, left, right),
        BinaryOp::Xnor => words.bitwise(Bitwise::Xnor, left, right),
        BinaryOp::ShiftLeft | BinaryOp::ArithmeticShiftLeft => words.shift(
            operator.alloc,
            left_in,
            left,
            right,
        ),
        BinaryOp::ShiftRight => words.shift(operator.alloc, right_in, left, right),
        BinaryOp::ArithmeticShiftRight => {
            let fill = sign_bit(operator.left_signed, left);
            words.shift(
                operator.alloc,
                Shift {
                    direction: Direction::Right,
                    fill,
                },
                left,
                right,
            )
        }
        BinaryOp::Less => {
            let less = words.less(signed, left, right)?;
            push(words, less)
        }
        BinaryOp::LessEqual => {
            let less = words.less(signed, right, left)?;
            push(words, less.opposite())
        }
        BinaryOp::Greater => {
            let less = words.less(signed, right, left)?;
            push(words, less)
        }
        BinaryOp::GreaterEqual => {
            let less = words.less(signed, left, right)?;
            push(words, less.opposite())
        }
        BinaryOp::Equal => {
            let equal = words.equal(left, right)?;
            push(words, equal)
        }
        BinaryOp::NotEqual => {
            let equal = words.equal(left, right)?;
            push(words, equal.opposite())
        }
        BinaryOp::LogicalAnd => {
            let both = both_true(&mut words.maker, left, right)?;
            push(words, both)
        }
        BinaryOp::LogicalOr => {
            let one = one_true(&mut words.maker, left, right)?;
            push(words, one)
        }
    }
}
