//! Operators on words, each the nodes of its definition.

ghost use Rattle.std.specs.Prelude.{[], ◌∷◌, ◌++◌, ◌≡◌, ◌<◌, IfErr, OnOk, map};
ghost use Rattle.gate_base.specs.Arena.{UnlessNoMemory};
ghost use Rattle.gate_base.specs.Nodes.{counted, word};
ghost use Rattle.gate_base.specs.Literals.{opposite};
ghost use Rattle.bit_circuit.specs.Nodes.{unary_made};

use bit_words::WordMaker;
use design_core::UnaryOp;
use gate_base::{Literal, MakeErr};
use std::alloc::Global;

/// Appends one literal, or its opposite.
pub(crate) fn push(words: &mut WordMaker, literal: Literal) -> Result<(), MakeErr>
    ensures ok { OnOk result (word words.new.maker.nodes words.new.bits ≡ word words.old.maker.nodes (words.old.bits ++ literal ∷ [])) }
    ensures err { IfErr result (λ e. UnlessNoMemory e ⊥) }
    ensures limit { words.new.maker.limit ≡ words.old.maker.limit }
{
    words.bits.push(literal)?;
    Ok(())
}

/// Appends the opposite of each bit.
#[tactic(auto, using(crate::proofs::OperatorSteps::opposites))]
fn opposites(words: &mut WordMaker, arg: &[Literal]) -> Result<(), MakeErr>
    ensures ok { OnOk result (word words.new.maker.nodes words.new.bits ≡ word words.old.maker.nodes (words.old.bits ++ map opposite arg.now)) }
    ensures err { IfErr result (λ e. UnlessNoMemory e ⊥) }
    ensures limit { words.new.maker.limit ≡ words.old.maker.limit }
{
    for i in 0..arg.len() {
        words.bits.push(arg[i].opposite())?;
    }
    Ok(())
}

/// Appends what a unary operator gives.
#[tactic(auto, unfolding(crate::specs::Nodes::unary_made))]
pub(crate) fn unary(
    words: &mut WordMaker,
    alloc: Global,
    op: UnaryOp,
    arg: &[Literal],
) -> Result<(), MakeErr>
    requires { words.old.bits ≡ [] }
    ensures ok { OnOk result (word words.new.maker.nodes words.new.bits ≡ unary_made op words.old.maker.nodes arg.now) }
    ensures err { IfErr result (λ e. UnlessNoMemory e (words.old.maker.limit < counted (unary_made op words.old.maker.nodes arg.now).nodes)) }
    ensures limit { words.new.maker.limit ≡ words.old.maker.limit }
{
    match op {
        UnaryOp::Plus => {
            words.bits.append(arg)?;
            Ok(())
        }
        UnaryOp::Minus => words.minus(alloc, arg),
        UnaryOp::Not => opposites(words, arg),
        UnaryOp::ReduceAnd => {
            let all = words.maker.and_all(arg)?;
            push(words, all)
        }
        UnaryOp::ReduceNand => {
            let all = words.maker.and_all(arg)?;
            push(words, all.opposite())
        }
        UnaryOp::ReduceOr => {
            let some = words.maker.or_all(arg)?;
            push(words, some)
        }
        UnaryOp::ReduceNor | UnaryOp::LogicalNot => {
            let some = words.maker.or_all(arg)?;
            push(words, some.opposite())
        }
        UnaryOp::ReduceXor => {
            let odd = words.maker.xor_all(arg)?;
            push(words, odd)
        }
        UnaryOp::ReduceXnor => {
            let odd = words.maker.xor_all(arg)?;
            push(words, odd.opposite())
        }
    }
}
