ghost use Rattle.std.specs.Prelude.{◌≡◌, ◌<◌, IfErr, IfOk, OnOk};
ghost use Rattle.gate_base.specs.Arena.{UnlessNoMemory};
ghost use Rattle.gate_base.specs.Nodes.{counted, made, word};
ghost use Rattle.bit_words.specs.Bitwise.{bit_made, bitwise_made};

use crate::word_maker::WordMaker;
use gate_base::{Literal, MakeErr, Maker};

/// An operator that goes bit by bit.
#[derive(Clone, Copy, Debug)]
pub enum Bitwise {
    And,
    Or,
    Xor,
    Xnor,
}

/// One bit of such an operator.
#[tactic(auto, unfolding(crate::specs::Bitwise::bit_made))]
fn bit(
    maker: &mut Maker,
    operator: Bitwise,
    left: Literal,
    right: Literal,
) -> Result<Literal, MakeErr>
    ensures ok { IfOk result (λ l. made maker.new.nodes l ≡ bit_made operator maker.old.nodes left right) }
    ensures err { IfErr result (λ e. UnlessNoMemory e (maker.old.limit < counted (bit_made operator maker.old.nodes left right).nodes)) }
    ensures limit { maker.new.limit ≡ maker.old.limit }
{
    match operator {
        Bitwise::And => maker.and(left, right),
        Bitwise::Or => maker.or(left, right),
        Bitwise::Xor => maker.xor(left, right),
        Bitwise::Xnor => {
            let differ = maker.xor(left, right)?;
            Ok(differ.opposite())
        }
    }
}

impl WordMaker {
    /// Appends the bits of an operator, as many as both operands have.
    #[tactic(auto, using(crate::proofs::BitwiseSteps::steps))]
    pub fn bitwise(
        &mut self,
        operator: Bitwise,
        left: &[Literal],
        right: &[Literal],
    ) -> Result<(), MakeErr>
        ensures ok { OnOk result (word self.new.maker.nodes self.new.bits ≡ bitwise_made operator self.old.maker.nodes self.old.bits left.now right.now) }
        ensures err { IfErr result (λ e. UnlessNoMemory e (self.old.maker.limit < counted (bitwise_made operator self.old.maker.nodes self.old.bits left.now right.now).nodes)) }
        ensures limit { self.new.maker.limit ≡ self.old.maker.limit }
    {
        let width = left.len().min(right.len());
        for i in 0..width {
            let bit = bit(&mut self.maker, operator, left[i], right[i])?;
            self.bits.push(bit)?;
        }
        Ok(())
    }
}
