ghost use Rattle.std.specs.Prelude.{◌≡◌, ◌<◌, IfErr, IfOk, true};
ghost use Rattle.gate_base.specs.Arena.{UnlessNoMemory};
ghost use Rattle.gate_base.specs.Nodes.{counted, made};
ghost use Rattle.gate_base.specs.declared.literal.Literal.TheVariants.{Known};
ghost use Rattle.bit_words.specs.Equal.{equal_made};

use crate::word_maker::WordMaker;
use gate_base::{Literal, MakeErr};

impl WordMaker {
    /// Whether the two words are equal in the bits that both have.
    #[tactic(auto, using(crate::proofs::EqualSteps::steps))]
    pub fn equal(&mut self, left: &[Literal], right: &[Literal]) -> Result<Literal, MakeErr>
        ensures ok { IfOk result (λ l. made self.new.maker.nodes l ≡ equal_made self.old.maker.nodes (Known true) left.now right.now) }
        ensures err { IfErr result (λ e. UnlessNoMemory e (self.old.maker.limit < counted (equal_made self.old.maker.nodes (Known true) left.now right.now).nodes)) }
        ensures limit { self.new.maker.limit ≡ self.old.maker.limit }
        ensures bits { self.new.bits ≡ self.old.bits }
    {
        let width = left.len().min(right.len());
        let mut so_far = Literal::Known(true);
        for i in 0..width {
            let differ = self.maker.xor(left[i], right[i])?;
            so_far = self.maker.and(so_far, differ.opposite())?;
        }
        Ok(so_far)
    }
}
