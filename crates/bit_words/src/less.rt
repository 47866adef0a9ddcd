ghost use Rattle.std.specs.Prelude.{◌≡◌, ◌<◌, IfErr, IfOk, false, length, slice_index_or};
ghost use Rattle.gate_base.specs.Arena.{UnlessNoMemory};
ghost use Rattle.gate_base.specs.Nodes.{counted, made};
ghost use Rattle.gate_base.specs.declared.literal.Literal.TheVariants.{Known};
ghost use Rattle.bit_words.specs.Less.{less_made, with_top};

use crate::add::carry;
use crate::word_maker::{WordMaker, turned};
use gate_base::{Literal, MakeErr};

/// A bit of a word whose top bit is turned where it is signed.
#[tactic(auto, using(crate::proofs::LessSteps::tops))]
fn bit_with_top(signed: bool, word: &[Literal], place: usize) -> Literal
    requires { place < length word.now }
    ensures { result ≡ slice_index_or (with_top signed word.now) place (Known false) }
{
    if place + 1 == word.len() {
        turned(signed, word[place])
    } else {
        word[place]
    }
}

impl WordMaker {
    /// Whether a word is less than another of its width, both of two's complement where they are signed.
    #[tactic(auto, using(crate::proofs::LessSteps::steps), unfolding(crate::specs::Less::less_made))]
    pub fn less(
        &mut self,
        signed: bool,
        left: &[Literal],
        right: &[Literal],
    ) -> Result<Literal, MakeErr>
        requires { length left.now ≡ length right.now }
        ensures ok { IfOk result (λ l. made self.new.maker.nodes l ≡ less_made signed self.old.maker.nodes left.now right.now) }
        ensures err { IfErr result (λ e. UnlessNoMemory e (self.old.maker.limit < counted (less_made signed self.old.maker.nodes left.now right.now).nodes)) }
        ensures limit { self.new.maker.limit ≡ self.old.maker.limit }
        ensures bits { self.new.bits ≡ self.old.bits }
    {
        let mut carried = Literal::Known(true);
        for i in 0..left.len() {
            let x = bit_with_top(signed, left, i);
            let y = bit_with_top(signed, right, i).opposite();
            let one = self.maker.xor(x, y)?;
            carried = carry(&mut self.maker, (x, y), carried, one)?;
        }
        Ok(carried.opposite())
    }
}
