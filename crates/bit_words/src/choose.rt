ghost use Rattle.std.specs.Prelude.{◌≡◌, ◌<◌, IfErr, OnOk};
ghost use Rattle.gate_base.specs.Arena.{UnlessNoMemory};
ghost use Rattle.gate_base.specs.Nodes.{counted, word};
ghost use Rattle.bit_words.specs.Choose.{choice_made};

use crate::word_maker::WordMaker;
use gate_base::{Literal, MakeErr};

impl WordMaker {
    /// Appends the bits of `yes` where the condition holds, else those of `no`, as many as both have.
    #[tactic(auto, using(crate::proofs::ChooseSteps::steps))]
    pub fn choose(
        &mut self,
        condition: Literal,
        yes: &[Literal],
        no: &[Literal],
    ) -> Result<(), MakeErr>
        ensures ok { OnOk result (word self.new.maker.nodes self.new.bits ≡ choice_made self.old.maker.nodes self.old.bits condition yes.now no.now) }
        ensures err { IfErr result (λ e. UnlessNoMemory e (self.old.maker.limit < counted (choice_made self.old.maker.nodes self.old.bits condition yes.now no.now).nodes)) }
        ensures limit { self.new.maker.limit ≡ self.old.maker.limit }
    {
        let width = yes.len().min(no.len());
        for i in 0..width {
            let bit = self.maker.mux(condition, yes[i], no[i])?;
            self.bits.push(bit)?;
        }
        Ok(())
    }
}
