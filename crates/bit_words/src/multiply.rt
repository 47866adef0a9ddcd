ghost use Rattle.std.specs.Prelude.{◌≡◌, ◌≤◌, ◌<◌, IfErr, OnOk, length};
ghost use Rattle.gate_base.specs.Arena.{UnlessNoMemory};
ghost use Rattle.gate_base.specs.Nodes.{counted, word};
ghost use Rattle.bit_words.specs.Multiply.{product_made, row_added, row_made};

use crate::add::zeros;
use crate::word_maker::WordMaker;
use gate_base::{Literal, MakeErr};
use loc_base::Items;
use std::alloc::Global;
use std::mem;

impl WordMaker {
    /// Appends the AND of each bit with one literal.
    #[tactic(auto, using(crate::proofs::MultiplySteps::rows))]
    fn row(&mut self, left: &[Literal], bit: Literal) -> Result<(), MakeErr>
        ensures ok { OnOk result (word self.new.maker.nodes self.new.bits ≡ row_made self.old.maker.nodes self.old.bits left.now bit) }
        ensures err { IfErr result (λ e. UnlessNoMemory e (self.old.maker.limit < counted (row_made self.old.maker.nodes self.old.bits left.now bit).nodes)) }
        ensures limit { self.new.maker.limit ≡ self.old.maker.limit }
    {
        for i in 0..left.len() {
            let bit = self.maker.and(left[i], bit)?;
            self.bits.push(bit)?;
        }
        Ok(())
    }

    /// Adds the row of a bit at a place to the word at hand.
    #[tactic(auto, using(crate::proofs::MultiplySteps::added), unfolding(crate::specs::Multiply::row_added))]
    fn add_row(
        &mut self,
        alloc: Global,
        left: &[Literal],
        place: usize,
        bit: Literal,
    ) -> Result<(), MakeErr>
        requires { place ≤ length left.now }
        ensures ok { OnOk result (word self.new.maker.nodes self.new.bits ≡ row_added self.old.maker.nodes self.old.bits left.now place bit) }
        ensures err { IfErr result (λ e. UnlessNoMemory e (self.old.maker.limit < counted (row_added self.old.maker.nodes self.old.bits left.now place bit).nodes)) }
        ensures limit { self.new.maker.limit ≡ self.old.maker.limit }
    {
        let below = zeros(alloc, place)?;
        let so_far = mem::replace(&mut self.bits, below);
        self.row(&left[..left.len() - place], bit)?;
        let row = mem::replace(&mut self.bits, Items::new(alloc));
        self.add(so_far.as_slice(), row.as_slice(), Literal::Known(false))
    }

    /// Puts the product of two words of one width in the place of the word at hand.
    #[tactic(auto, using(crate::proofs::MultiplySteps::products))]
    pub fn multiply(
        &mut self,
        alloc: Global,
        left: &[Literal],
        right: &[Literal],
    ) -> Result<(), MakeErr>
        requires { length left.now ≡ length right.now }
        ensures ok { OnOk result (word self.new.maker.nodes self.new.bits ≡ product_made self.old.maker.nodes left.now right.now) }
        ensures err { IfErr result (λ e. UnlessNoMemory e (self.old.maker.limit < counted (product_made self.old.maker.nodes left.now right.now).nodes)) }
        ensures limit { self.new.maker.limit ≡ self.old.maker.limit }
    {
        self.bits = zeros(alloc, left.len())?;
        for place in 0..right.len() {
            self.add_row(alloc, left, place, right[place])?;
        }
        Ok(())
    }
}
