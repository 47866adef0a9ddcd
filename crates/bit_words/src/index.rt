ghost use Rattle.std.specs.Prelude.{◌≡◌, ◌<◌, IfErr, IfOk, false, true};
ghost use Rattle.gate_base.specs.Arena.{UnlessNoMemory};
ghost use Rattle.gate_base.specs.Nodes.{counted, made};
ghost use Rattle.gate_base.specs.declared.literal.Literal.TheVariants.{Known};
ghost use Rattle.bit_words.specs.Index.{match_made, number_made, pick_made, put_made};

use crate::word_maker::{WordMaker, turned};
use gate_base::{Literal, MakeErr, Maker};

/// Whether a word is a number.
#[tactic(auto, using(crate::proofs::IndexSteps::numbers))]
fn is_number(maker: &mut Maker, word: &[Literal], number: u128) -> Result<Literal, MakeErr>
    ensures ok { IfOk result (λ l. made maker.new.nodes l ≡ number_made maker.old.nodes (Known true) word.now number) }
    ensures err { IfErr result (λ e. UnlessNoMemory e (maker.old.limit < counted (number_made maker.old.nodes (Known true) word.now number).nodes)) }
    ensures limit { maker.new.limit ≡ maker.old.limit }
{
    let mut so_far = Literal::Known(true);
    let mut rest = number;
    for i in 0..word.len() {
        so_far = maker.and(so_far, turned(rest % 2 == 0, word[i]))?;
        rest /= 2;
    }
    Ok(so_far)
}

impl WordMaker {
    /// Whether an index has the number that names a bit; false where there is none.
    #[tactic(auto, unfolding(crate::specs::Index::match_made))]
    pub fn matches(&mut self, index: &[Literal], name: Option<u128>) -> Result<Literal, MakeErr>
        ensures ok { IfOk result (λ l. made self.new.maker.nodes l ≡ match_made self.old.maker.nodes index.now name) }
        ensures err { IfErr result (λ e. UnlessNoMemory e (self.old.maker.limit < counted (match_made self.old.maker.nodes index.now name).nodes)) }
        ensures limit { self.new.maker.limit ≡ self.old.maker.limit }
        ensures bits { self.new.bits ≡ self.old.bits }
    {
        match name {
            None => Ok(Literal::Known(false)),
            Some(number) => is_number(&mut self.maker, index, number),
        }
    }

    /// The bit of a word that an index names, each bit with the number of the index that names it.
    #[tactic(auto, using(crate::proofs::IndexSteps::picks))]
    pub fn pick(
        &mut self,
        index: &[Literal],
        word: &[Literal],
        names: &[Option<u128>],
    ) -> Result<Literal, MakeErr>
        ensures ok { IfOk result (λ l. made self.new.maker.nodes l ≡ pick_made self.old.maker.nodes (Known false) index.now word.now names.now) }
        ensures err { IfErr result (λ e. UnlessNoMemory e (self.old.maker.limit < counted (pick_made self.old.maker.nodes (Known false) index.now word.now names.now).nodes)) }
        ensures limit { self.new.maker.limit ≡ self.old.maker.limit }
        ensures bits { self.new.bits ≡ self.old.bits }
    {
        let width = word.len().min(names.len());
        let mut so_far = Literal::Known(false);
        for i in 0..width {
            let named = self.matches(index, names[i])?;
            let bit = self.maker.and(word[i], named)?;
            so_far = self.maker.or(so_far, bit)?;
        }
        Ok(so_far)
    }

    /// A bit into which the bits of a value are stored, each where the index has the number that puts it there.
    #[tactic(auto, using(crate::proofs::IndexSteps::puts))]
    pub fn put(
        &mut self,
        index: &[Literal],
        value: &[Literal],
        names: &[Option<u128>],
        old: Literal,
    ) -> Result<Literal, MakeErr>
        ensures ok { IfOk result (λ l. made self.new.maker.nodes l ≡ put_made self.old.maker.nodes old index.now value.now names.now) }
        ensures err { IfErr result (λ e. UnlessNoMemory e (self.old.maker.limit < counted (put_made self.old.maker.nodes old index.now value.now names.now).nodes)) }
        ensures limit { self.new.maker.limit ≡ self.old.maker.limit }
        ensures bits { self.new.bits ≡ self.old.bits }
    {
        let width = value.len().min(names.len());
        let mut so_far = old;
        for i in 0..width {
            let named = self.matches(index, names[i])?;
            so_far = self.maker.mux(named, value[i], so_far)?;
        }
        Ok(so_far)
    }
}
