ghost use Rattle.std.specs.Prelude.{◌≡◌, ◌<◌, IfErr, IfOk, OnOk, map, true};
ghost use Rattle.gate_base.specs.Arena.{UnlessNoMemory};
ghost use Rattle.gate_base.specs.Nodes.{counted, made, word};
ghost use Rattle.gate_base.specs.declared.literal.Literal.TheVariants.{Known};
ghost use Rattle.bit_words.specs.Bits.{turned};
ghost use Rattle.bit_words.specs.Add.{carry_made, carry_if, column, column_made, difference_made, minus_made, sum_made, zeros};

use crate::word_maker::{WordMaker, turned};
use gate_base::{Literal, MakeErr, Maker};
use loc_base::{Items, NoMemory};
use std::alloc::Global;

/// The bits of a column, the carry, and whether another column follows.
#[derive(Clone, Copy)]
struct Column {
    left: Literal,
    right: Literal,
    carry: Literal,
    follows: bool,
}

/// A word of 0.
pub(crate) fn zeros(alloc: Global, width: usize) -> Result<Items<Literal>, NoMemory>
    ensures { IfOk result (λ word. word ≡ zeros width) }
{
    let bits = vec![in alloc; Literal::Known(false); width]?;
    Ok(Items::from_vec(bits))
}

/// The carry of a column; `one` says that one of the two bits is true.
#[tactic(auto, using(gate_base::proofs::Counts::operators), unfolding(crate::specs::Add::carry_made))]
pub(crate) fn carry(
    maker: &mut Maker,
    bits: (Literal, Literal),
    carry: Literal,
    one: Literal,
) -> Result<Literal, MakeErr>
    ensures ok { IfOk result (λ l. made maker.new.nodes l ≡ carry_made maker.old.nodes bits.0 bits.1 carry one) }
    ensures err { IfErr result (λ e. UnlessNoMemory e (maker.old.limit < counted (carry_made maker.old.nodes bits.0 bits.1 carry one).nodes)) }
    ensures limit { maker.new.limit ≡ maker.old.limit }
{
    let both = maker.and(bits.0, bits.1)?;
    let carried = maker.and(carry, one)?;
    maker.or(both, carried)
}

/// The carry of a column where another follows.
#[tactic(auto, unfolding(crate::specs::Add::carry_if))]
fn next_carry(maker: &mut Maker, at: Column, one: Literal) -> Result<Literal, MakeErr>
    ensures ok { IfOk result (λ l. made maker.new.nodes l ≡ carry_if at.follows maker.old.nodes at.left at.right at.carry one) }
    ensures err { IfErr result (λ e. UnlessNoMemory e (maker.old.limit < counted (carry_if at.follows maker.old.nodes at.left at.right at.carry one).nodes)) }
    ensures limit { maker.new.limit ≡ maker.old.limit }
{
    if at.follows {
        carry(maker, (at.left, at.right), at.carry, one)
    } else {
        Ok(at.carry)
    }
}

impl WordMaker {
    /// Appends the sum of a column and gives the next carry.
    #[tactic(auto, using(crate::proofs::AddSteps::columns), unfolding(crate::specs::Add::column_made))]
    fn column(&mut self, at: Column) -> Result<Literal, MakeErr>
        ensures ok { IfOk result (λ l. column self.new.maker.nodes self.new.bits l ≡ column_made self.old.maker.nodes self.old.bits at.follows at.left at.right at.carry) }
        ensures err { IfErr result (λ e. UnlessNoMemory e (self.old.maker.limit < counted (column_made self.old.maker.nodes self.old.bits at.follows at.left at.right at.carry).nodes)) }
        ensures limit { self.new.maker.limit ≡ self.old.maker.limit }
    {
        let one = self.maker.xor(at.left, at.right)?;
        let sum = self.maker.xor(one, at.carry)?;
        let next = next_carry(&mut self.maker, at, one)?;
        self.bits.push(sum)?;
        Ok(next)
    }

    /// Appends the sum of a word, another or its opposite bits, and a carry.
    #[tactic(auto, using(crate::proofs::AddSteps::steps))]
    fn sum(
        &mut self,
        left: &[Literal],
        right: &[Literal],
        negated: bool,
        first: Literal,
    ) -> Result<(), MakeErr>
        ensures ok { OnOk result (word self.new.maker.nodes self.new.bits ≡ sum_made self.old.maker.nodes self.old.bits left.now (map (turned negated) right.now) first) }
        ensures err { IfErr result (λ e. UnlessNoMemory e (self.old.maker.limit < counted (sum_made self.old.maker.nodes self.old.bits left.now (map (turned negated) right.now) first).nodes)) }
        ensures limit { self.new.maker.limit ≡ self.old.maker.limit }
    {
        let width = left.len().min(right.len());
        let mut carry = first;
        for i in 0..width {
            carry = self.column(Column {
                left: left[i],
                right: turned(negated, right[i]),
                carry,
                follows: i + 1 < width,
            })?;
        }
        Ok(())
    }

    /// Appends the sum of two words and a carry, as many bits as both have.
    #[tactic(auto, using(crate::proofs::AddSteps::operands))]
    pub fn add(
        &mut self,
        left: &[Literal],
        right: &[Literal],
        carry: Literal,
    ) -> Result<(), MakeErr>
        ensures ok { OnOk result (word self.new.maker.nodes self.new.bits ≡ sum_made self.old.maker.nodes self.old.bits left.now right.now carry) }
        ensures err { IfErr result (λ e. UnlessNoMemory e (self.old.maker.limit < counted (sum_made self.old.maker.nodes self.old.bits left.now right.now carry).nodes)) }
        ensures limit { self.new.maker.limit ≡ self.old.maker.limit }
    {
        self.sum(left, right, false, carry)
    }

    /// Appends a difference.
    pub fn subtract(&mut self, left: &[Literal], right: &[Literal]) -> Result<(), MakeErr>
        ensures ok { OnOk result (word self.new.maker.nodes self.new.bits ≡ difference_made self.old.maker.nodes self.old.bits left.now right.now) }
        ensures err { IfErr result (λ e. UnlessNoMemory e (self.old.maker.limit < counted (difference_made self.old.maker.nodes self.old.bits left.now right.now).nodes)) }
        ensures limit { self.new.maker.limit ≡ self.old.maker.limit }
    {
        self.sum(left, right, true, Literal::Known(true))
    }

    /// Appends minus a word.
    #[tactic(auto, using(crate::proofs::AddSteps::operands))]
    pub fn minus(&mut self, alloc: Global, right: &[Literal]) -> Result<(), MakeErr>
        ensures ok { OnOk result (word self.new.maker.nodes self.new.bits ≡ minus_made self.old.maker.nodes self.old.bits right.now) }
        ensures err { IfErr result (λ e. UnlessNoMemory e (self.old.maker.limit < counted (minus_made self.old.maker.nodes self.old.bits right.now).nodes)) }
        ensures limit { self.new.maker.limit ≡ self.old.maker.limit }
    {
        let left = zeros(alloc, right.len())?;
        self.subtract(left.as_slice(), right)
    }
}
