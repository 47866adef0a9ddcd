//! Operators over the AND of the arena, each the definition of its name in `specs/Nodes`.

ghost use Rattle.std.specs.Prelude.{◌≡◌, ◌<◌, IfErr, IfOk, false, true};
ghost use Rattle.gate_base.specs.declared.literal.Literal.TheVariants.{Known};
ghost use Rattle.gate_base.specs.Nodes.{and_all_made, counted, made, mux_made, or_all_made, or_made, xor_all_made, xor_made};
ghost use Rattle.gate_base.specs.Arena.{UnlessNoMemory};

use crate::arena::Maker;
use crate::error::MakeErr;
use crate::literal::Literal;

impl Maker {
    /// OR: one of the two, or both.
    #[tactic(auto, unfolding(crate::specs::Nodes::or_made))]
    pub fn or(&mut self, left: Literal, right: Literal) -> Result<Literal, MakeErr>
        ensures ok { IfOk result (λ l. made self.new.nodes l ≡ or_made self.old.nodes left right) }
        ensures err { IfErr result (λ e. UnlessNoMemory e (self.old.limit < counted (or_made self.old.nodes left right).nodes)) }
        ensures limit { self.new.limit ≡ self.old.limit }
    {
        let neither = self.and(left.opposite(), right.opposite())?;
        Ok(neither.opposite())
    }

    /// XOR: one of the two and not the other.
    #[tactic(auto, using(crate::proofs::Counts::operators), unfolding(crate::specs::Nodes::xor_made))]
    pub fn xor(&mut self, left: Literal, right: Literal) -> Result<Literal, MakeErr>
        ensures ok { IfOk result (λ l. made self.new.nodes l ≡ xor_made self.old.nodes left right) }
        ensures err { IfErr result (λ e. UnlessNoMemory e (self.old.limit < counted (xor_made self.old.nodes left right).nodes)) }
        ensures limit { self.new.limit ≡ self.old.limit }
    {
        let left_alone = self.and(left, right.opposite())?;
        let right_alone = self.and(left.opposite(), right)?;
        self.or(left_alone, right_alone)
    }

    /// MUX: `yes` where the condition holds, else `no`.
    #[tactic(auto, using(crate::proofs::Counts::operators), unfolding(crate::specs::Nodes::mux_made))]
    pub fn mux(&mut self, condition: Literal, yes: Literal, no: Literal) -> Result<Literal, MakeErr>
        ensures ok { IfOk result (λ l. made self.new.nodes l ≡ mux_made self.old.nodes condition yes no) }
        ensures err { IfErr result (λ e. UnlessNoMemory e (self.old.limit < counted (mux_made self.old.nodes condition yes no).nodes)) }
        ensures limit { self.new.limit ≡ self.old.limit }
    {
        if yes.is_same(no) {
            return Ok(yes);
        }
        let chosen = self.and(condition, yes)?;
        let other = self.and(condition.opposite(), no)?;
        self.or(chosen, other)
    }

    /// The AND of all, as a chain from the first on.
    #[tactic(auto, using(crate::proofs::Chains::and_chain))]
    pub fn and_all(&mut self, literals: &[Literal]) -> Result<Literal, MakeErr>
        ensures ok { IfOk result (λ l. made self.new.nodes l ≡ and_all_made self.old.nodes (Known true) literals.now) }
        ensures err { IfErr result (λ e. UnlessNoMemory e (self.old.limit < counted (and_all_made self.old.nodes (Known true) literals.now).nodes)) }
        ensures limit { self.new.limit ≡ self.old.limit }
    {
        let mut so_far = Literal::Known(true);
        for literal in literals {
            so_far = self.and(so_far, *literal)?;
        }
        Ok(so_far)
    }

    /// The OR of all, as a chain from the first on.
    #[tactic(auto, using(crate::proofs::Chains::or_chain))]
    pub fn or_all(&mut self, literals: &[Literal]) -> Result<Literal, MakeErr>
        ensures ok { IfOk result (λ l. made self.new.nodes l ≡ or_all_made self.old.nodes (Known false) literals.now) }
        ensures err { IfErr result (λ e. UnlessNoMemory e (self.old.limit < counted (or_all_made self.old.nodes (Known false) literals.now).nodes)) }
        ensures limit { self.new.limit ≡ self.old.limit }
    {
        let mut so_far = Literal::Known(false);
        for literal in literals {
            so_far = self.or(so_far, *literal)?;
        }
        Ok(so_far)
    }

    /// The XOR of all, as a chain from the first on.
    #[tactic(auto, using(crate::proofs::Chains::xor_chain))]
    pub fn xor_all(&mut self, literals: &[Literal]) -> Result<Literal, MakeErr>
        ensures ok { IfOk result (λ l. made self.new.nodes l ≡ xor_all_made self.old.nodes (Known false) literals.now) }
        ensures err { IfErr result (λ e. UnlessNoMemory e (self.old.limit < counted (xor_all_made self.old.nodes (Known false) literals.now).nodes)) }
        ensures limit { self.new.limit ≡ self.old.limit }
    {
        let mut so_far = Literal::Known(false);
        for literal in literals {
            so_far = self.xor(so_far, *literal)?;
        }
        Ok(so_far)
    }
}
