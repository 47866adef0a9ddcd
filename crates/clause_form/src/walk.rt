//! The clauses of definitions and of the bits that are checked, cycle by cycle.

ghost use Rattle.std.specs.Prelude.{[], ◌∷◌, ◌≡◌, ◌+◌, ◌<◌, ◌≤◌, ◌^◌, IfErr, OnOk, get_or, length, slice_range, true, ℕ};
ghost use Rattle.loc_base.specs.Bits.{bit_of};
ghost use Rattle.clause_base.specs.Literal.{has_distinct_variables};
ghost use Rattle.gate_base.specs.declared.node.Node.TheVariants.{And};
ghost use Rattle.gate_base.specs.Literals.{IsBelow};
ghost use Rattle.gate_base.specs.Nodes.{AreOrderedFrom, NodeFits};
ghost use Rattle.clause_form.specs.Clauses.{and_clauses, bit_clauses, cycle_clauses, cycles_clauses, free_clauses, node_clauses, nodes_clauses, word_clauses, words_clauses};
ghost use Rattle.clause_form.specs.Limits.{IsRefused};
ghost use Rattle.clause_form.specs.Variables.{AreBelow, AreSelectors, HaveVariables};

use crate::error::FormErr;
use crate::selectors::row_of;
use crate::sink::{Sink, literal_of};
use clause_base::Lit;
use design_core::Checked;
use gate_base::{Literal, Node};
use loc_base::{Bits, Items, Rows};
use plain_values::row;
use unroller::Unrolled;

/// Whether a word has 1 at a position.
fn is_one(word: Bits, position: usize) -> bool
    ensures { result ≡ bit_of word position }
{
    word.shift_right(position as u128).value() % 2 == 1
}

/// The number of the first definition of a cycle, where the definitions of each cycle end being given.
fn start_of(ends: &[u32], t: usize) -> u32
    requires { t < length ends.now }
    ensures { result ≡ get_or (0 ∷ ends.now) t 0 }
{
    if t == 0 { 0 } else { ends[t - 1] }
}

/// The definitions from one number to another.
fn part(nodes: &[Node], from: u32, end: u32) -> &[Node]
    requires order { from ≤ end }
    requires within { end ≤ length nodes.now }
    ensures { result.now ≡ slice_range nodes.now from end }
{
    &nodes[from as usize..end as usize]
}

impl Sink {
    ghost use Rattle.clause_form.specs.Fields.{after, sunk_of};

    /// The clauses of an AND, one after another.
    #[inline(never)]
    fn three(&mut self, number: u32, left: Literal, right: Literal) -> Result<(), FormErr>
        requires fits { NodeFits number (And left right) }
        requires variable { self.old.base + number < 2 ^ 32 }
        ensures ok { OnOk result (sunk_of self.new ≡ after (sunk_of self.old) (and_clauses self.old.base number left right)) }
        ensures err { IfErr result (λ e. IsRefused e (64000000 < (after (sunk_of self.old) (and_clauses self.old.base number left right)).count)) }
    {
        let not_here = Literal::Of {
            node: number,
            negated: true,
        };
        let here = Literal::Of {
            node: number,
            negated: false,
        };
        self.push(&[not_here, left], &[])?;
        self.push(&[not_here, right], &[])?;
        self.push(&[here, left.opposite(), right.opposite()], &[])
    }

    /// The clauses of an AND.
    #[inline(always)]
    #[tactic(auto, using(crate::proofs::GateSteps::ands))]
    fn and(&mut self, number: u32, left: Literal, right: Literal) -> Result<(), FormErr>
        requires fits { NodeFits number (And left right) }
        requires variable { self.old.base + number < 2 ^ 32 }
        ensures ok { OnOk result (sunk_of self.new ≡ after (sunk_of self.old) (and_clauses self.old.base number left right)) }
        ensures err { IfErr result (λ e. IsRefused e (64000000 < (after (sunk_of self.old) (and_clauses self.old.base number left right)).count)) }
    {
        let here = Lit {
            var: self.base + number,
            negated: false,
        };
        match (literal_of(self.base, left), literal_of(self.base, right)) {
            (Some(x), Some(y)) => self.gate(here, x, y),
            _ => self.three(number, left, right),
        }
    }

    /// Those of a bit of a place.
    #[inline(never)]
    fn free(&mut self, selectors: &[Lit], number: u32, computed: Literal) -> Result<(), FormErr>
        requires below { AreBelow self.old.base selectors.now }
        requires distinct { has_distinct_variables selectors.now ≡ true }
        requires fits { IsBelow number computed }
        requires variable { self.old.base + number < 2 ^ 32 }
        ensures ok { OnOk result (sunk_of self.new ≡ after (sunk_of self.old) (free_clauses self.old.base selectors.now number computed)) }
        ensures err { IfErr result (λ e. IsRefused e (64000000 < (after (sunk_of self.old) (free_clauses self.old.base selectors.now number computed)).count)) }
    {
        let not_here = Literal::Of {
            node: number,
            negated: true,
        };
        let here = Literal::Of {
            node: number,
            negated: false,
        };
        self.push(&[not_here, computed], selectors)?;
        self.push(&[here, computed.opposite()], selectors)
    }

    /// The clauses of a definition.
    #[inline(always)]
    #[tactic(auto, unfolding(crate::specs::Clauses::node_clauses), using(crate::proofs::NodeSteps::nodes))]
    fn node(&mut self, selectors: &[Items<Lit>], number: u32, node: Node) -> Result<(), FormErr>
        requires selectors { AreSelectors self.old.base selectors.now }
        requires fits { NodeFits number node }
        requires variable { self.old.base + number < 2 ^ 32 }
        ensures ok { OnOk result (sunk_of self.new ≡ after (sunk_of self.old) (node_clauses self.old.base (λ place. get_or selectors.now place []) number node)) }
        ensures err { IfErr result (λ e. IsRefused e (64000000 < (after (sunk_of self.old) (node_clauses self.old.base (λ place. get_or selectors.now place []) number node)).count)) }
    {
        match node {
            Node::And { left, right } => self.and(number, left, right),
            Node::Free {
                moment: _,
                place,
                bit: _,
                computed,
            } => self.free(row_of(selectors, place), number, computed),
            Node::Input { input: _, bit: _ } => Ok(()),
            Node::State { state: _, bit: _ } => Ok(()),
        }
    }

    /// Those of definitions one after another, of which the first has a number.
    fn nodes(&mut self, selectors: &[Items<Lit>], first: u32, nodes: &[Node]) -> Result<(), FormErr>
        requires selectors { AreSelectors self.old.base selectors.now }
        requires fits { AreOrderedFrom first nodes.now }
        requires variables { self.old.base + first + length nodes.now ≤ 2 ^ 32 }
        ensures ok { OnOk result (sunk_of self.new ≡ after (sunk_of self.old) (nodes_clauses self.old.base (λ place. get_or selectors.now place []) first nodes.now)) }
        ensures err { IfErr result (λ e. IsRefused e (64000000 < (after (sunk_of self.old) (nodes_clauses self.old.base (λ place. get_or selectors.now place []) first nodes.now)).count)) }
    {
        for i in 0..nodes.len() {
            self.node(selectors, first + i as u32, nodes[i])?;
        }
        Ok(())
    }

    /// The clause of a bit, where it is checked.
    #[tactic(auto, unfolding(crate::specs::Clauses::bit_clauses), using(crate::proofs::NodeSteps::bits))]
    fn bit(&mut self, checked: Checked, bit: usize, literal: Literal) -> Result<(), FormErr>
        requires { HaveVariables self.old.base (literal ∷ []) }
        ensures ok { OnOk result (sunk_of self.new ≡ after (sunk_of self.old) (bit_clauses self.old.base checked bit literal)) }
        ensures err { IfErr result (λ e. IsRefused e (64000000 < (after (sunk_of self.old) (bit_clauses self.old.base checked bit literal)).count)) }
    {
        if is_one(checked.mask, bit) {
            if is_one(checked.value, bit) {
                self.push(&[literal], &[])
            } else {
                self.push(&[literal.opposite()], &[])
            }
        } else {
            Ok(())
        }
    }

    /// Those of the bits of an output.
    fn word(&mut self, checked: Checked, word: &[Literal]) -> Result<(), FormErr>
        requires { HaveVariables self.old.base word.now }
        ensures ok { OnOk result (sunk_of self.new ≡ after (sunk_of self.old) (word_clauses self.old.base checked 0 word.now)) }
        ensures err { IfErr result (λ e. IsRefused e (64000000 < (after (sunk_of self.old) (word_clauses self.old.base checked 0 word.now)).count)) }
    {
        for bit in 0..word.len() {
            self.bit(checked, bit, word[bit])?;
        }
        Ok(())
    }

    /// Those of the outputs of a cycle, the words of which stand from a number on.
    fn words(
        &mut self,
        expected: &[Checked],
        words: &Rows<Literal>,
        first: usize,
    ) -> Result<(), FormErr>
        requires there { first + length expected.now ≤ length words.now }
        requires room { first + length expected.now < 2 ^ 64 }
        requires variables { (i : ℕ) → HaveVariables self.old.base (get_or words.now i []) }
        ensures ok { OnOk result (sunk_of self.new ≡ after (sunk_of self.old) (words_clauses self.old.base expected.now (slice_range words.now first (first + length expected.now)))) }
        ensures err { IfErr result (λ e. IsRefused e (64000000 < (after (sunk_of self.old) (words_clauses self.old.base expected.now (slice_range words.now first (first + length expected.now)))).count)) }
    {
        for output in 0..expected.len() {
            self.word(expected[output], words.row(first + output))?;
        }
        Ok(())
    }

    /// Those of a cycle.
    fn cycle(&mut self, u: &Unrolled, selectors: &[Items<Lit>], t: usize) -> Result<(), FormErr>
        requires base { self.old.base ≡ u.now.base }
        requires selectors { AreSelectors self.old.base selectors.now }
        requires cycle { t < length u.now.ends }
        ensures ok { OnOk result (sunk_of self.new ≡ after (sunk_of self.old) (cycle_clauses u.now (λ place. get_or selectors.now place []) t (get_or (0 ∷ u.now.ends) t 0) (get_or u.now.ends t 0))) }
        ensures err { IfErr result (λ e. IsRefused e (64000000 < (after (sunk_of self.old) (cycle_clauses u.now (λ place. get_or selectors.now place []) t (get_or (0 ∷ u.now.ends) t 0) (get_or u.now.ends t 0))).count)) }
    {
        let from = start_of(u.ends(), t);
        let end = u.ends()[t];
        let definitions = part(u.definitions(), from, end);
        self.nodes(selectors, from, definitions)?;
        let expected = row(u.expected(), u.each(), t);
        self.words(expected, u.outputs(), t * u.each())
    }

    /// Those of all cycles.
    pub(crate) fn cycles(&mut self, u: &Unrolled, selectors: &[Items<Lit>]) -> Result<(), FormErr>
        requires base { self.old.base ≡ u.now.base }
        requires selectors { AreSelectors self.old.base selectors.now }
        ensures ok { OnOk result (sunk_of self.new ≡ after (sunk_of self.old) (cycles_clauses u.now (λ place. get_or selectors.now place []) 0 0 u.now.ends)) }
        ensures err { IfErr result (λ e. IsRefused e (64000000 < (after (sunk_of self.old) (cycles_clauses u.now (λ place. get_or selectors.now place []) 0 0 u.now.ends)).count)) }
    {
        for t in 0..u.ends().len() {
            self.cycle(u, selectors, t)?;
        }
        Ok(())
    }
}
