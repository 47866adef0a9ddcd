ghost use Rattle.std.specs.Prelude.{◌≡◌, ◌<◌, ◌↔◌, IsTrue, length, map, [], ◌∷◌, ◌++◌, slice_index_or, OnOk, OnErr};

use crate::clause::Clause;
use crate::literal::Lit;
use loc_base::{Items, NoMemory, Rows};
use std::alloc::Global;
use std::marker::Model;

/// Why a step stands in a log.
#[derive(Clone, Copy, Debug, PartialEq, Eq)]
pub enum StepKind {
    /// The clause is the next of the listed blocks.
    Block,
    /// The clause was learned from a conflict, and its chain gives it.
    Learned,
    /// The clause was derived from the assumptions' negations, and its chain gives it.
    Derived,
}

/// One step of a log. The chain has the numbers of earlier clauses, counted from 1 over the form and then the log.
#[derive(Drop)]
pub struct Step {
    pub kind: StepKind,
    pub clause: Clause,
    pub chain: Items<u32>,
}

/// A list of steps, in a few pieces of memory. Contracts see it as the list of the steps.
#[derive(Debug, Drop)]
pub struct Log {
    kinds: Vec<StepKind>,
    clauses: Rows<Lit>,
    chains: Rows<u32>,
}

impl Model for Log {
    ghost use Rattle.std.specs.Prelude.{List};
    ghost use Rattle.clause_base.specs.declared.log.Step.{Step};
    ghost use Rattle.clause_base.specs.Steps.{steps_of, AreAligned};

    ghost Value = { List Step };

    ghost view = { λ l. steps_of l.kinds.items l.clauses l.chains };

    ghost invariant = { λ l. AreAligned l.kinds.items l.clauses l.chains };
}

#[tactic(auto, using(crate::proofs::Aligned::aligned))]
impl Log {
    ghost use Rattle.clause_base.specs.Literal.{has_distinct_variables, AllDistinct};
    ghost use Rattle.clause_base.specs.Steps.{step_at, no_step};

    /// No steps. It takes no memory.
    pub fn new(alloc: Global) -> Log
        ensures { result ≡ [] }
    {
        Log {
            kinds: Vec::new(alloc),
            clauses: Rows::new(alloc),
            chains: Rows::new(alloc),
        }
    }

    /// The number of steps.
    pub fn len(&self) -> usize
        ensures value { result ≡ length self.now }
        ensures distinct { AllDistinct (map (λ step. step.clause) self.now) }
    {
        self.kinds.len()
    }

    /// Whether there is no step.
    pub fn is_empty(&self) -> bool
        ensures { IsTrue result ↔ (self.now ≡ []) }
    {
        self.len() == 0
    }

    /// The kind of the step at that place, counted from 0.
    pub fn kind(&self, place: usize) -> StepKind
        requires { place < length self.now }
        ensures { result ≡ (step_at self.now place).kind }
    {
        self.kinds[place]
    }

    /// The literals of the clause of the step at that place, counted from 0.
    pub fn clause(&self, place: usize) -> &[Lit]
        requires { place < length self.now }
        ensures value { result.now ≡ (step_at self.now place).clause }
        ensures distinct { IsTrue (has_distinct_variables result.now) }
    {
        self.clauses.row(place)
    }

    /// The chain of the step at that place, counted from 0.
    pub fn chain(&self, place: usize) -> &[u32]
        requires { place < length self.now }
        ensures { result.now ≡ (step_at self.now place).chain }
    {
        self.chains.row(place)
    }

    /// Appends a step of that kind with the clause of these literals and that chain. Unchanged after `NoMemory`.
    pub fn push(&mut self, kind: StepKind, literals: &[Lit], chain: &[u32]) -> Result<(), NoMemory>
        requires { IsTrue (has_distinct_variables literals.now) }
        ensures ok { OnOk result (self.new ≡ self.old ++ record { kind = kind; clause = literals.now; chain = chain.now } ∷ []) }
        ensures err { OnErr result (self.new ≡ self.old) }
    {
        self.kinds.reserve(1)?;
        push_both(&mut self.clauses, literals, &mut self.chains, chain)?;
        self.kinds.push(kind).unwrap();
        Ok(())
    }
}

/// Appends a row to each of two lists, or to neither of them.
fn push_both<T: Copy, U: Copy>(
    left: &mut Rows<T>,
    left_row: &[T],
    right: &mut Rows<U>,
    right_row: &[U],
) -> Result<(), NoMemory>
    ensures left { OnOk result (left.new ≡ left.old ++ left_row.now ∷ []) }
    ensures right { OnOk result (right.new ≡ right.old ++ right_row.now ∷ []) }
    ensures left_stays { OnErr result (left.new ≡ left.old) }
    ensures right_stays { OnErr result (right.new ≡ right.old) }
{
    left.push(left_row)?;
    let pushed = right.push(right_row);
    if pushed.is_err() {
        left.pop();
    }
    pushed
}
