ghost use Rattle.std.specs.Prelude.{◌≡◌, ◌+◌, ◌^◌, ◌<◌, ◌≤◌, false, length, IsTrue, IfOk, OnOk, OnErr, All, [], ◌∷◌, Ok};
ghost use Rattle.std.specs.List.{AllZip};
ghost use Rattle.clause_base.specs.Literal.{IsWithin, AreWithin, has_distinct_variables};
ghost use Rattle.trail_core.specs.TrailState.{IsTrail};
ghost use Rattle.sat_core.specs.Outcome.{told_by};

use crate::analysis::Analysis;
use crate::budget::Budget;
use crate::engine::Engine;
use crate::explain::explain;
use crate::ranking::Ranking;
use crate::restarts::Restarts;
use crate::tracing::explain_all;
use crate::verdict::Verdict;
use clause_base::{Clause, Form, Lit, Log, Step, StepKind};
use loc_base::{Items, NoMemory};
use std::alloc::Global;
use std::marker::Model;
use trail_core::Trail;

/// A clause solver under assumptions, which writes each step into a log.
///
/// Contracts see it as its variables, its form, the variables that it prefers true, its log, its last model, and what it was
/// found under.
#[derive(Drop)]
pub struct Solver {
    engine: Engine,
    log: Log,
    /// The assumptions of the last answer, where it was a model. They hold for its trail while the engine knows all steps.
    told: Option<Items<Lit>>,
}

impl Model for Solver {
    ghost use Rattle.sat_core.specs.SolverState.{SolverState};
    ghost use Rattle.sat_core.specs.Searching.{seen_of, IsReady, StandsTold};

    ghost Value = { SolverState };

    ghost view = { λ s. seen_of s.engine s.log s.told };

    ghost invariant = { λ s. IsReady s.engine s.log × StandsTold s.engine s.told };
}

impl Solver {
    ghost use Rattle.clause_base.specs.Steps.{step_at};
    ghost use Rattle.clause_base.specs.Acceptance.{is_block, IsAcceptedStep};
    ghost use Rattle.sat_core.specs.SolverState.{IsSolver, blocks_of};
    ghost use Rattle.sat_core.specs.Outcome.{Searches, LearnedBeforeLast, Says, closings};
    ghost use Rattle.sat_core.specs.Calls.{Begins, MayFollow, TookOver, untold, with_block, with_steps};
    ghost use Rattle.sat_core.specs.Explaining.{MayExplain, Explains};

    /// A solver of a form, with an empty log. Of the preferred variables, which are to be true where they can be, the
    /// first counts most.
    pub fn new(alloc: Global, form: &Form, preferred: &[u32]) -> Result<Solver, NoMemory>
        requires within { AreWithin form.now.vars form.now.clauses }
        requires clauses_fit { length form.now.clauses < 2 ^ 32 }
        requires preferred { All (λ v. (1 ≤ v) × (v ≤ form.now.vars)) preferred.now }
        requires few { length preferred.now < 2 ^ 32 }
        ensures begins { IfOk result (Begins form.now.vars form.now.clauses preferred.now) }
        ensures solver { IfOk result IsSolver }
    {
        let engine = Engine {
            trail: trail_of(alloc, form)?,
            analysis: Analysis::new(alloc, form.vars)?,
            preferred: preferred.to_vec(alloc)?,
            chosen: Vec::new(alloc),
            form_len: form.clauses.len(),
            known: 0,
            model: vec![in alloc; false; form.vars as usize]?,
            ranking: Ranking::new(alloc, form.vars)?,
            restarts: Restarts::new(),
        };
        Ok(Solver {
            engine,
            log: Log::new(alloc),
            told: None,
        })
    }

    /// Appends a `Block` step. Unchanged after `NoMemory`.
    pub fn add_block(&mut self, block: &Clause) -> Result<(), NoMemory>
        requires within { IsWithin self.old.vars block.now }
        ensures ok { OnOk result (self.new ≡ with_block self.old block.now) }
        ensures err { OnErr result (self.new ≡ self.old) }
        ensures solver { IsSolver self.new }
    {
        self.log.push(StepKind::Block, block.literals(), &[])
    }

    /// Appends the steps of a log. After `NoMemory` it has the first of them, some or none.
    pub fn import(&mut self, log: &Log) -> Result<(), NoMemory>
        requires may { MayFollow self.old log.now }
        ensures ok { OnOk result (self.new ≡ with_steps self.old log.now) }
        ensures err { OnErr result (TookOver self.old self.new log.now) }
        ensures solver { IsSolver self.new }
    {
        // What holds of the solver holds before the first step too.
        let _engine = &self.engine;
        for place in 0..log.len() {
            self.take_over(log, place)?;
        }
        Ok(())
    }

    /// Appends the step at a place of a log. Unchanged after `NoMemory`.
    pub fn take_over(&mut self, log: &Log, place: usize) -> Result<(), NoMemory>
        requires place { place < length log.now }
        requires accepted { is_block (step_at log.now place) ≡ false → IsAcceptedStep self.old.form (blocks_of self.old.log) self.old.log (step_at log.now place) }
        requires within { IsWithin self.old.vars (step_at log.now place).clause }
        ensures ok { OnOk result (self.new ≡ with_steps self.old (step_at log.now place ∷ [])) }
        ensures err { OnErr result (self.new ≡ self.old) }
        ensures solver { IsSolver self.new }
    {
        self.log
            .push(log.kind(place), log.clause(place), log.chain(place))
    }

    /// Lets a search begin near the values that follow from literals: each variable is first given the value that it has there. What is
    /// said of a model is the same; which of several comes may differ.
    pub fn settle(&mut self, literals: &[Lit])
        requires within { IsWithin self.old.vars literals.now }
        ensures same { self.new ≡ untold self.old }
        ensures solver { IsSolver self.new }
    {
        self.told = None;
        self.engine.settle(literals, &self.log);
    }

    /// Searches for the model of form, log and assumptions that makes the preferred variables true as far as they can
    /// be, or for a clause of negated assumptions, while units are left. After `NoMemory` the log has grown by accepted
    /// steps only, and it may be called again. The clauses of the form, the steps of the log and the units together
    /// are to be numbers of 32 bits.
    pub fn solve(&mut self, assume: &[Lit], budget: &mut Budget) -> Result<Verdict, NoMemory>
        requires within { IsWithin self.old.vars assume.now }
        requires distinct { IsTrue (has_distinct_variables assume.now) }
        requires clauses_fit { length self.old.form + length self.old.log + budget.old + 1 < 2 ^ 32 }
        ensures searches { Searches self.old self.new budget.old budget.new (closings result) }
        ensures solver { IsSolver self.new }
        ensures says { IfOk result (Says self.new assume.now budget.new) }
        ensures learned { LearnedBeforeLast self.old.log self.new.log }
        ensures told { self.new.told ≡ told_by assume.now result }
    {
        let alloc = *self.engine.preferred.allocator();
        self.told = None;
        let told = Items::copy_of(alloc, assume)?;
        let verdict = self.engine.search(assume, &mut self.log, budget)?;
        self.told = if_model(verdict, told);
        Ok(verdict)
    }

    /// Why a preferred variable is false in the last model: a step that derives its negation from assumptions and from true
    /// variables that are preferred before it. It isn't appended.
    pub fn explain(&self, var: u32) -> Result<Step, NoMemory>
        requires may { MayExplain self.now var }
        ensures explains { IfOk result (Explains self.now var) }
    {
        let alloc = *self.engine.preferred.allocator();
        let denied = Lit { var, negated: true };
        explain(alloc, &self.engine.trail, denied)
    }

    /// Why each of these preferred variables is false in the last model: a step for each, as `explain` gives one. The trail is gone over once
    /// for all of them.
    pub fn explain_all(&self, vars: &[u32]) -> Result<Log, NoMemory>
        requires may { All (MayExplain self.now) vars.now }
        ensures explains { IfOk result (AllZip (Explains self.now) vars.now) }
    {
        let alloc = *self.engine.preferred.allocator();
        explain_all(alloc, &self.engine.trail, vars)
    }

    /// The values of the variables from 1 on: all are false in a new solver, and after `Model` they are the model's. No
    /// clause says what they are after another answer.
    pub fn model(&self) -> &[bool]
        ensures value { result.now ≡ self.now.model }
        ensures size { length self.now.model ≡ self.now.vars }
    {
        self.engine.model.as_slice()
    }

    /// The steps so far.
    pub fn log(&self) -> &Log
        ensures value { result.now ≡ self.now.log }
        ensures solver { IsSolver self.now }
    {
        &self.log
    }
}

/// What is told after a verdict: the assumptions, where it is a model.
fn if_model(verdict: Verdict, assume: Items<Lit>) -> Option<Items<Lit>>
    ensures { result ≡ told_by assume (Ok verdict) }
{
    match verdict {
        Verdict::Model => Some(assume),
        Verdict::Closed { step: _ } | Verdict::Spent => None,
    }
}

/// A trail with the clauses of a form.
fn trail_of(alloc: Global, form: &Form) -> Result<Trail, NoMemory>
    requires within { AreWithin form.now.vars form.now.clauses }
    requires clauses_fit { length form.now.clauses < 2 ^ 32 }
    ensures state { IfOk result (λ t. t ≡ record { vars = form.now.vars; clauses = form.now.clauses; entries = []; level = 0 }) }
    ensures trail { IfOk result IsTrail }
{
    let mut trail = Trail::new(alloc, form.vars)?;
    for place in 0..form.clauses.len() {
        trail.add_clause(form.clauses.clause(place))?;
    }
    Ok(trail)
}
