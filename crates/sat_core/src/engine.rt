ghost use Rattle.std.specs.Prelude.{◌≡◌, length};
ghost use Rattle.clause_base.specs.Literal.{IsWithin};
ghost use Rattle.trail_core.specs.Values.{IsVariable};
ghost use Rattle.trail_core.specs.TrailState.{AllRest, IsTrail, values_of};
ghost use Rattle.sat_core.specs.Searching.{IsModelOf};

use crate::analysis::Analysis;
use crate::budget::Budget;
use crate::order::{Choice, choose};
use crate::ranking::Ranking;
use crate::restarts::Restarts;
use crate::verdict::Verdict;
use clause_base::{Lit, Log, StepKind};
use loc_base::NoMemory;
use trail_core::Trail;

/// The state of a search.
#[derive(Drop)]
pub(crate) struct Engine {
    pub(crate) trail: Trail,
    pub(crate) analysis: Analysis,
    /// The variables that are decided first, each true.
    pub(crate) preferred: Vec<u32>,
    /// For each decision level, from 1, where its decision stands in the order of decisions.
    pub(crate) chosen: Vec<usize>,
    /// The number of the form's clauses, which are the trail's first.
    pub(crate) form_len: usize,
    /// The number of steps of the log whose clauses the trail has, after the form's.
    pub(crate) known: usize,
    /// The values of the variables in the last model, at the variable less 1.
    pub(crate) model: Vec<bool>,
    /// The order in which the variables that aren't preferred are decided.
    pub(crate) ranking: Ranking,
    pub(crate) restarts: Restarts,
}

impl Engine {
    ghost use Rattle.std.specs.Prelude.{◌≡◌, ◌+◌, ◌^◌, ◌<◌, ◌≤◌, length, IsTrue, IsSome, IfOk, OnOk, OnErr, All, map, ◌++◌, ◌∷◌, []};
    ghost use Rattle.clause_base.specs.Literal.{IsWithin, AreWithin, has_distinct_variables, opposite};
    ghost use Rattle.clause_base.specs.Acceptance.{numbered};
    ghost use Rattle.trail_core.specs.Values.{IsVariable, IsUnassignedIn, IsFalseIn, IsFalsified};
    ghost use Rattle.trail_core.specs.TrailState.{AllRest, IsNumber, values_of, reason_in, with_decision};
    ghost use Rattle.sat_core.specs.Outcome.{Grows, Says, closings};
    ghost use Rattle.sat_core.specs.Choices.{AreChosen, ChoiceGives, PassedTo, end_of};
    ghost use Rattle.sat_core.specs.Engines.{IsFit, Learned, KeptLog, KeepsPace};
    ghost use Rattle.sat_core.specs.Searching.{form_of, state_of, IsReady, IsUnderWay, IsAtStart, Keeps, DerivesStep, ExtendGives, StepGives, StandsBy, StandsAfter, closings_at};

    /// Searches for a model under assumptions, or for a clause of negated assumptions, while units are left.
    pub(crate) fn search(
        &mut self,
        assume: &[Lit],
        log: &mut Log,
        budget: &mut Budget,
    ) -> Result<Verdict, NoMemory>
        requires ready { IsReady self.old log.old }
        requires assume { IsWithin self.old.trail.vars assume.now }
        requires distinct { IsTrue (has_distinct_variables assume.now) }
        requires small { length assume.now ≤ 2 ^ 32 }
        requires clauses_fit { self.old.form_len + length log.old + budget.old + 1 < 2 ^ 32 }
        ensures ready { IsReady self.new log.new }
        ensures keeps { Keeps self.old self.new }
        ensures grows { Grows (form_of self.old) log.old log.new budget.old budget.new (closings result) }
        ensures says { IfOk result (Says (state_of self.new log.new) assume.now budget.new) }
        ensures stands { IfOk result (StandsBy self.new log.new assume.now) }
    {
        if budget.left() == 0 {
            return Ok(Verdict::Spent);
        }
        self.start(log)?;
        loop {
            if let Some(verdict) = self.advance(assume, log, budget)? {
                return Ok(verdict);
            }
        }
    }

    /// Goes back to level 0, and gives the trail the clauses of the log that it lacks.
    fn start(&mut self, log: &Log) -> Result<(), NoMemory>
        requires ready { IsReady self.old log.now }
        requires clauses_fit { self.old.form_len + length log.now < 2 ^ 32 }
        ensures ready { IsReady self.new log.now }
        ensures keeps { Keeps self.old self.new }
        ensures ok { OnOk result (IsAtStart self.new log.now) }
    {
        self.chosen.truncate(0);
        self.ranking.release(&self.trail, 0);
        self.trail.back_to(0);
        self.catch_up(log)
    }

    /// Lets the last values of variables be those that follow from literals: decides one after another where it has no value, until a
    /// clause is false, and goes back to level 0.
    pub(crate) fn settle(&mut self, literals: &[Lit], log: &Log)
        requires ready { IsReady self.old log.now }
        requires within { IsWithin self.old.trail.vars literals.now }
        ensures ready { IsReady self.new log.now }
        ensures same { state_of self.new log.now ≡ state_of self.old log.now }
        ensures known { self.new.known ≡ self.old.known }
    {
        self.ranking.release(&self.trail, 0);
        self.trail.back_to(0);
        suppose(&mut self.trail, literals);
        self.ranking.release(&self.trail, 0);
        self.trail.back_to(0);
    }

    /// Adds the clauses of the log that the trail lacks, at level 0. After `NoMemory` some of them were added.
    fn catch_up(&mut self, log: &Log) -> Result<(), NoMemory>
        requires fit { IsFit self.old }
        requires level { self.old.trail.level ≡ 0 }
        requires known { self.old.known ≤ length log.now }
        requires within { AreWithin self.old.trail.vars (map (λ step. step.clause) log.now) }
        requires clauses_fit { length self.old.trail.clauses + length log.now < self.old.known + 2 ^ 32 }
        ensures fit { IsFit self.new }
        ensures level { self.new.trail.level ≡ 0 }
        ensures pace { KeepsPace self.old self.new log.now }
        ensures ok { OnOk result (self.new.known ≡ length log.now) }
        ensures known { self.new.known ≤ length log.now }
        ensures entries { self.new.trail.entries ≡ self.old.trail.entries }
        ensures vars { self.new.trail.vars ≡ self.old.trail.vars }
        ensures chosen { self.new.chosen ≡ self.old.chosen }
        ensures preferred { self.new.preferred ≡ self.old.preferred }
        ensures form_len { self.new.form_len ≡ self.old.form_len }
        ensures model { self.new.model ≡ self.old.model }
    {
        while self.known < log.len() {
            self.trail.add_clause(log.clause(self.known))?;
            self.known += 1;
        }
        Ok(())
    }

    /// One step of the search: propagates, and then learns, decides, or answers.
    fn advance(
        &mut self,
        assume: &[Lit],
        log: &mut Log,
        budget: &mut Budget,
    ) -> Result<Option<Verdict>, NoMemory>
        requires under_way { IsUnderWay self.old log.old assume.now }
        requires assume { IsWithin self.old.trail.vars assume.now }
        requires distinct { IsTrue (has_distinct_variables assume.now) }
        requires small { length assume.now ≤ 2 ^ 32 }
        requires clauses_fit { self.old.form_len + length log.old + budget.old + 1 < 2 ^ 32 }
        requires some { 0 < budget.old }
        ensures ready { IsReady self.new log.new }
        ensures keeps { Keeps self.old self.new }
        ensures grows { Grows (form_of self.old) log.old log.new budget.old budget.new (closings_at result) }
        ensures gives { IfOk result (StepGives self.old self.new log.new assume.now budget.old budget.new) }
        ensures stands { IfOk result (StandsAfter self.new log.new assume.now) }
    {
        match self.trail.propagate() {
            Some(conflict) => self.meet(assume, log, budget, conflict),
            None => self.extend(assume, log),
        }
    }

    /// Meets a conflict: learns from it, or derives the empty clause where nothing is decided.
    fn meet(
        &mut self,
        assume: &[Lit],
        log: &mut Log,
        budget: &mut Budget,
        conflict: u32,
    ) -> Result<Option<Verdict>, NoMemory>
        requires under_way { IsUnderWay self.old log.old assume.now }
        requires clauses_fit { self.old.form_len + length log.old + budget.old + 1 < 2 ^ 32 }
        requires some { 0 < budget.old }
        requires number { IsNumber self.old.trail.clauses conflict }
        requires conflict { IsFalsified (values_of self.old.trail.entries) (numbered self.old.trail.clauses conflict) }
        ensures ready { IsReady self.new log.new }
        ensures keeps { Keeps self.old self.new }
        ensures grows { Grows (form_of self.old) log.old log.new budget.old budget.new (closings_at result) }
        ensures gives { IfOk result (StepGives self.old self.new log.new assume.now budget.old budget.new) }
        ensures stands { IfOk result (StandsAfter self.new log.new assume.now) }
    {
        if self.trail.level() == 0 {
            self.close(log, conflict)?;
            return Ok(Some(Verdict::Closed {
                step: log.len() as u32,
            }));
        }
        self.learn(log, budget, conflict)?;
        if budget.left() == 0 {
            return Ok(Some(Verdict::Spent));
        }
        Ok(None)
    }

    /// Goes on where all clauses rest: decides a literal, or answers.
    fn extend(&mut self, assume: &[Lit], log: &mut Log) -> Result<Option<Verdict>, NoMemory>
        requires under_way { IsUnderWay self.old log.old assume.now }
        requires assume { IsWithin self.old.trail.vars assume.now }
        requires distinct { IsTrue (has_distinct_variables assume.now) }
        requires small { length assume.now ≤ 2 ^ 32 }
        requires clauses_fit { self.old.form_len + length log.old + 1 < 2 ^ 32 }
        requires rest { AllRest self.old.trail.clauses (values_of self.old.trail.entries) }
        ensures ready { IsReady self.new log.new }
        ensures keeps { Keeps self.old self.new }
        ensures grows { Grows (form_of self.old) log.old log.new 0 0 (closings_at result) }
        ensures gives { IfOk result (ExtendGives self.old self.new log.new assume.now) }
        ensures stands { IfOk result (StandsAfter self.new log.new assume.now) }
    {
        match self.next(assume) {
            Choice::Decide(place, l) => {
                self.decide(place, l)?;
                Ok(None)
            }
            Choice::Refuted(l) => {
                self.contradict(log, l)?;
                Ok(Some(Verdict::Closed {
                    step: log.len() as u32,
                }))
            }
            Choice::Free => self.decide_free(assume, log),
        }
    }

    /// Decides the first variable of the ranking that has no value, or keeps the model where each has one.
    fn decide_free(&mut self, assume: &[Lit], log: &Log) -> Result<Option<Verdict>, NoMemory>
        requires under_way { IsUnderWay self.old log.now assume.now }
        requires assume { IsWithin self.old.trail.vars assume.now }
        requires small { length assume.now ≤ 2 ^ 32 }
        requires rest { AllRest self.old.trail.clauses (values_of self.old.trail.entries) }
        requires passed { PassedTo self.old.trail assume.now self.old.preferred.items (end_of assume.now self.old.preferred.items) }
        ensures ready { IsReady self.new log.now }
        ensures keeps { Keeps self.old self.new }
        ensures grows { Grows (form_of self.old) log.now log.now 0 0 (closings_at result) }
        ensures gives { IfOk result (ExtendGives self.old self.new log.now assume.now) }
        ensures stands { IfOk result (StandsAfter self.new log.now assume.now) }
    {
        let place = assume.len() + self.preferred.len();
        match self.ranking.choose(&self.trail) {
            Some(l) => {
                self.decide(place, l)?;
                Ok(None)
            }
            None => {
                keep(&mut self.model, &self.trail);
                Ok(Some(Verdict::Model))
            }
        }
    }

    /// What is decided next, under these assumptions.
    fn next(&self, assume: &[Lit]) -> Choice
        requires fit { IsFit self.now }
        requires chosen { AreChosen self.now.trail assume.now self.now.preferred.items self.now.chosen.items }
        requires assume { IsWithin self.now.trail.vars assume.now }
        requires preferred { All (λ v. (1 ≤ v) × (v ≤ self.now.trail.vars)) self.now.preferred.items }
        requires small { length assume.now + length self.now.preferred.items < 2 ^ 63 }
        ensures { ChoiceGives self.now.trail assume.now self.now.preferred.items result }
    {
        let count = self.chosen.len();
        let from = if count == 0 {
            0
        } else {
            (self.chosen[count - 1] + 1).min(assume.len() + self.preferred.len())
        };
        choose(&self.trail, assume, &self.preferred, from)
    }

    /// Decides a literal that stands at a place of the order. After `NoMemory` nothing has changed.
    fn decide(&mut self, place: usize, l: Lit) -> Result<(), NoMemory>
        requires fit { IsFit self.old }
        requires variable { IsVariable self.old.trail.vars l.var }
        requires unassigned { IsUnassignedIn (values_of self.old.trail.entries) l }
        requires rest { AllRest self.old.trail.clauses (values_of self.old.trail.entries) }
        ensures fit { IsFit self.new }
        ensures trail { OnOk result (self.new.trail ≡ with_decision self.old.trail l) }
        ensures chosen { OnOk result (self.new.chosen.items ≡ self.old.chosen.items ++ place ∷ []) }
        ensures known { self.new.known ≡ self.old.known }
        ensures preferred { self.new.preferred ≡ self.old.preferred }
        ensures form_len { self.new.form_len ≡ self.old.form_len }
        ensures model { self.new.model ≡ self.old.model }
        ensures err { OnErr result (self.new.trail ≡ self.old.trail) }
    {
        self.chosen.push(place)?;
        self.trail.decide(l);
        Ok(())
    }

    /// Learns a clause from a conflict, takes a unit for it, and goes back to where the clause is unit. After
    /// `NoMemory` the log is as it was, or has the step, and the unit is taken.
    fn learn(&mut self, log: &mut Log, budget: &mut Budget, conflict: u32) -> Result<(), NoMemory>
        requires fit { IsFit self.old }
        requires clauses_fit { length self.old.trail.clauses + 1 < 2 ^ 32 }
        requires level { 1 ≤ self.old.trail.level }
        requires number { IsNumber self.old.trail.clauses conflict }
        requires conflict { IsFalsified (values_of self.old.trail.entries) (numbered self.old.trail.clauses conflict) }
        requires budget { 1 ≤ budget.old }
        requires known { self.old.known + 1 < 2 ^ 64 }
        ensures fit { IsFit self.new }
        ensures ok { OnOk result (Learned self.old self.new log.old log.new) }
        ensures taken { OnOk result (budget.new + 1 ≡ budget.old) }
        ensures err { OnErr result (KeptLog self.old self.new log.old log.new budget.old budget.new) }
        ensures vars { self.new.trail.vars ≡ self.old.trail.vars }
        ensures preferred { self.new.preferred ≡ self.old.preferred }
        ensures form_len { self.new.form_len ≡ self.old.form_len }
        ensures model { self.new.model ≡ self.old.model }
    {
        let learned = self.analysis.learn(&self.trail, conflict);
        if learned.is_err() {
            self.analysis.reset();
            return learned;
        }
        let asserting = self.analysis.lower_level(&self.trail);
        let level = self.restarts.level_from(asserting);
        let recorded = self.analysis.record(log, StepKind::Learned);
        self.ranking.meet(&self.analysis.met);
        self.analysis.clear();
        recorded?;
        budget.take();
        self.chosen.truncate(level as usize);
        self.ranking.release(&self.trail, level);
        self.trail.back_to(level);
        self.trail.add_clause(log.clause(log.len() - 1))?;
        self.known += 1;
        Ok(())
    }

    /// Derives a clause from one that is false, and writes its step. After `NoMemory` the log is as it was.
    fn close(&mut self, log: &mut Log, conflict: u32) -> Result<(), NoMemory>
        requires fit { IsFit self.old }
        requires number { IsNumber self.old.trail.clauses conflict }
        requires conflict { IsFalsified (values_of self.old.trail.entries) (numbered self.old.trail.clauses conflict) }
        ensures fit { IsFit self.new }
        ensures trail { self.new.trail ≡ self.old.trail }
        ensures known { self.new.known ≡ self.old.known }
        ensures preferred { self.new.preferred ≡ self.old.preferred }
        ensures form_len { self.new.form_len ≡ self.old.form_len }
        ensures model { self.new.model ≡ self.old.model }
        ensures ok { OnOk result (DerivesStep self.old.trail [] log.old log.new) }
        ensures err { OnErr result (log.new ≡ log.old) }
    {
        let closed = self.analysis.close(&self.trail, conflict);
        if closed.is_err() {
            self.analysis.reset();
            return closed;
        }
        let recorded = self.analysis.record(log, StepKind::Derived);
        self.analysis.reset();
        recorded
    }

    /// Derives a clause of a false literal's opposite and of opposites of decisions, and writes its step. After
    /// `NoMemory` the log is as it was.
    fn contradict(&mut self, log: &mut Log, l: Lit) -> Result<(), NoMemory>
        requires fit { IsFit self.old }
        requires variable { IsVariable self.old.trail.vars l.var }
        requires falsified { IsFalseIn (values_of self.old.trail.entries) l }
        requires reason { IsSome (reason_in self.old.trail.entries l.var) }
        ensures fit { IsFit self.new }
        ensures trail { self.new.trail ≡ self.old.trail }
        ensures known { self.new.known ≡ self.old.known }
        ensures preferred { self.new.preferred ≡ self.old.preferred }
        ensures form_len { self.new.form_len ≡ self.old.form_len }
        ensures model { self.new.model ≡ self.old.model }
        ensures ok { OnOk result (DerivesStep self.old.trail (opposite l ∷ []) log.old log.new) }
        ensures err { OnErr result (log.new ≡ log.old) }
    {
        let reason = self.trail.reason(l.var).unwrap();
        let contradicted = self.analysis.contradict(&self.trail, l.opposite(), reason);
        if contradicted.is_err() {
            self.analysis.reset();
            return contradicted;
        }
        let recorded = self.analysis.record(log, StepKind::Derived);
        self.analysis.reset();
        recorded
    }
}

/// Keeps the values of a trail's variables, where they have one.
fn keep(model: &mut Vec<bool>, trail: &Trail)
    requires trail { IsTrail trail.now }
    requires size { length model.old.items ≡ trail.now.vars }
    ensures { IsModelOf trail.now model.new.items }
{
    for place in 0..model.len() {
        model[place] = trail.value(place as u32 + 1).unwrap_or(false);
    }
}

/// Decides literals one after another where they have no value, each once no clause forces another, until a clause is false.
fn suppose(trail: &mut Trail, literals: &[Lit])
    requires trail { IsTrail trail.old }
    requires within { IsWithin trail.old.vars literals.now }
    ensures trail { IsTrail trail.new }
    ensures vars { trail.new.vars ≡ trail.old.vars }
    ensures clauses { trail.new.clauses ≡ trail.old.clauses }
{
    for place in 0..literals.len() {
        match trail.propagate() {
            Some(_) => return,
            None => decide_unassigned(trail, literals[place]),
        }
    }
    let _ = trail.propagate();
}

/// Decides a literal where it has no value.
fn decide_unassigned(trail: &mut Trail, l: Lit)
    requires trail { IsTrail trail.old }
    requires variable { IsVariable trail.old.vars l.var }
    requires rest { AllRest trail.old.clauses (values_of trail.old.entries) }
    ensures trail { IsTrail trail.new }
    ensures vars { trail.new.vars ≡ trail.old.vars }
    ensures clauses { trail.new.clauses ≡ trail.old.clauses }
{
    if trail.value(l.var).is_none() {
        trail.decide(l);
    }
}
