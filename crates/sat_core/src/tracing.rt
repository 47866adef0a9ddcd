//! Why many literals are true on a trail, each by a clause of it and opposites of decisions. The trail is gone over once. Each literal is then
//! traced back by the places of what it rests on, the last first.

ghost use Rattle.std.specs.Prelude.{◌≡◌, ◌∷◌, ◌++◌, [], ◌<◌, ◌-◌, true, false, length, slice_set, IfOk, OnOk, IsSome, All};
ghost use Rattle.std.specs.List.{AllZip};
ghost use Rattle.std.specs.BinaryHeap.{IsHeap, heap_items};
ghost use Rattle.std.specs.Ordering.{nat_cmp};
ghost use Rattle.clause_base.specs.Literal.{negative, IsWithin};
ghost use Rattle.clause_base.specs.Acceptance.{numbered};
ghost use Rattle.trail_core.specs.Values.{IsVariable, IsTrueIn, IsFalseIn};
ghost use Rattle.trail_core.specs.TrailState.{IsTrail, IsNumber, values_of, reason_in};
ghost use Rattle.sat_core.specs.Derivation.{marked, AreFalse, AreOf, Denies, IsClean, MarksOthers, Refutes, RefutesAt};
ghost use Rattle.sat_core.specs.Searching.{DerivesStep};
ghost use Rattle.sat_core.specs.Tracing.{HasPlaces, IsDerivedFor, IsForcedFalse, IsIdle, IsTracing};

use crate::analysis::unmark;
use clause_base::{Lit, Log, StepKind};
use loc_base::NoMemory;
use std::alloc::Global;
use std::collections::BinaryHeap;
use trail_core::Trail;

/// A set of false literals that a chain of clauses gives, and the chain.
#[derive(Drop)]
pub(crate) struct Tracing {
    /// The place of each variable's literal on the trail, at the variable less 1.
    pub(crate) places: Vec<u32>,
    /// Whether the set has a literal of each variable, at the variable less 1.
    pub(crate) marked: Vec<bool>,
    /// The places of the set's literals that have reasons.
    pub(crate) due: BinaryHeap<u32>,
    /// The set's literals that have none.
    pub(crate) literals: Vec<Lit>,
    /// The numbers of the clauses that were resolved.
    pub(crate) chain: Vec<u32>,
    /// The literals that were in the set.
    pub(crate) met: Vec<Lit>,
}

/// The steps that derive the negations of false variables from the decisions before them, one for each variable.
pub(crate) fn explain_all(alloc: Global, trail: &Trail, vars: &[u32]) -> Result<Log, NoMemory>
    requires trail { IsTrail trail.now }
    requires forced { All (IsForcedFalse trail.now) vars.now }
    ensures { IfOk result (AllZip (IsDerivedFor trail.now) vars.now) }
{
    let mut log = Log::new(alloc);
    if vars.is_empty() {
        return Ok(log);
    }
    let mut tracing = Tracing::new(alloc, trail)?;
    for var in vars {
        tracing.explain(trail, *var, &mut log)?;
    }
    Ok(log)
}

/// The place of each variable's literal on a trail, at the variable less 1.
fn places_of(alloc: Global, trail: &Trail) -> Result<Vec<u32>, NoMemory>
    requires trail { IsTrail trail.now }
    ensures { IfOk result (λ places. HasPlaces trail.now places.items) }
{
    let mut places = vec![in alloc; 0; trail.vars() as usize]?;
    for place in 0..trail.len() {
        let l = trail.at(place).unwrap();
        places[l.var as usize - 1] = place;
    }
    Ok(places)
}

impl Tracing {
    /// An empty set of the trail's variables.
    fn new(alloc: Global, trail: &Trail) -> Result<Tracing, NoMemory>
        requires trail { IsTrail trail.now }
        ensures idle { IfOk result (IsIdle trail.now) }
    {
        Ok(Tracing {
            places: places_of(alloc, trail)?,
            marked: vec![in alloc; false; trail.vars() as usize]?,
            due: BinaryHeap::new(alloc),
            literals: Vec::new(alloc),
            chain: Vec::new(alloc),
            met: Vec::new(alloc),
        })
    }

    /// Writes the step that derives a false variable's negation into a log.
    fn explain(&mut self, trail: &Trail, var: u32, log: &mut Log) -> Result<(), NoMemory>
        requires trail { IsTrail trail.now }
        requires idle { IsIdle trail.now self.old }
        requires forced { IsForcedFalse trail.now var }
        ensures idle { OnOk result (IsIdle trail.now self.new) }
        ensures step { OnOk result (DerivesStep trail.now (negative var ∷ []) log.old log.new) }
    {
        self.trace(trail, Lit { var, negated: true })?;
        log.push(StepKind::Derived, &self.literals, &self.chain)?;
        self.clear();
        Ok(())
    }

    /// Derives a clause of opposites of decisions, with a true literal last, from the literal's reason.
    fn trace(&mut self, trail: &Trail, l: Lit) -> Result<(), NoMemory>
        requires trail { IsTrail trail.now }
        requires idle { IsIdle trail.now self.old }
        requires variable { IsVariable trail.now.vars l.var }
        requires truth { IsTrueIn (values_of trail.now.entries) l }
        requires reason { IsSome (reason_in trail.now.entries l.var) }
        ensures size { OnOk result (length self.new.marked.items ≡ trail.now.vars) }
        ensures places { OnOk result (HasPlaces trail.now self.new.places.items) }
        ensures due { OnOk result (heap_items self.new.due ≡ []) }
        ensures order { OnOk result (IsHeap nat_cmp (heap_items self.new.due)) }
        ensures met_within { OnOk result (IsWithin trail.now.vars self.new.met.items) }
        ensures met_each { OnOk result (AreOf self.new.marked.items self.new.met.items) }
        ensures denies { OnOk result (Denies trail.now (l ∷ []) self.new.literals.items self.new.chain.items) }
    {
        let reason = trail.reason(l.var).unwrap();
        self.take_in(trail, reason, l.var)?;
        self.refute(trail)?;
        self.literals.push(l)?;
        Ok(())
    }

    /// Resolves the set with the reasons of its literals, the last on the trail first, until none has one.
    fn refute(&mut self, trail: &Trail) -> Result<(), NoMemory>
        requires trail { IsTrail trail.now }
        requires tracing { IsTracing trail.now (heap_items self.old.due) self.old }
        ensures tracing { OnOk result (IsTracing trail.now (heap_items self.new.due) self.new) }
        ensures due { OnOk result (heap_items self.new.due ≡ []) }
        ensures refutes { OnOk result (Refutes trail.now self.old.marked.items self.new.marked.items self.old.chain.items self.new.chain.items 0) }
    {
        while let Some(place) = self.due.pop() {
            self.refute_at(trail, place)?;
        }
        Ok(())
    }

    /// Resolves the set with the reason of the literal at a place.
    fn refute_at(&mut self, trail: &Trail, place: u32) -> Result<(), NoMemory>
        requires trail { IsTrail trail.now }
        requires tracing { IsTracing trail.now (place ∷ heap_items self.old.due) self.old }
        ensures tracing { OnOk result (IsTracing trail.now (heap_items self.new.due) self.new) }
        ensures step { OnOk result (RefutesAt trail.now self.old.marked.items self.new.marked.items self.old.chain.items self.new.chain.items place) }
    {
        let l = trail.at(place).unwrap();
        let reason = trail.reason(l.var).unwrap();
        self.marked[l.var as usize - 1] = false;
        self.take_in(trail, reason, l.var)
    }

    /// Takes the literals of the clause of a number into the set, but for that of one variable.
    fn take_in(&mut self, trail: &Trail, number: u32, skip: u32) -> Result<(), NoMemory>
        requires trail { IsTrail trail.now }
        requires tracing { IsTracing trail.now (heap_items self.old.due) self.old }
        requires number { IsNumber trail.now.clauses number }
        requires falsified { AreFalse (values_of trail.now.entries) (numbered trail.now.clauses number) skip }
        ensures tracing { OnOk result (IsTracing trail.now (heap_items self.new.due) self.new) }
        ensures marks { OnOk result (MarksOthers self.old.marked.items self.new.marked.items (numbered trail.now.clauses number) skip) }
        ensures chain { OnOk result (self.new.chain.items ≡ self.old.chain.items ++ number ∷ []) }
    {
        self.chain.push(number)?;
        let clause = trail.clause(number);
        for l in clause {
            if l.var != skip && !self.marked[l.var as usize - 1] {
                self.mark(trail, *l)?;
            }
        }
        Ok(())
    }

    /// Takes a false literal into the set.
    fn mark(&mut self, trail: &Trail, l: Lit) -> Result<(), NoMemory>
        requires trail { IsTrail trail.now }
        requires tracing { IsTracing trail.now (heap_items self.old.due) self.old }
        requires variable { IsVariable trail.now.vars l.var }
        requires falsified { IsFalseIn (values_of trail.now.entries) l }
        requires unmarked { marked self.old.marked.items l.var ≡ false }
        ensures tracing { OnOk result (IsTracing trail.now (heap_items self.new.due) self.new) }
        ensures marks { OnOk result (self.new.marked.items ≡ slice_set self.old.marked.items (l.var - 1) true) }
        ensures chain { self.new.chain ≡ self.old.chain }
    {
        self.met.push(l)?;
        self.marked[l.var as usize - 1] = true;
        match trail.reason(l.var) {
            Some(_) => self.due.push(self.places[l.var as usize - 1])?,
            None => self.literals.push(l)?,
        }
        Ok(())
    }

    /// Empties the set and the chain.
    fn clear(&mut self)
        requires within { IsWithin (length self.old.marked.items) self.old.met.items }
        requires cover { AreOf self.old.marked.items self.old.met.items }
        ensures size { length self.new.marked.items ≡ length self.old.marked.items }
        ensures clean { IsClean self.new.marked.items }
        ensures places { self.new.places ≡ self.old.places }
        ensures due { self.new.due ≡ self.old.due }
        ensures literals { self.new.literals.items ≡ [] }
        ensures chain { self.new.chain.items ≡ [] }
        ensures met { self.new.met.items ≡ [] }
    {
        unmark(&mut self.marked, &self.met);
        self.met.clear();
        self.literals.clear();
        self.chain.clear();
    }
}
