ghost use Rattle.std.specs.Prelude.{◌≡◌, ◌≢◌, ◌+◌, ◌-◌, ◌<◌, false, true, IfSome, length, slice_set, OnOk, OnErr, IfOk, ◌≤◌, ◌++◌, ◌∷◌, [], Some, IsTrue, slice_index_or};
ghost use Rattle.clause_base.specs.Literal.{IsWithin, has, has_distinct_variables};
ghost use Rattle.clause_base.specs.Acceptance.{numbered};
ghost use Rattle.trail_core.specs.Values.{IsVariable, IsTrueIn, IsFalseIn, IsFalsified};
ghost use Rattle.trail_core.specs.TrailState.{IsTrail, IsNumber, MayAdd, back_at, values_of, level_in, reason_in};
ghost use Rattle.sat_core.specs.Derivation.{marked, set_of, MarksOthers, Tracks, AreFalse, IsForced, Replaces, Covers, Leaves, Derives, Resolved, IsOnlyPresent, Learns, AreOf, Unmarks, IsClean, RefutesAt, Refutes, opposites_of, Starts, Denies};

use clause_base::{Lit, Log, StepKind};
use loc_base::NoMemory;
use std::alloc::Global;
use trail_core::Trail;

/// A set of false literals that a chain of clauses gives, and the chain.
#[derive(Drop)]
pub(crate) struct Analysis {
    /// Whether the set has a literal of each variable, at the variable less 1.
    pub(crate) marked: Vec<bool>,
    /// The literals of the set that count for the clause so far.
    pub(crate) literals: Vec<Lit>,
    /// The numbers of the clauses that were resolved.
    pub(crate) chain: Vec<u32>,
    /// How many literals of the set became false at the present decision level.
    pub(crate) present: u32,
    /// The variables that were in the set.
    pub(crate) met: Vec<u32>,
}

impl Analysis {
    ghost use Rattle.sat_core.specs.Analyses.{IsEmpty};

    /// An empty set of the variables 1 to `vars`.
    pub(crate) fn new(alloc: Global, vars: u32) -> Result<Analysis, NoMemory>
        ensures size { IfOk result (λ a. length a.marked.items ≡ vars) }
        ensures empty { IfOk result IsEmpty }
    {
        Ok(Analysis {
            marked: vec![in alloc; false; vars as usize]?,
            literals: Vec::new(alloc),
            chain: Vec::new(alloc),
            present: 0,
            met: Vec::new(alloc),
        })
    }

    /// Resolves a conflict with the reasons of the literals that became true last, until the set has one literal of
    /// the present decision level: the first unique implication point. That literal comes last.
    pub(crate) fn learn(&mut self, trail: &Trail, conflict: u32) -> Result<(), NoMemory>
        requires trail { IsTrail trail.now }
        requires size { length self.old.marked.items ≡ trail.now.vars }
        requires empty { IsEmpty self.old }
        requires level { 1 ≤ trail.now.level }
        requires number { IsNumber trail.now.clauses conflict }
        requires conflict { IsFalsified (values_of trail.now.entries) (numbered trail.now.clauses conflict) }
        ensures size { length self.new.marked.items ≡ length self.old.marked.items }
        ensures learns { OnOk result (Learns trail.now self.new.marked.items self.new.literals.items self.new.chain.items) }
    {
        self.chain.push(conflict)?;
        self.take_in(trail, trail.clause(conflict), 0)?;
        let place = self.descend(trail)?;
        let last = self.last_marked(trail, place);
        self.shrink(trail)?;
        self.literals.push(last.opposite())?;
        Ok(())
    }

    /// Leaves out literals whose reasons' other literals are in the set, the last found first (Sörensson, Biere 2009, local
    /// minimisation).
    fn shrink(&mut self, trail: &Trail) -> Result<(), NoMemory>
        requires trail { IsTrail trail.now }
        requires tracks { Tracks trail.now self.old.marked.items self.old.literals.items self.old.present }
        requires derives { Derives trail.now.clauses self.old.chain.items (set_of self.old.marked.items (values_of trail.now.entries)) }
        ensures size { length self.new.marked.items ≡ length self.old.marked.items }
        ensures tracks { OnOk result (Tracks trail.now self.new.marked.items self.new.literals.items self.new.present) }
        ensures derives { OnOk result (Derives trail.now.clauses self.new.chain.items (set_of self.new.marked.items (values_of trail.now.entries))) }
        ensures leaves { OnOk result (Leaves trail.now self.old.marked.items self.new.marked.items) }
    {
        let mut place = self.literals.len();
        while 0 < place {
            place -= 1;
            let l = self.literals[place];
            if let Some(number) = self.redundant_by(trail, l) {
                self.leave_out(trail, place, number)?;
            }
        }
        Ok(())
    }

    /// Leaves the literal at a place out, for the clause of a number that covers it.
    fn leave_out(&mut self, trail: &Trail, place: usize, number: u32) -> Result<(), NoMemory>
        requires trail { IsTrail trail.now }
        requires tracks { Tracks trail.now self.old.marked.items self.old.literals.items self.old.present }
        requires derives { Derives trail.now.clauses self.old.chain.items (set_of self.old.marked.items (values_of trail.now.entries)) }
        requires place { place < length self.old.literals.items }
        requires covers { (d : Lit) → Covers trail.now self.old.marked.items number (slice_index_or self.old.literals.items place d) }
        ensures size { length self.new.marked.items ≡ length self.old.marked.items }
        ensures shorter { OnOk result (length self.new.literals.items + 1 ≡ length self.old.literals.items) }
        ensures tracks { OnOk result (Tracks trail.now self.new.marked.items self.new.literals.items self.new.present) }
        ensures derives { OnOk result (Derives trail.now.clauses self.new.chain.items (set_of self.new.marked.items (values_of trail.now.entries))) }
        ensures leaves { OnOk result (Leaves trail.now self.old.marked.items self.new.marked.items) }
    {
        self.chain.push(number)?;
        let l = self.literals.swap_remove(place);
        self.marked[l.var as usize - 1] = false;
        Ok(())
    }

    /// The reason of the literal's variable, where its other literals are in the set.
    fn redundant_by(&self, trail: &Trail, l: Lit) -> Option<u32>
        requires trail { IsTrail trail.now }
        requires size { length self.now.marked.items ≡ trail.now.vars }
        requires variable { IsVariable trail.now.vars l.var }
        ensures { IfSome result (λ n. Covers trail.now self.now.marked.items n l) }
    {
        let reason = trail.reason(l.var)?;
        if self.has_others(trail.clause(reason), l.var) {
            Some(reason)
        } else {
            None
        }
    }

    /// Whether the set has the literals of a clause, but for that of one variable.
    fn has_others(&self, literals: &[Lit], skip: u32) -> bool
        requires within { IsWithin (length self.now.marked.items) literals.now }
        ensures { IsTrue result → (m : Lit) → has literals.now m ≡ true → m.var ≢ skip → marked self.now.marked.items m.var ≡ true }
    {
        for other in literals {
            if !self.is_covered(*other, skip) {
                return false;
            }
        }
        true
    }

    /// Whether the literal is of that variable, or in the set.
    fn is_covered(&self, l: Lit, skip: u32) -> bool
        requires { IsVariable (length self.now.marked.items) l.var }
        ensures { IsTrue result → l.var ≢ skip → marked self.now.marked.items l.var ≡ true }
    {
        l.var == skip || self.is_marked(l.var)
    }

    /// Derives a clause of opposites of decisions from a clause whose literals are all false.
    pub(crate) fn close(&mut self, trail: &Trail, conflict: u32) -> Result<(), NoMemory>
        requires trail { IsTrail trail.now }
        requires size { length self.old.marked.items ≡ trail.now.vars }
        requires empty { IsEmpty self.old }
        requires number { IsNumber trail.now.clauses conflict }
        requires conflict { IsFalsified (values_of trail.now.entries) (numbered trail.now.clauses conflict) }
        ensures size { length self.new.marked.items ≡ length self.old.marked.items }
        ensures denies { OnOk result (Denies trail.now [] self.new.literals.items self.new.chain.items) }
    {
        self.begin(trail, conflict, 0)?;
        self.finish(trail)
    }

    /// Derives a clause of a true literal and opposites of decisions from the literal's reason.
    pub(crate) fn contradict(&mut self, trail: &Trail, l: Lit, reason: u32) -> Result<(), NoMemory>
        requires trail { IsTrail trail.now }
        requires size { length self.old.marked.items ≡ trail.now.vars }
        requires empty { IsEmpty self.old }
        requires truth { IsTrueIn (values_of trail.now.entries) l }
        requires reason { reason_in trail.now.entries l.var ≡ Some reason }
        ensures size { length self.new.marked.items ≡ length self.old.marked.items }
        ensures denies { OnOk result (Denies trail.now (l ∷ []) self.new.literals.items self.new.chain.items) }
    {
        self.literals.push(l)?;
        self.begin(trail, reason, l.var)?;
        self.finish(trail)
    }

    /// Begins with the clause of a number, whose literals are in the set, but for that of one variable.
    fn begin(&mut self, trail: &Trail, number: u32, skip: u32) -> Result<(), NoMemory>
        requires trail { IsTrail trail.now }
        requires size { length self.old.marked.items ≡ trail.now.vars }
        requires number { IsNumber trail.now.clauses number }
        ensures size { length self.new.marked.items ≡ length self.old.marked.items }
        ensures literals { self.new.literals ≡ self.old.literals }
        ensures chain { OnOk result (self.new.chain.items ≡ self.old.chain.items ++ number ∷ []) }
        ensures marks { OnOk result (MarksOthers self.old.marked.items self.new.marked.items (numbered trail.now.clauses number) skip) }
    {
        self.chain.push(number)?;
        mark_others(&mut self.marked, trail.clause(number), skip);
        Ok(())
    }

    /// Resolves the set until only opposites of decisions are left, and takes these into the clause.
    fn finish(&mut self, trail: &Trail) -> Result<(), NoMemory>
        requires trail { IsTrail trail.now }
        requires size { length self.old.marked.items ≡ trail.now.vars }
        requires starts { Starts trail.now self.old.literals.items self.old.marked.items self.old.chain.items }
        ensures size { length self.new.marked.items ≡ length self.old.marked.items }
        ensures denies { OnOk result (Denies trail.now self.old.literals.items self.new.literals.items self.new.chain.items) }
    {
        self.refute(trail)?;
        self.collect(trail)
    }

    /// Takes the opposites of the true literals whose variables are marked into the clause.
    fn collect(&mut self, trail: &Trail) -> Result<(), NoMemory>
        requires trail { IsTrail trail.now }
        requires size { length self.old.marked.items ≡ trail.now.vars }
        ensures set { self.new.marked ≡ self.old.marked }
        ensures chain { self.new.chain ≡ self.old.chain }
        ensures literals { OnOk result (self.new.literals.items ≡ self.old.literals.items ++ opposites_of self.old.marked.items trail.now.entries) }
    {
        for place in 0..trail.len() {
            let l = trail.at(place).unwrap();
            if self.is_marked(l.var) {
                self.literals.push(l.opposite())?;
            }
        }
        Ok(())
    }

    /// Resolves the set with the reasons of its literals from the last place down, until only the opposites of
    /// decisions are left.
    fn refute(&mut self, trail: &Trail) -> Result<(), NoMemory>
        requires trail { IsTrail trail.now }
        requires size { length self.old.marked.items ≡ trail.now.vars }
        ensures size { length self.new.marked.items ≡ length self.old.marked.items }
        ensures literals { self.new.literals ≡ self.old.literals }
        ensures refutes { OnOk result (Refutes trail.now self.old.marked.items self.new.marked.items self.old.chain.items self.new.chain.items 0) }
    {
        let mut place = trail.len();
        while place > 0 {
            place -= 1;
            self.refute_at(trail, place)?;
        }
        Ok(())
    }

    /// Resolves the set with the reason of the literal at a place, where the set has its opposite and it has a
    /// reason.
    fn refute_at(&mut self, trail: &Trail, place: u32) -> Result<(), NoMemory>
        requires trail { IsTrail trail.now }
        requires size { length self.old.marked.items ≡ trail.now.vars }
        requires place { place < length trail.now.entries }
        ensures size { length self.new.marked.items ≡ length self.old.marked.items }
        ensures literals { self.new.literals ≡ self.old.literals }
        ensures step { OnOk result (RefutesAt trail.now self.old.marked.items self.new.marked.items self.old.chain.items self.new.chain.items place) }
    {
        let l = trail.at(place).unwrap();
        if !self.is_marked(l.var) {
            return Ok(());
        }
        match trail.reason(l.var) {
            None => Ok(()),
            Some(reason) => {
                self.chain.push(reason)?;
                self.marked[l.var as usize - 1] = false;
                mark_others(&mut self.marked, trail.clause(reason), l.var);
                Ok(())
            }
        }
    }

    /// The greatest decision level of the clause's literals but the last; 0 where there is no other. Where the trail
    /// has gone back to it, the clause may be added.
    pub(crate) fn lower_level(&self, trail: &Trail) -> u32
        requires trail { IsTrail trail.now }
        requires level { 1 ≤ trail.now.level }
        requires learns { Learns trail.now self.now.marked.items self.now.literals.items self.now.chain.items }
        ensures below { result < trail.now.level }
        ensures may { MayAdd (back_at trail.now result) self.now.literals.items }
    {
        let others = self.literals.len() - 1;
        let mut level = 0;
        for l in &self.literals.as_slice()[..others] {
            level = level.max(trail.level_of(l.var).unwrap_or(0));
        }
        level
    }

    /// Empties the set and the chain, where each marked variable is one of the clause's.
    pub(crate) fn clear(&mut self)
        requires within { IsWithin (length self.old.marked.items) self.old.literals.items }
        requires cover { AreOf self.old.marked.items self.old.literals.items }
        ensures size { length self.new.marked.items ≡ length self.old.marked.items }
        ensures empty { IsEmpty self.new }
    {
        unmark(&mut self.marked, &self.literals);
        self.literals.clear();
        self.chain.clear();
        self.present = 0;
        self.met.clear();
    }

    /// Empties the set and the chain.
    pub(crate) fn reset(&mut self)
        ensures size { length self.new.marked.items ≡ length self.old.marked.items }
        ensures empty { IsEmpty self.new }
    {
        unmark_all(&mut self.marked);
        self.literals.clear();
        self.chain.clear();
        self.present = 0;
        self.met.clear();
    }

    /// Writes the step of the clause and the chain into a log. After `NoMemory` the log is as it was.
    pub(crate) fn record(&self, log: &mut Log, kind: StepKind) -> Result<(), NoMemory>
        requires { IsTrue (has_distinct_variables self.now.literals.items) }
        ensures ok { OnOk result (log.new ≡ log.old ++ record { kind = kind; clause = self.now.literals.items; chain = self.now.chain.items } ∷ []) }
        ensures err { OnErr result (log.new ≡ log.old) }
    {
        log.push(kind, &self.literals, &self.chain)
    }

    /// The true literal before a place that is the only marked one of the present decision level.
    fn last_marked(&self, trail: &Trail, before: u32) -> Lit
        requires trail { IsTrail trail.now }
        requires resolved { Resolved trail.now self.now.marked.items self.now.literals.items self.now.chain.items self.now.present before }
        requires place { before ≤ length trail.now.entries }
        requires alone { self.now.present ≡ 1 }
        ensures { IsOnlyPresent trail.now self.now.marked.items result }
    {
        let mut place = before;
        loop {
            place -= 1;
            let l = trail.at(place).unwrap();
            if self.is_marked(l.var) {
                return l;
            }
        }
    }

    /// Resolves the set with the reasons of its literals from the last place down, until one literal of the present
    /// decision level is left. Answers the place that it came to.
    pub(crate) fn descend(&mut self, trail: &Trail) -> Result<u32, NoMemory>
        requires trail { IsTrail trail.now }
        requires resolved { Resolved trail.now self.old.marked.items self.old.literals.items self.old.chain.items self.old.present (length trail.now.entries) }
        ensures size { length self.new.marked.items ≡ length self.old.marked.items }
        ensures resolved { IfOk result (Resolved trail.now self.new.marked.items self.new.literals.items self.new.chain.items self.new.present) }
        ensures place { IfOk result (λ place. place ≤ length trail.now.entries) }
        ensures alone { OnOk result (self.new.present ≡ 1) }
    {
        let mut place = trail.len();
        while self.present > 1 {
            place -= 1;
            self.resolve_at(trail, place)?;
        }
        Ok(place)
    }

    /// Resolves the set with the reason of the literal at a place, where the set has its opposite.
    fn resolve_at(&mut self, trail: &Trail, place: u32) -> Result<(), NoMemory>
        requires trail { IsTrail trail.now }
        requires resolved { Resolved trail.now self.old.marked.items self.old.literals.items self.old.chain.items self.old.present (place + 1) }
        requires place { place < length trail.now.entries }
        requires present { 2 ≤ self.old.present }
        ensures size { length self.new.marked.items ≡ length self.old.marked.items }
        ensures resolved { OnOk result (Resolved trail.now self.new.marked.items self.new.literals.items self.new.chain.items self.new.present place) }
    {
        let l = trail.at(place).unwrap();
        if self.is_marked(l.var) {
            let reason = trail.reason(l.var).unwrap();
            self.resolve(trail, l, reason)?;
        }
        Ok(())
    }

    /// Resolves the set with the clause of a number, which has a true literal whose opposite is in the set, and
    /// otherwise false ones.
    fn resolve(&mut self, trail: &Trail, l: Lit, number: u32) -> Result<(), NoMemory>
        requires trail { IsTrail trail.now }
        requires tracks { Tracks trail.now self.old.marked.items self.old.literals.items self.old.present }
        requires derives { Derives trail.now.clauses self.old.chain.items (set_of self.old.marked.items (values_of trail.now.entries)) }
        requires number { IsNumber trail.now.clauses number }
        requires forced { IsForced (values_of trail.now.entries) (numbered trail.now.clauses number) l }
        requires set { marked self.old.marked.items l.var ≡ true }
        requires level { level_in trail.now.entries l.var ≡ Some trail.now.level }
        requires some { 1 ≤ self.old.present }
        ensures size { length self.new.marked.items ≡ length self.old.marked.items }
        ensures tracks { OnOk result (Tracks trail.now self.new.marked.items self.new.literals.items self.new.present) }
        ensures derives { OnOk result (Derives trail.now.clauses self.new.chain.items (set_of self.new.marked.items (values_of trail.now.entries))) }
        ensures replaces { OnOk result (Replaces self.old.marked.items self.new.marked.items (numbered trail.now.clauses number) l.var) }
    {
        self.chain.push(number)?;
        self.marked[l.var as usize - 1] = false;
        self.present -= 1;
        self.take_in(trail, trail.clause(number), l.var)
    }

    /// Takes the literals of a clause into the set, but for that of one variable.
    pub(crate) fn take_in(
        &mut self,
        trail: &Trail,
        literals: &[Lit],
        skip: u32,
    ) -> Result<(), NoMemory>
        requires trail { IsTrail trail.now }
        requires tracks { Tracks trail.now self.old.marked.items self.old.literals.items self.old.present }
        requires within { IsWithin trail.now.vars literals.now }
        requires falsified { AreFalse (values_of trail.now.entries) literals.now skip }
        ensures chain { self.new.chain ≡ self.old.chain }
        ensures tracks { OnOk result (Tracks trail.now self.new.marked.items self.new.literals.items self.new.present) }
        ensures marks { OnOk result (MarksOthers self.old.marked.items self.new.marked.items literals.now skip) }
        ensures size { length self.new.marked.items ≡ length self.old.marked.items }
    {
        for l in literals {
            if l.var != skip && !self.is_marked(l.var) {
                self.mark(trail, *l)?;
            }
        }
        Ok(())
    }

    /// Takes a false literal into the set.
    fn mark(&mut self, trail: &Trail, l: Lit) -> Result<(), NoMemory>
        requires trail { IsTrail trail.now }
        requires tracks { Tracks trail.now self.old.marked.items self.old.literals.items self.old.present }
        requires variable { IsVariable trail.now.vars l.var }
        requires falsified { IsFalseIn (values_of trail.now.entries) l }
        requires unmarked { marked self.old.marked.items l.var ≡ false }
        ensures chain { self.new.chain ≡ self.old.chain }
        ensures tracks { OnOk result (Tracks trail.now self.new.marked.items self.new.literals.items self.new.present) }
        ensures marks { OnOk result (self.new.marked.items ≡ slice_set self.old.marked.items (l.var - 1) true) }
        ensures size { length self.new.marked.items ≡ length self.old.marked.items }
    {
        self.met.push(l.var)?;
        if trail.level_of(l.var) == Some(trail.level()) {
            self.present += 1;
        } else {
            self.literals.push(l)?;
        }
        self.marked[l.var as usize - 1] = true;
        Ok(())
    }

    /// Whether the set has a literal of the variable.
    pub(crate) fn is_marked(&self, var: u32) -> bool
        requires { IsVariable (length self.now.marked.items) var }
        ensures { result ≡ marked self.now.marked.items var }
    {
        self.marked[var as usize - 1]
    }
}

/// Marks the variables of the literals, but for one.
pub(crate) fn mark_others(marked: &mut Vec<bool>, literals: &[Lit], skip: u32)
    requires { IsWithin (length marked.old.items) literals.now }
    ensures { MarksOthers marked.old.items marked.new.items literals.now skip }
{
    for l in literals {
        if l.var != skip {
            marked[l.var as usize - 1] = true;
        }
    }
}

/// Takes the marks of the literals' variables away.
pub(crate) fn unmark(marked: &mut Vec<bool>, literals: &[Lit])
    requires { IsWithin (length marked.old.items) literals.now }
    ensures { Unmarks marked.old.items marked.new.items literals.now }
{
    for l in literals {
        marked[l.var as usize - 1] = false;
    }
}

/// Takes all marks away.
fn unmark_all(marked: &mut Vec<bool>)
    ensures size { length marked.new.items ≡ length marked.old.items }
    ensures clean { IsClean marked.new.items }
{
    for place in 0..marked.len() {
        marked[place] = false;
    }
}
