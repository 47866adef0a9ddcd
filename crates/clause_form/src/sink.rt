//! Clauses that are counted, or counted and kept.

ghost use Rattle.std.specs.Prelude.{[], ◌∷◌, ◌++◌, ◌≡◌, ◌<◌, ◌≤◌, IfErr, IfOk, MatchOption, None, OnOk, Some, false, length, if◌then◌else◌, true};
ghost use Rattle.clause_base.specs.Literal.{AllDistinct};
ghost use Rattle.clause_form.specs.Clauses.{clause_of, literals_in, simplified};
ghost use Rattle.clause_form.specs.Limits.{IsRefused};
ghost use Rattle.clause_form.specs.Named.{named_from};
ghost use Rattle.clause_form.specs.Variables.{HaveVariables, gate_clauses, literal_of, size_of};

use crate::error::FormErr;
use crate::kept::Kept;
use clause_base::{Clauses, Lit};
use gate_base::Literal;
use loc_base::{Items, NoMemory};
use std::alloc::Global;

/// How many literals the clauses of a form may have.
pub(crate) const LITERALS: u64 = 64_000_000;

/// How many literals the three clauses of an AND have.
pub(crate) const GATE: u64 = 7;

/// How many literals the clauses have so far and, where `writes` is true, the clauses.
pub(crate) struct Sink {
    /// The variable of the first definition.
    pub base: u32,
    pub writes: bool,
    pub count: u64,
    pub kept: Kept,
    /// The literals of the clause that is kept.
    pub literals: Vec<Lit>,
    pub ghost within: { count ≤ 64000000 },
}

impl Drop for Sink {
    fn drop(self) {
        let Sink {
            base: _,
            writes: _,
            count: _,
            kept: _,
            literals: _,
        } = self;
    }
}

/// How many literals clauses have, and `None` where they are too many.
#[tactic(auto, using(crate::proofs::SinkSteps::counts))]
pub(crate) fn literals_of(clauses: &Clauses) -> Option<u64>
    ensures { MatchOption result (64000000 < literals_in clauses.now) (λ count. (count ≡ literals_in clauses.now) × (count ≤ 64000000)) }
{
    let mut count = 0;
    for place in 0..clauses.len() {
        let weight = (clauses.clause(place).len() as u64).max(1);
        if weight > LITERALS - count {
            return None;
        }
        count += weight;
    }
    Some(count)
}

/// The literal of a definition, where it is no constant.
#[inline(always)]
pub(crate) fn literal_of(base: u32, literal: Literal) -> Option<Lit>
    requires { HaveVariables base (literal ∷ []) }
    ensures { result ≡ literal_of base literal }
{
    match literal {
        Literal::Known(_) => None,
        Literal::Of { node, negated } => Some(Lit {
            var: base + node,
            negated,
        }),
    }
}

/// How many literals a clause has without those that are false, and `None` where one is true.
#[tactic(auto, using(crate::proofs::SinkSteps::sizes))]
fn size(all: &[Literal]) -> Option<u64>
    ensures { result ≡ size_of all.now }
{
    let mut count = 0;
    for i in 0..all.len() {
        match all[i] {
            Literal::Known(true) => return None,
            Literal::Known(false) => {}
            Literal::Of { .. } => count += 1,
        }
    }
    Some(count)
}

/// The literals of a clause, without those that are false; whether none is true.
#[tactic(auto, using(crate::proofs::SinkSteps::drafts))]
fn simplify(literals: &mut Vec<Lit>, base: u32, all: &[Literal]) -> Result<bool, NoMemory>
    requires { HaveVariables base all.now }
    ensures { IfOk result (λ there. simplified base all.now ≡ (if there then Some literals.new.items else None)) }
{
    literals.clear();
    for i in 0..all.len() {
        match all[i] {
            Literal::Known(true) => return Ok(false),
            Literal::Known(false) => {}
            Literal::Of { node, negated } => {
                let var = base + node;
                literals.push(Lit { var, negated })?;
            }
        }
    }
    Ok(true)
}

/// The clause of some literals and selectors; whether there is one.
#[tactic(auto, using(crate::proofs::SinkSteps::drafted))]
fn draft(
    literals: &mut Vec<Lit>,
    base: u32,
    all: &[Literal],
    selectors: &[Lit],
) -> Result<bool, NoMemory>
    requires { HaveVariables base all.now }
    ensures { IfOk result (λ there. clause_of base all.now selectors.now ≡ (if there then literals.new.items ∷ [] else [])) }
{
    if !simplify(literals, base, all)? {
        return Ok(false);
    }
    literals.extend_from_slice(selectors)?;
    Ok(true)
}

impl Sink {
    ghost use Rattle.clause_form.specs.Fields.{after, sunk_of};

    /// Clauses that are only counted, behind so many literals.
    pub(crate) fn counting(alloc: Global, base: u32, count: u64) -> Sink
        requires { count ≤ 64000000 }
        ensures { sunk_of result ≡ record { base = base; writes = false; named = []; count = count; clauses = [] } }
    {
        Sink {
            base,
            writes: false,
            count,
            kept: Kept::new(alloc, Items::new(alloc)),
            literals: Vec::new(alloc),
        }
    }

    /// Clauses that are kept, behind some with so many literals.
    pub(crate) fn keeping(alloc: Global, base: u32, count: u64, kept: Kept) -> Sink
        requires { count ≤ 64000000 }
        ensures { sunk_of result ≡ record { base = base; writes = true; named = kept.named; count = count; clauses = kept.clauses } }
    {
        Sink {
            base,
            writes: true,
            count,
            kept,
            literals: Vec::new(alloc),
        }
    }

    /// How many literals there were.
    pub(crate) fn into_count(self) -> u64
        ensures count { result ≡ self.count }
        ensures few { result ≤ 64000000 }
    {
        let Sink {
            base: _,
            writes: _,
            count,
            kept: _,
            literals: _,
        } = self;
        count
    }

    /// The clauses that were kept.
    pub(crate) fn into_clauses(self) -> Clauses
        ensures { result ≡ self.kept.clauses }
    {
        let Sink {
            base: _,
            writes: _,
            count: _,
            kept,
            literals: _,
        } = self;
        kept.into_clauses()
    }

    /// Keeps the clause of some literals and selectors, where clauses are kept. There is one.
    #[tactic(auto, using(crate::proofs::SinkSteps::keeps))]
    fn keep(&mut self, literals: &[Literal], selectors: &[Lit]) -> Result<(), NoMemory>
        requires variables { HaveVariables self.old.base literals.now }
        requires distinct { AllDistinct (clause_of self.old.base literals.now selectors.now) }
        requires one { length (clause_of self.old.base literals.now selectors.now) ≡ 1 }
        ensures kept { OnOk result (self.new.kept.clauses ≡ (if self.old.writes then self.old.kept.clauses ++ named_from self.old.kept.named (length self.old.kept.clauses) (clause_of self.old.base literals.now selectors.now) else self.old.kept.clauses)) }
        ensures base { self.new.base ≡ self.old.base }
        ensures writes { self.new.writes ≡ self.old.writes }
        ensures named { self.new.kept.named ≡ self.old.kept.named }
        ensures count { self.new.count ≡ self.old.count }
    {
        if !self.writes {
            return Ok(());
        }
        if !self.kept.takes() {
            return self.kept.push(&[]);
        }
        if draft(&mut self.literals, self.base, literals, selectors)? {
            self.kept.push(&self.literals)?;
        }
        Ok(())
    }

    /// Takes the clause of some literals, `size` of which are no constants, and selectors. It is made only where clauses are kept.
    fn take(&mut self, literals: &[Literal], selectors: &[Lit], size: u64) -> Result<(), FormErr>
        requires variables { HaveVariables self.old.base literals.now }
        requires distinct { AllDistinct (clause_of self.old.base literals.now selectors.now) }
        requires size { size_of literals.now ≡ Some size }
        ensures ok { OnOk result (sunk_of self.new ≡ after (sunk_of self.old) (clause_of self.old.base literals.now selectors.now)) }
        ensures err { IfErr result (λ e. IsRefused e (64000000 < (after (sunk_of self.old) (clause_of self.old.base literals.now selectors.now)).count)) }
    {
        let weight = size.saturating_add(selectors.len() as u64).max(1);
        if weight > LITERALS - self.count {
            return Err(FormErr::Literals);
        }
        self.keep(literals, selectors)?;
        self.count += weight;
        Ok(())
    }

    /// Takes the clause of some literals and selectors.
    pub(crate) fn push(&mut self, literals: &[Literal], selectors: &[Lit]) -> Result<(), FormErr>
        requires variables { HaveVariables self.old.base literals.now }
        requires distinct { AllDistinct (clause_of self.old.base literals.now selectors.now) }
        ensures ok { OnOk result (sunk_of self.new ≡ after (sunk_of self.old) (clause_of self.old.base literals.now selectors.now)) }
        ensures err { IfErr result (λ e. IsRefused e (64000000 < (after (sunk_of self.old) (clause_of self.old.base literals.now selectors.now)).count)) }
    {
        match size(literals) {
            Some(size) => self.take(literals, selectors, size),
            None => Ok(()),
        }
    }

    /// Keeps the clauses of v = AND(x, y), one after another.
    #[inline(never)]
    #[tactic(auto, using(crate::proofs::GateSteps::kept))]
    fn push_gate(&mut self, v: Lit, x: Lit, y: Lit) -> Result<(), NoMemory>
        requires distinct { AllDistinct (gate_clauses v x y) }
        ensures kept { OnOk result (self.new.kept.clauses ≡ self.old.kept.clauses ++ named_from self.old.kept.named (length self.old.kept.clauses) (gate_clauses v x y)) }
        ensures base { self.new.base ≡ self.old.base }
        ensures writes { self.new.writes ≡ self.old.writes }
        ensures named { self.new.kept.named ≡ self.old.kept.named }
        ensures count { self.new.count ≡ self.old.count }
    {
        self.kept.push(&[v.opposite(), x])?;
        self.kept.push(&[v.opposite(), y])?;
        self.kept.push(&[v, x.opposite(), y.opposite()])
    }

    /// Keeps the clauses of v = AND(x, y).
    #[inline(always)]
    #[tactic(auto, using(crate::proofs::GateSteps::kept))]
    fn keep_gate(&mut self, v: Lit, x: Lit, y: Lit) -> Result<(), NoMemory>
        requires distinct { AllDistinct (gate_clauses v x y) }
        ensures kept { OnOk result (self.new.kept.clauses ≡ self.old.kept.clauses ++ named_from self.old.kept.named (length self.old.kept.clauses) (gate_clauses v x y)) }
        ensures base { self.new.base ≡ self.old.base }
        ensures writes { self.new.writes ≡ self.old.writes }
        ensures named { self.new.kept.named ≡ self.old.kept.named }
        ensures count { self.new.count ≡ self.old.count }
    {
        if self.kept.skips_three() {
            self.kept.push_three_empty()
        } else {
            self.push_gate(v, x, y)
        }
    }

    /// Takes the clauses of v = AND(x, y), of which none is a constant: no clause is looked at twice.
    #[inline(always)]
    #[tactic(auto, using(crate::proofs::GateSteps::taken))]
    pub(crate) fn gate(&mut self, v: Lit, x: Lit, y: Lit) -> Result<(), FormErr>
        requires distinct { AllDistinct (gate_clauses v x y) }
        ensures ok { OnOk result (sunk_of self.new ≡ after (sunk_of self.old) (gate_clauses v x y)) }
        ensures err { IfErr result (λ e. IsRefused e (64000000 < (after (sunk_of self.old) (gate_clauses v x y)).count)) }
    {
        if LITERALS - self.count < GATE {
            return Err(FormErr::Literals);
        }
        if self.writes {
            self.keep_gate(v, x, y)?;
        }
        self.count += GATE;
        Ok(())
    }
}
