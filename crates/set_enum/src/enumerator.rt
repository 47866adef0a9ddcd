//! Sets are listed by size: at size j the solver assumes that at most j selectors are true, and prefers them true in ascending order.
//! So the sets of one size come by their members, each in its turn once the sets before it are blocked. A size is closed by a derived
//! step whose clause is its bound alone, or empty, which closes all sizes.

ghost use Rattle.std.specs.Prelude.{◌≡◌, ◌+◌, ◌^◌, ◌<◌, ◌≤◌, length, IfOk, OnOk, OnErr, IsSome, true, [], ◌∷◌};
ghost use Rattle.std.specs.Option.{unwrap_or};

use crate::search::{assumption, size_after, solve_under};
use crate::selections::{block_of, members_of, numbers_to, passed_over};
use clause_base::{Form, Lit, Log};
use loc_base::{Items, NoMemory};
use sat_core::{Budget, Solver, Verdict};
use std::alloc::Global;
use std::marker::Model;

/// The members of a set: numbers of selectors, ascending.
pub type Members = Items<u32>;

/// What a search for the next set comes to.
#[derive(Drop)]
pub enum Next {
    /// The next set. It isn't blocked yet.
    Set { members: Members },
    /// There is no further set, and the log shows it.
    Closed,
    /// No unit of the budget is left.
    Spent,
}

/// The sets of selectors that the assignments of a form have true, of at most `k` members, by size and then by members.
///
/// Contracts see it as an `EnumState`.
pub struct Enumerator {
    alloc: Global,
    solver: Solver,
    n: u32,
    k: u32,
    /// The size that is searched; the sizes below it are closed.
    size: u32,
    /// Whether the last model's set is the last answer, and isn't blocked yet.
    found: bool,
}

// A `drop` is written out, so that it is proved once, here: a derived one is proved again by each crate that lets a value go.
impl Drop for Enumerator {
    fn drop(self) {
        let Enumerator {
            alloc: _,
            solver: _,
            n: _,
            k: _,
            size: _,
            found: _,
        } = self;
    }
}

impl Model for Enumerator {
    ghost use Rattle.set_enum.specs.EnumState.{EnumState};
    ghost use Rattle.set_enum.specs.Standing.{IsStanding, state_of};

    ghost Value = { EnumState };

    ghost view = { λ e. state_of e.n e.k e.size e.found e.solver };

    ghost invariant = { λ e. IsStanding e.n e.k e.size e.found e.solver };
}

impl Enumerator {
    ghost use Rattle.clause_base.specs.Literal.{AreWithin, IsWithin};
    ghost use Rattle.clause_base.specs.Steps.{step_at};
    ghost use Rattle.card_counter.specs.InForm.{HasCounter};
    ghost use Rattle.set_enum.specs.Certificate.{IsCertificate};
    ghost use Rattle.set_enum.specs.EnumState.{IsEnum, MayBeImported, MayBeTakenOver, ImportedSome, begun, blocked, untold, with_imported};
    ghost use Rattle.set_enum.specs.Outcome.{Adds, Gives, IsOpen, StaysClosed};
    ghost use Rattle.set_enum.specs.Standing.{Advances};

    /// An enumerator of a form whose variables from 1 to `n` are selectors, with their counter, which counts up to `k + 1`, behind
    /// them. It has no step yet.
    pub fn new(alloc: Global, form: &Form, n: u32, k: u32) -> Result<Enumerator, NoMemory>
        requires within { AreWithin form.now.vars form.now.clauses }
        requires counter { HasCounter n k form.now.vars form.now.clauses }
        requires size { k ≤ 8 }
        requires clauses_fit { length form.now.clauses < 2 ^ 32 }
        ensures begins { IfOk result (λ e. e ≡ begun form.now.vars form.now.clauses n k) }
        ensures holds { IfOk result IsEnum }
    {
        let preferred = numbers_to(alloc, n)?;
        let solver = Solver::new(alloc, form, preferred.as_slice())?;
        Ok(Enumerator {
            alloc,
            solver,
            n,
            k,
            size: 0,
            found: false,
        })
    }

    /// The next set, or that there is none, or that the budget is spent. A set that isn't blocked is found again. Whatever it
    /// answers, it adds as many learned steps as it takes units. After `NoMemory` the log has grown by accepted steps only, and it
    /// may be called again.
    pub fn next(&mut self, budget: &mut Budget) -> Result<Next, NoMemory>
        requires clauses_fit { length self.old.form + length self.old.log + budget.old + 16 < 2 ^ 32 }
        ensures holds { IsEnum self.new }
        ensures adds { Adds self.old self.new budget.old budget.new }
        ensures gives { IfOk result (Gives self.old self.new budget.new) }
        ensures err { OnErr result (IsOpen self.old self.new) }
        ensures ended { StaysClosed self.old self.new result }
    {
        while self.size <= self.k {
            if let Some(answer) = self.advance(budget)? {
                return Ok(answer);
            }
        }
        Ok(Next::Closed)
    }

    /// Blocks the last set, so that neither it nor a set that contains it comes again. Unchanged after `NoMemory`.
    pub fn block(&mut self) -> Result<(), NoMemory>
        requires { IsSome self.old.last }
        ensures ok { OnOk result (self.new ≡ blocked self.old) }
        ensures err { OnErr result (self.new ≡ self.old) }
        ensures holds { IsEnum self.new }
    {
        let block = block_of(self.alloc, self.solver.model(), self.n)?;
        self.solver.add_block(&block)?;
        self.found = false;
        Ok(())
    }

    /// Lets the next search begin near the values that follow from literals.
    pub fn settle(&mut self, literals: &[Lit])
        requires within { IsWithin self.old.vars literals.now }
        ensures same { self.new ≡ untold self.old }
        ensures holds { IsEnum self.new }
    {
        self.solver.settle(literals);
    }

    /// Appends the steps of a log, whose blocks are blocks of sets. After `NoMemory` it has the first of them, some or none.
    pub fn import(&mut self, log: &Log) -> Result<(), NoMemory>
        requires { MayBeImported self.old log.now }
        ensures ok { OnOk result (self.new ≡ with_imported self.old log.now) }
        ensures err { OnErr result (ImportedSome self.old self.new log.now) }
        ensures holds { IsEnum self.new }
    {
        self.solver.import(log)
    }

    /// Appends the step at a place of a log. Unchanged after `NoMemory`.
    pub fn take_over(&mut self, log: &Log, place: usize) -> Result<(), NoMemory>
        requires place { place < length log.now }
        requires may { MayBeTakenOver self.old (step_at log.now place) }
        ensures ok { OnOk result (self.new ≡ with_imported self.old (step_at log.now place ∷ [])) }
        ensures err { OnErr result (self.new ≡ self.old) }
        ensures holds { IsEnum self.new }
    {
        self.solver.take_over(log, place)
    }

    /// The steps by which the log shows that no set is missing before the last one: one for each selector that the set passes over. They
    /// aren't appended.
    pub fn certificate(&self) -> Result<Log, NoMemory>
        requires { self.now.told ≡ true }
        ensures { IfOk result (IsCertificate self.now (unwrap_or self.now.last [])) }
    {
        let passed = passed_over(self.alloc, self.solver.model(), self.n)?;
        self.solver.explain_all(&passed)
    }

    /// The values of the variables from 1 on: all are false at first, and after a set they are those of a model of form and log
    /// whose true selectors are the members. No clause says what they are after another answer.
    pub fn model(&self) -> &[bool]
        ensures value { result.now ≡ self.now.model }
        ensures size { length self.now.model ≡ self.now.vars }
    {
        self.solver.model()
    }

    /// The steps so far.
    pub fn log(&self) -> &Log
        ensures value { result.now ≡ self.now.log }
        ensures holds { IsEnum self.now }
    {
        self.solver.log()
    }

    /// One search at the present size: an answer, or one size more is closed, or all.
    fn advance(&mut self, budget: &mut Budget) -> Result<Option<Next>, NoMemory>
        requires clauses_fit { length self.old.form + length self.old.log + budget.old + 1 < 2 ^ 32 }
        requires open_size { self.old.size ≤ self.old.k }
        ensures holds { IsEnum self.new }
        ensures adds { Adds self.old self.new budget.old budget.new }
        ensures gives { IfOk result (Advances self.old self.new budget.new) }
        ensures err { OnErr result (IsOpen self.old self.new) }
    {
        self.found = false;
        let room = Vec::with_capacity(self.alloc, self.k as usize)?;
        let assumption = assumption(self.n, self.k, self.size);
        match solve_under(&mut self.solver, assumption, budget)? {
            Verdict::Model => {
                let members = members_of(room, self.solver.model(), self.n);
                self.found = true;
                Ok(Some(Next::Set { members }))
            }
            Verdict::Closed { .. } => {
                self.size = size_after(self.solver.log(), self.k, self.size);
                Ok(None)
            }
            Verdict::Spent => Ok(Some(Next::Spent)),
        }
    }
}
