//! Forms with their counters, and the sets that an enumerator lists of them.

ghost use Rattle.std.specs.Prelude.{◌≡◌, ◌↔◌, ◌+◌, ◌≤◌, ◌<◌, IsTrue, IfOk, length};
ghost use Rattle.card_counter.specs.Counter.{counter_clauses};
ghost use Rattle.card_counter.specs.InForm.{literals_from, HasCounter, NamesNoCounter};
ghost use Rattle.card_counter.specs.Places.{starts};
ghost use Rattle.set_enum.specs.EnumState.{begun};
ghost use Rattle.solver_tests.specs.Problems.{IsOfSameForm, IsProblem};

use card_counter::{counter, counters};
use clause_base::{Clauses, Form, Lit, are_within};
use loc_base::NoMemory;
use sat_core::Budget;
use set_enum::{Enumerator, Members, Next};
use std::alloc::Global;
use std::process::Abort;

/// The literals of the variables from 1 to `n`.
#[tactic(auto, using(crate::proofs::CounterLaws::literals_next))]
fn selectors(alloc: Global, n: u32) -> Result<Vec<Lit>, NoMemory>
    ensures { IfOk result (λ selectors. selectors.items ≡ literals_from 1 n) }
{
    let mut selectors = Vec::new(alloc);
    for before in 0..n {
        selectors.push(Lit {
            var: before + 1,
            negated: false,
        })?;
    }
    Ok(selectors)
}

/// The clauses of the counter of the variables from 1 to `n`.
fn counter_of(alloc: Global, n: u32, k: u32) -> Result<Clauses, NoMemory>
    requires small { n < 100 }
    requires few { starts k (n + 1) < 1000 }
    ensures { IfOk result (λ clauses. clauses ≡ counter_clauses (literals_from 1 n) k (n + 1)) }
{
    let selectors = selectors(alloc, n)?;
    counter(alloc, selectors.as_slice(), k, n + 1)
}

/// How many variables a form has, how many of them are selectors, and how far the selectors' counter counts.
#[derive(Clone, Copy)]
pub struct Shape {
    pub vars: u32,
    pub n: u32,
    pub k: u32,
}

/// A form with a counter of its first variables.
#[derive(Drop)]
pub struct Problem {
    pub form: Form,
    pub n: u32,
    pub k: u32,
}

/// Whether no literal is of a counter of the variables from 1 to `n`.
fn names_no_counter(literals: &[Lit], n: u32, k: u32) -> bool
    requires { starts k (n + 1) < 1000 }
    ensures { IsTrue result ↔ NamesNoCounter n k literals.now }
{
    let end = n as usize + 1 + counters(n, k);
    literals
        .iter()
        .all(|literal| literal.var <= n || end <= literal.var as usize)
}

/// The counter's clauses, and these behind them.
fn clauses_with(
    rt: &impl Abort,
    alloc: Global,
    shape: Shape,
    rest: &Clauses,
) -> Result<Clauses, NoMemory>
    ensures { IfOk result (HasCounter shape.n shape.k shape.vars) }
{
    let Shape { vars, n, k } = shape;
    assert!(rt; n < 100 && counters(n, k) < 1000);
    assert!(rt; n as usize + counters(n, k) <= vars as usize);
    let mut clauses = counter_of(alloc, n, k)?;
    for place in 0..rest.len() {
        let clause = rest.clause(place);
        assert!(rt; names_no_counter(clause, n, k));
        clauses.push(clause)?;
    }
    Ok(clauses)
}

/// The form of a counter and of these clauses.
pub fn problem_of(
    rt: &impl Abort,
    alloc: Global,
    shape: Shape,
    rest: &Clauses,
) -> Result<Problem, NoMemory>
    ensures { IfOk result (λ p. IsProblem p.form.vars p.form.clauses p.n p.k) }
{
    let Shape { vars, n, k } = shape;
    let clauses = clauses_with(rt, alloc, shape, rest)?;
    assert!(rt; k <= 8 && clauses.len() < 1000 && are_within(&clauses, vars));
    let form = Form { vars, clauses };
    Ok(Problem { form, n, k })
}

/// An enumerator of a form.
pub fn enumerator_of(alloc: Global, problem: &Problem) -> Result<Enumerator, NoMemory>
    requires { IsProblem problem.now.form.vars problem.now.form.clauses problem.now.n problem.now.k }
    ensures begins { IfOk result (λ e. e ≡ begun problem.now.form.vars problem.now.form.clauses problem.now.n problem.now.k) }
    ensures few { IfOk result (λ e. length e.form < 1000) }
{
    Enumerator::new(alloc, &problem.form, problem.n, problem.k)
}

/// How many units are to be taken at most, and how many sets listed.
#[derive(Clone, Copy)]
pub struct Limits {
    pub units: u32,
    pub sets: u32,
}

/// Why a listing ended.
#[derive(Clone, Copy)]
pub enum End {
    Closed,
    Spent,
    Enough,
}

/// The sets that were listed, and why no further one was.
#[derive(Drop)]
pub struct Listing {
    pub sets: Vec<Members>,
    pub end: End,
}

/// Lists sets, each blocked as it is found.
pub fn list_sets(
    rt: &impl Abort,
    alloc: Global,
    enumerator: &mut Enumerator,
    limits: Limits,
) -> Result<Listing, NoMemory>
    requires { length enumerator.old.form < 1000 }
    ensures { IsOfSameForm enumerator.old enumerator.new }
{
    let mut sets = Vec::new(alloc);
    let mut budget = Budget::new(limits.units);
    for _ in 0..limits.sets {
        assert!(rt; enumerator.log().len() < 100000 && budget.left() < 100000);
        match enumerator.next(&mut budget)? {
            Next::Set { members } => {
                sets.push(members)?;
                enumerator.block()?;
            }
            Next::Closed => {
                let end = End::Closed;
                return Ok(Listing { sets, end });
            }
            Next::Spent => {
                let end = End::Spent;
                return Ok(Listing { sets, end });
            }
        }
    }
    let end = End::Enough;
    Ok(Listing { sets, end })
}

/// Whether these are the sets, in order.
pub fn are_sets(sets: &[Members], expected: &[&[u32]]) -> bool {
    sets.len() == expected.len()
        && sets
            .iter()
            .zip(expected)
            .all(|(set, members)| set.as_slice() == *members)
}
