ghost use Rattle.std.specs.Prelude.{◌≡◌, ◌↔◌, ◌<◌, false, length, IsTrue, IfErr, IfOk, OnErr, OnOk};
ghost use Rattle.card_counter.specs.Shows.{Shows, last_of};
ghost use Rattle.debug_core.specs.Problems.{IsProblem, IsRefused, problem_of, suspect_count};
ghost use Rattle.debug_core.specs.Debugging.{Begins, FindsNothing, FinishedSome, Gives, HasCountedLog, HasRoom, IsDebugger, Searches, StaysEnded, with_appended};
ghost use Rattle.debug_core.specs.Sessions.{GoesOnFrom, MayGoOn};
ghost use Rattle.debug_core.specs.Standing.{Leaves, Stands, problem_in, state_in};

use crate::encoding::Encoding;
use crate::error::DebugErr;
use crate::found::Found;
use crate::question::Question;
use clause_base::{Form, Log};
use design_core::SetWithValues;
use loc_base::NoMemory;
use sat_core::Budget;
use set_enum::{Enumerator, Members, Next};
use std::alloc::Global;
use std::marker::Model;

/// The list of the minimal sets of suspects that can explain the traces, one after another, with a log that shows it.
///
/// Contracts see it as a `DebugState`.
// Its `drop` is derived, since `resume` takes it apart.
#[derive(Drop)]
pub struct Debugger<'a> {
    alloc: Global,
    encoding: Encoding<'a>,
    search: Search,
}

/// A search for sets, and the certificate of the last one that it found, as it was before the set was blocked.
#[derive(Drop)]
pub(crate) struct Search {
    pub(crate) enumerator: Enumerator,
    pub(crate) certificate: Log,
    /// How many of the certificate's steps the log has.
    pub(crate) appended: usize,
    /// Whether the log has a step of any certificate that this search found.
    pub(crate) finished: bool,
    /// How many of the log's first steps are those of the session that it goes on from.
    pub(crate) imported: usize,
}

impl<'a> Model for Debugger<'a> {
    ghost use Rattle.std.specs.Coded.{codes};
    ghost use Rattle.design_core.specs.contracts.expression.Node as node;
    ghost use Rattle.design_core.specs.contracts.statement.Stmt as stmt;
    ghost use Rattle.debug_core.specs.Debugging.{DebugState};
    ghost use Rattle.debug_core.specs.Standing.{Stands, problem_in, state_in};

    ghost Value = { DebugState };

    ghost coded = { Prim.hlevel (codes, node.the_row.coded, stmt.the_row.coded) };

    ghost view = { λ d. state_in (problem_in d.encoding) d.encoding.form d.search };

    ghost invariant = { λ d. Stands (problem_in d.encoding) d.encoding.form d.encoding.unrolled d.search };
}

impl<'a> Debugger<'a> {
    /// A debugger of what is asked, with an empty log and no set yet. It is refused, in this order, exactly where the circuit of the
    /// design would have more than 4,000,000 AND and free nodes, the form more than 4,000,000 variables, or its clauses more than
    /// 64,000,000 literals.
    pub fn new(alloc: Global, question: &Question<'a>) -> Result<Debugger<'a>, DebugErr>
        requires { IsProblem (problem_of question.now) }
        ensures begins { IfOk result (Begins (problem_of question.now)) }
        ensures holds { IfOk result IsDebugger }
        ensures err { IfErr result (IsRefused (problem_of question.now)) }
    {
        let encoding = Encoding::new(alloc, question)?;
        let suspects = question.groups.len() as u32;
        let enumerator = Enumerator::new(alloc, &encoding.form, suspects, question.k)?;
        let search = Search {
            enumerator,
            certificate: Log::new(alloc),
            appended: 0,
            finished: false,
            imported: 0,
        };
        Ok(Debugger {
            alloc,
            encoding,
            search,
        })
    }

    /// Lets the next search begin near a set with its values: each variable is first given the value that follows from them.
    pub fn settle(&mut self, set: &SetWithValues) -> Result<(), NoMemory>
        ensures same { self.new ≡ self.old }
        ensures holds { IsDebugger self.new }
    {
        let literals = self.encoding.supposed(self.alloc, set)?;
        self.search.enumerator.settle(literals.as_slice());
        Ok(())
    }

    /// A debugger that has just begun goes on from a session, whose log is given: the log has these steps, and the sets whose blocks they
    /// are are listed. The sizes are searched from 0 again. After `NoMemory` it is gone.
    pub fn resume(self, log: &Log) -> Result<Debugger<'a>, NoMemory>
        requires { MayGoOn self log.now }
        ensures goes_on { IfOk result (GoesOnFrom self.entry log.now) }
        ensures holds { IfOk result IsDebugger }
    {
        let Debugger {
            alloc,
            encoding,
            search,
        } = self;
        let Search { mut enumerator, .. } = search;
        enumerator.import(log)?;
        let search = Search {
            enumerator,
            certificate: Log::new(alloc),
            appended: 0,
            finished: false,
            imported: log.len(),
        };
        Ok(Debugger {
            alloc,
            encoding,
            search,
        })
    }

    /// The next set of the list with values that make every trace right, or that the list is whole, or that the budget is spent. It
    /// adds as many learned steps as it takes units. After `NoMemory` no set is lost, and it may be called again. Once it has
    /// answered `End` it answers nothing else.
    pub fn next(&mut self, budget: &mut Budget) -> Result<Found, NoMemory>
        requires { HasRoom self.old budget.old }
        ensures holds { IsDebugger self.new }
        ensures searches { Searches self.old self.new budget.old budget.new }
        ensures gives { IfOk result (Gives self.old self.new budget.new) }
        ensures err { OnErr result (FindsNothing self.old self.new) }
        ensures ended { StaysEnded self.old self.new result }
    {
        advance(self.alloc, &self.encoding, &mut self.search, budget)
    }

    /// The steps that `finish` would append now: with them the log shows that no set is missing before the last one that was listed.
    pub fn certificate(&self) -> Result<Log, NoMemory>
        ensures { IfOk result (λ steps. steps ≡ self.now.certificate) }
    {
        let kept = &self.search.certificate;
        let first = self.search.appended;
        let mut steps = Log::new(self.alloc);
        for place in first..kept.len() {
            steps.push(kept.kind(place), kept.clause(place), kept.chain(place))?;
        }
        Ok(steps)
    }

    /// Appends the steps of the last set's certificate, none where no set was listed. After `NoMemory` the first of them are appended, some
    /// or none, and it may be called again.
    pub fn finish(&mut self) -> Result<(), NoMemory>
        requires { self.old.ended ≡ false }
        ensures holds { IsDebugger self.new }
        ensures ok { OnOk result (self.new ≡ with_appended self.old (length self.old.certificate)) }
        ensures err { OnErr result (FinishedSome self.old self.new) }
        ensures shows { OnOk result (Shows (suspect_count self.new.problem) self.new.problem.k (last_of self.new.listed) self.new.log) }
        ensures counted { OnOk result (self.old.finished ≡ false → HasCountedLog self.new) }
    {
        for _ in self.search.appended..self.search.certificate.len() {
            self.append_step()?;
        }
        Ok(())
    }

    /// Appends the next step of the certificate. Unchanged after `NoMemory`.
    fn append_step(&mut self) -> Result<(), NoMemory>
        requires goes_on { self.old.ended ≡ false }
        requires some { 0 < length self.old.certificate }
        ensures holds { IsDebugger self.new }
        ensures ok { OnOk result (self.new ≡ with_appended self.old 1) }
        ensures err { OnErr result (self.new ≡ self.old) }
    {
        let search = &mut self.search;
        // So many steps have places of 64 bits.
        let _steps = search.certificate.len();
        search
            .enumerator
            .take_over(&search.certificate, search.appended)?;
        search.appended += 1;
        search.finished = true;
        Ok(())
    }

    /// Whether `next` may be called with this budget: the clauses of the form, the steps of the log, the units, the suspects and
    /// 16 more are together fewer than 2^32.
    pub fn has_room(&self, budget: &Budget) -> bool
        ensures { IsTrue result ↔ HasRoom self.now budget.now }
    {
        let clauses = self.encoding.form.clauses.len() as u128;
        let steps = self.search.enumerator.log().len() as u128;
        let suspects = self.encoding.question.groups.len() as u128;
        clauses + steps + u128::from(budget.left()) + suspects + 16 < 1 << 32
    }

    /// The form, whose first variables are the suspects' selectors.
    pub fn form(&self) -> &Form
        ensures variables { result.now.vars ≡ self.now.vars }
        ensures clauses { result.now.clauses ≡ self.now.form }
    {
        &self.encoding.form
    }

    /// The steps so far.
    pub fn log(&self) -> &Log
        ensures value { result.now ≡ self.now.log }
        ensures holds { IsDebugger self.now }
    {
        self.search.enumerator.log()
    }
}

/// The next set of a search of the form, with its values. It is blocked once its values and its certificate are there, so that want of
/// memory loses none.
fn advance(
    alloc: Global,
    encoding: &Encoding<'_>,
    search: &mut Search,
    budget: &mut Budget,
) -> Result<Found, NoMemory>
    requires standing { Stands (problem_in encoding.now) encoding.now.form encoding.now.unrolled search.old }
    requires room { HasRoom (state_in (problem_in encoding.now) encoding.now.form search.old) budget.old }
    ensures standing { Stands (problem_in encoding.now) encoding.now.form encoding.now.unrolled search.new }
    ensures leaves { Leaves (problem_in encoding.now) encoding.now.form search.old search.new budget.old budget.new result }
{
    match search.enumerator.next(budget)? {
        Next::Set { members } => {
            let values = encoding.values(alloc, search.enumerator.model(), members.as_slice())?;
            let certificate = search.enumerator.certificate()?;
            search.enumerator.block()?;
            search.certificate = certificate;
            search.appended = 0;
            Ok(Found::Set(SetWithValues { members, values }))
        }
        Next::Closed => Ok(Found::End),
        Next::Spent => Ok(Found::Spent),
    }
}
