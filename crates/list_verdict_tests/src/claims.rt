//! An inverted OR whose trace shows an AND's complement, its suspects, the log of its list, and sets with texts, from letters.

ghost use Rattle.std.specs.Prelude.{All, IfOk, length};
ghost use Rattle.design_core.specs.TraceFits.{IsTraceOf};
ghost use Rattle.front_end.specs.Means.{IsReady};
ghost use Rattle.suspect_map.specs.Groups.{AreWithin};
ghost use Rattle.debug_core.specs.Problems.{IsProblem, problem_of};

use clause_base::{Log, StepKind, has_distinct_variables};
use debug_core::{Debugger, Found, Question, have_few_cycles, plan_of};
use design_core::{Design, Trace};
use front_end::Ordered;
use list_verdict::{Listed, Verdict, judge};
use loc_base::{FreeGate, Items, Rows, Workers};
use report_doc::CycleTexts;
use report_doc::types::ReportSet;
use sat_core::Budget;
use small_networks::{NetworkErr, name};
use std::alloc::Global;
use std::test::Fail;
use std::thread::Threads;
use suspect_map::{Group, Groups};

/// Each place of a design as a suspect of its own.
pub(super) fn suspects(alloc: Global, d: &Design) -> Result<Groups, NetworkErr>
    ensures { IfOk result (AreWithin (length d.now.places.items)) }
{
    let mut groups = Items::new(alloc);
    for place in 0..d.places.len().min(100) {
        let mut places = Items::new(alloc);
        places.push(place as u32)?;
        groups.push(Group {
            kind: name(alloc, "stmt")?,
            label: name(alloc, "m")?,
            places,
        })?;
    }
    Ok(groups)
}

/// A copy of so many steps of a log, one of them without its first literal.
fn copy_of(alloc: Global, log: &Log, steps: usize, shortened: usize) -> Result<Log, Fail> {
    let mut copy = Log::new(alloc);
    for place in 0..log.len().min(steps) {
        let mut literals = log.clause(place);
        if place == shortened && !literals.is_empty() {
            literals = &literals[1..];
        }
        if !has_distinct_variables(literals) {
            return Err(Fail::new("no clause"));
        }
        copy.push(log.kind(place), literals, log.chain(place))?;
    }
    Ok(copy)
}

/// The log of a debugger that is run to its end, which is to come within 100 calls.
pub(super) fn log_of(alloc: Global, question: &Question<'_>) -> Result<Log, Fail>
    requires { IsProblem (problem_of question.now) }
{
    let Ok(mut debugger) = Debugger::new(alloc, question) else {
        return Err(Fail::new("no form"));
    };
    for _call in 0..100u32 {
        let mut budget = Budget::new(100);
        if !debugger.has_room(&budget) {
            return Err(Fail::new("no room"));
        }
        match debugger.next(&mut budget)? {
            Found::Set(_set) => {}
            Found::End => {
                let log = debugger.log();
                return copy_of(alloc, log, log.len(), log.len());
            }
            Found::Spent => {}
        }
    }
    Err(Fail::new("no end"))
}

/// A set of a report: its members, and for each trace and cycle the texts of its places.
pub(super) fn set(
    alloc: Global,
    members: &[u32],
    values: &[&[&[&str]]],
) -> Result<ReportSet, Fail> {
    let mut all = Items::new(alloc);
    for trace in values {
        let mut texts = CycleTexts::new(alloc);
        for cycle in *trace {
            let mut row = Rows::new(alloc);
            for text in *cycle {
                row.push(text.as_bytes())?;
            }
            texts = texts.with(&row)?;
        }
        all.push(texts)?;
    }
    Ok(ReportSet {
        members: Items::copy_of(alloc, members)?,
        values: all,
    })
}

/// How a log is changed.
#[derive(Clone, Copy)]
pub(super) enum Change {
    Nothing,
    /// Its last step is left out.
    WithoutLast,
    /// Its first block has lost its first literal.
    WithoutLiteral,
}

/// The place of the first block, one past the last step where there is none.
fn first_block(log: &Log) -> usize {
    for place in 0..log.len() {
        if log.kind(place) == StepKind::Block {
            return place;
        }
    }
    log.len()
}

/// A copy of the log, changed.
fn changed(alloc: Global, log: &Log, change: Change) -> Result<Log, Fail> {
    match change {
        Change::Nothing => copy_of(alloc, log, log.len(), log.len()),
        Change::WithoutLast => copy_of(alloc, log, log.len().saturating_sub(1), log.len()),
        Change::WithoutLiteral => copy_of(alloc, log, log.len(), first_block(log)),
    }
}

/// The judgement on sets of at most two suspects, by the log of a debugger that was changed.
pub(super) fn judged<R: Threads + Sync>(
    rt: &R,
    alloc: Global,
    ordered: &Ordered,
    traces: &[Trace],
    sets: &[ReportSet],
    change: Change,
    workers: u32,
) -> Result<Verdict, Fail>
    requires ready { IsReady ordered.now.design ordered.now.order }
    requires traces { All (IsTraceOf ordered.now.design) traces.now }
{
    if !have_few_cycles(traces) || traces.len() > 1000 || sets.len() > 1000 {
        return Err(Fail::new("too large"));
    }
    let groups = suspects(alloc, &ordered.design)?;
    let question = Question {
        design: &ordered.design,
        order: &ordered.order,
        traces,
        groups: &groups,
        k: 2,
    };
    let log = changed(alloc, &log_of(alloc, &question)?, change)?;
    let Ok(plan) = plan_of(alloc, &question) else {
        return Err(Fail::new("no form"));
    };
    if log.len() > 1000 || workers == 0 || workers > 64 {
        return Err(Fail::new("too large"));
    }
    let workers = Workers {
        runtime: rt,
        gate: &FreeGate,
        count: workers,
    };
    let listed = Listed {
        question: &question,
        plan: &plan,
        sets,
        log: &log,
    };
    Ok(judge(alloc, &workers, &listed)?)
}
