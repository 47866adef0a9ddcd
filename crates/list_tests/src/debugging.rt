//! A debugger run to its end, with a budget that is spent at once and goes on.

ghost use Rattle.std.specs.Prelude.{All};
ghost use Rattle.design_core.specs.TraceFits.{IsTraceOf};
ghost use Rattle.front_end.specs.Means.{IsReady};
ghost use Rattle.debug_core.specs.Problems.{IsProblem, problem_of};

use crate::suspects::suspects;
use debug_core::{Debugger, Found, Question, have_few_cycles};
use design_core::{SetWithValues, Trace};
use front_end::Ordered;
use sat_core::Budget;
use std::alloc::Global;
use std::test::Fail;

/// What a debugger lists, with so many units for each call, and how often none was left.
#[derive(Drop)]
pub(super) struct Run {
    pub(super) sets: Vec<SetWithValues>,
    pub(super) spent: u32,
}

/// A debugger run to its end, which is to come within 100 calls.
fn run_with(alloc: Global, question: &Question<'_>, units: u32) -> Result<Run, Fail>
    requires { IsProblem (problem_of question.now) }
{
    let mut run = Run {
        sets: Vec::new(alloc),
        spent: 0,
    };
    let Ok(mut debugger) = Debugger::new(alloc, question) else {
        return Err(Fail::new("no form"));
    };
    for call in 0..100u32 {
        let mut budget = Budget::new(if call == 0 { 0 } else { units });
        if !debugger.has_room(&budget) {
            return Err(Fail::new("no room"));
        }
        match debugger.next(&mut budget)? {
            Found::Set(set) => run.sets.push(set)?,
            Found::End => return Ok(run),
            Found::Spent => run.spent = run.spent.wrapping_add(1),
        }
    }
    Err(Fail::new("no end"))
}

/// The run for the sets of at most so many places.
pub(super) fn listed(
    alloc: Global,
    ordered: &Ordered,
    traces: &[Trace],
    size: u32,
) -> Result<Run, Fail>
    requires ready { IsReady ordered.now.design ordered.now.order }
    requires traces { All (IsTraceOf ordered.now.design) traces.now }
{
    if size > 8 || !have_few_cycles(traces) {
        return Err(Fail::new("too large"));
    }
    let groups = suspects(alloc, &ordered.design)?;
    let question = Question {
        design: &ordered.design,
        order: &ordered.order,
        traces,
        groups: &groups,
        k: size,
    };
    run_with(alloc, &question, 10)
}
