//! The first four conditions, one after another.

ghost use Rattle.std.specs.Prelude.{◌<◌, ◌≤◌, IfOk, length};
ghost use Rattle.list_verdict.specs.Claims.{CanBeJudged, claim_of};
ghost use Rattle.list_verdict.specs.Conditions.{AreInOrder, AreRight, NoneHolds};
ghost use Rattle.list_verdict.specs.Faults.{AreFound, Examines};
ghost use Rattle.list_verdict.specs.Judging.{IsNamedForm, LogSays, SaysFault, ValuesSay};

use crate::fault::ListFault;
use crate::holding::first_to_hold;
use crate::log::blocks_of;
use crate::order::{Order, ordered};
use crate::verdict::Listed;
use clause_base::Form;
use cycle_sim::Miss;
use design_core::SetWithValues;
use loc_base::{Gate, NoMemory, Workers};
use parallel_replay::{Trial, replay_all};
use proof_check::{BadStep, Claim, check_log_parallel, named};
use std::alloc::Global;
use std::thread::Threads;

/// The form of what was asked, in which only the clauses that the log names are made: the others are empty.
fn named_form(alloc: Global, listed: &Listed<'_>) -> Result<Form, NoMemory>
    requires { CanBeJudged listed.now }
    ensures { IfOk result (IsNamedForm listed.now.plan.now listed.now.log.now) }
{
    let most = listed.plan.most_clauses() as usize;
    let marks = named(alloc, listed.log, most)?;
    listed.plan.named(alloc, marks)
}

/// The first step of the log that is refused, after the form and with the blocks of all sets. Of the form it looks only at the clauses
/// that the log names.
fn first_refused<R: Threads + Sync, G: Gate + Sync>(
    alloc: Global,
    workers: &Workers<'_, R, G>,
    listed: &Listed<'_>,
) -> Result<Option<BadStep>, NoMemory>
    requires can { CanBeJudged listed.now }
    requires some { 0 < workers.now.count }
    requires most { workers.now.count ≤ 64 }
    requires in_order { AreInOrder (claim_of listed.now) }
    ensures { IfOk result (LogSays (claim_of listed.now)) }
{
    let blocks = blocks_of(alloc, listed.sets)?;
    let form = named_form(alloc, listed)?;
    // With the number of clauses and steps comes that no clause has a variable twice.
    let _clauses = form.clauses.len();
    let _steps = listed.log.len();
    let claim = Claim {
        form: &form,
        blocks: &blocks,
        log: listed.log,
    };
    check_log_parallel(alloc, workers, &claim)
}

/// The first set with whose values a trace isn't right, by its place from 0, with its least miss.
fn first_missing<R: Threads + Sync, G: Gate + Sync>(
    alloc: Global,
    workers: &Workers<'_, R, G>,
    listed: &Listed<'_>,
    found: &[SetWithValues],
) -> Result<Option<(u32, Miss)>, NoMemory>
    requires can { CanBeJudged listed.now }
    requires some { 0 < workers.now.count }
    requires most { workers.now.count ≤ 64 }
    requires found { AreFound (claim_of listed.now) (length listed.now.sets.now) found.now }
    ensures { IfOk result (ValuesSay (claim_of listed.now)) }
{
    let question = listed.question;
    let trial = Trial {
        design: question.design,
        order: question.order,
        traces: question.traces,
    };
    replay_all(alloc, workers, &trial, found)
}

/// The first of the conditions on the log of sets that are in order, hold none of each other, and make the traces right.
#[tactic(auto, using(crate::proofs::Examined::log_rules))]
fn log_fault<R: Threads + Sync, G: Gate + Sync>(
    alloc: Global,
    workers: &Workers<'_, R, G>,
    listed: &Listed<'_>,
) -> Result<Option<ListFault>, NoMemory>
    requires can { CanBeJudged listed.now }
    requires some { 0 < workers.now.count }
    requires most { workers.now.count ≤ 64 }
    requires in_order { AreInOrder (claim_of listed.now) }
    requires none_holds { NoneHolds listed.now.sets.now }
    requires right { AreRight (claim_of listed.now) }
    ensures { IfOk result (SaysFault (claim_of listed.now)) }
{
    match first_refused(alloc, workers, listed)? {
        Some(bad) => Ok(Some(ListFault::Step { number: bad.n })),
        None => Ok(None),
    }
}

/// The first fault of sets that are in order, and hold none of each other.
#[tactic(auto, using(crate::proofs::Examined::values_rules))]
fn values_fault<R: Threads + Sync, G: Gate + Sync>(
    alloc: Global,
    workers: &Workers<'_, R, G>,
    listed: &Listed<'_>,
    found: &[SetWithValues],
) -> Result<Option<ListFault>, NoMemory>
    requires can { CanBeJudged listed.now }
    requires some { 0 < workers.now.count }
    requires most { workers.now.count ≤ 64 }
    requires in_order { AreInOrder (claim_of listed.now) }
    requires found { AreFound (claim_of listed.now) (length listed.now.sets.now) found.now }
    requires none_holds { NoneHolds listed.now.sets.now }
    ensures { IfOk result (SaysFault (claim_of listed.now)) }
{
    match first_missing(alloc, workers, listed, found)? {
        Some((place, miss)) => Ok(Some(ListFault::Replay {
            set: place + 1,
            miss,
        })),
        None => log_fault(alloc, workers, listed),
    }
}

/// The first fault of sets that are in order.
#[tactic(auto, using(crate::proofs::Examined::sets_rules))]
fn sets_fault<R: Threads + Sync, G: Gate + Sync>(
    alloc: Global,
    workers: &Workers<'_, R, G>,
    listed: &Listed<'_>,
    found: &[SetWithValues],
) -> Result<Option<ListFault>, NoMemory>
    requires can { CanBeJudged listed.now }
    requires some { 0 < workers.now.count }
    requires most { workers.now.count ≤ 64 }
    requires in_order { AreInOrder (claim_of listed.now) }
    requires found { AreFound (claim_of listed.now) (length listed.now.sets.now) found.now }
    ensures { IfOk result (SaysFault (claim_of listed.now)) }
{
    match first_to_hold(listed.sets) {
        Some(holding) => Ok(Some(ListFault::Contains {
            set: holding.set,
            other: holding.other,
        })),
        None => values_fault(alloc, workers, listed, found),
    }
}

/// Sets that are in order with their values, where the other conditions hold too.
#[tactic(auto, using(crate::proofs::Examined::found_rules))]
fn faultless<R: Threads + Sync, G: Gate + Sync>(
    alloc: Global,
    workers: &Workers<'_, R, G>,
    listed: &Listed<'_>,
    found: Vec<SetWithValues>,
) -> Result<Result<Vec<SetWithValues>, ListFault>, NoMemory>
    requires can { CanBeJudged listed.now }
    requires some { 0 < workers.now.count }
    requires most { workers.now.count ≤ 64 }
    requires in_order { AreInOrder (claim_of listed.now) }
    requires found { AreFound (claim_of listed.now) (length listed.now.sets.now) found.items }
    ensures { IfOk result (Examines (claim_of listed.now)) }
{
    match sets_fault(alloc, workers, listed, &found)? {
        Some(fault) => Ok(Err(fault)),
        None => Ok(Ok(found)),
    }
}

/// The sets with the values that their texts say, where the first four conditions hold: they are in order, none holds another, each makes
/// the traces right, and the log is accepted with their blocks. Else the first of these that fails. The answer is the same for every
/// number of workers and every gate.
#[tactic(auto, using(crate::proofs::Examined::examine_rules))]
pub fn examine<R: Threads + Sync, G: Gate + Sync>(
    alloc: Global,
    workers: &Workers<'_, R, G>,
    listed: &Listed<'_>,
) -> Result<Result<Vec<SetWithValues>, ListFault>, NoMemory>
    requires can { CanBeJudged listed.now }
    requires some { 0 < workers.now.count }
    requires most { workers.now.count ≤ 64 }
    ensures { IfOk result (Examines (claim_of listed.now)) }
{
    match ordered(alloc, listed)? {
        Order::In { found } => faultless(alloc, workers, listed, found),
        Order::OutOf { set } => Ok(Err(ListFault::Order { set })),
    }
}
