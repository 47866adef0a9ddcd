//! A search that goes on from a session.
ghost use Rattle.std.specs.Prelude.{◌≡◌, ◌<◌, ◌≤◌, IfErr, IfOk, true};
ghost use Rattle.debug_core.specs.Debugging.{Begins, IsDebugger};
ghost use Rattle.debug_core.specs.Sessions.{GoesOnFrom, MayGoOn};
ghost use Rattle.debug_core.specs.Problems.{IsProblem, problem_of};
ghost use Rattle.list_writer.specs.Jobs.{asked_of, session_of};
ghost use Rattle.refusal.specs.Ends.{CountsOf, HasCause, HasStatus, IsMemory, IsSpared};
ghost use Rattle.requests.specs.Views.{session_names};
ghost use Rattle.find_cmd.specs.Parts.{CanBeTaken, HasFew, HasResumed, IsTaken, NotTaken, session_in};
ghost use Rattle.find_cmd.specs.Sessions.{BeginsWith};

use crate::session::{Taken, take_session};
use clause_base::Log;
use debug_core::Debugger;
use design_core::SetWithValues;
use io_ports::Shelf;
use list_writer::{Job, Task};
use load_problem::problem_line;
use loc_base::{Gate, NoMemory, Workers};
use refusal::{LastLine, Notes};
use requests::SessionNames;
use std::alloc::Global;
use std::thread::Threads;

/// A search that goes on from a session: it begins near the last of its sets.
fn going_on_near<'a>(
    search: Debugger<'a>,
    found: &[SetWithValues],
    log: &Log,
) -> Result<Debugger<'a>, NoMemory>
    requires { MayGoOn search log.now }
    ensures goes_on { IfOk result (GoesOnFrom search.entry log.now) }
    ensures holds { IfOk result IsDebugger }
{
    let mut search = search;
    if let Some(set) = found.last() {
        search.settle(set)?;
    }
    search.resume(log)
}

/// The listing of a job whose search goes on from what is taken up.
fn going_on<'a>(
    job: Job<'a>,
    search: Debugger<'a>,
    taken: Taken,
) -> Result<Task<'a, Debugger<'a>>, LastLine>
    requires begins { Begins (problem_of job.question) search }
    requires holds { IsDebugger search }
    requires taken { IsTaken (problem_of job.question) (session_in taken) }
    ensures job { IfOk result (λ task. asked_of task.job ≡ asked_of job.entry) }
    ensures resumed { IfOk result (λ task. HasResumed (problem_of job.entry.question) task.found.items task.search) }
    ensures session { IfOk result (λ task. session_of task.found.items task.search ≡ session_in taken) }
    ensures memory { IfErr result IsMemory }
{
    let Taken { found, log } = taken;
    match going_on_near(search, found.as_slice(), &log.log) {
        Ok(search) => Ok(Task { job, search, found }),
        Err(NoMemory) => Err(LastLine::Memory),
    }
}

/// The listing of a job whose search goes on from the session of the names. The first that is refused ends the run, in the order in which
/// a session is taken up. The search is made when the session has been.
pub(crate) fn resumed<'a, R: Threads + Sync, G: Gate + Sync, S: Shelf, N: Notes>(
    alloc: Global,
    workers: &Workers<'_, R, G>,
    job: Job<'a>,
    names: &SessionNames,
    shelf: &mut S,
    notes: &mut N,
) -> Result<Task<'a, Debugger<'a>>, LastLine>
    requires some { 0 < workers.now.count }
    requires most { workers.now.count ≤ 64 }
    requires problem { IsProblem (problem_of job.question) }
    requires few { HasFew (problem_of job.question) }
    ensures tells { S.tells shelf.new ≡ S.tells shelf.old }
    ensures texts { S.texts shelf.new ≡ S.texts shelf.old }
    ensures written { S.written shelf.new ≡ S.written shelf.old }
    ensures counts { CountsOf (S.faults shelf.old) (S.faults shelf.new) result }
    ensures status { IfErr result HasStatus }
    ensures job { IfOk result (λ task. asked_of task.job ≡ asked_of job.entry) }
    ensures resumed { IfOk result (λ task. HasResumed (problem_of job.entry.question) task.found.items task.search) }
    ensures session { S.tells shelf.old ≡ true → IfOk result (λ task. BeginsWith (session_names names.now) (S.texts shelf.old)
        (problem_of job.entry.question) job.entry.inputs (session_of task.found.items task.search)) }
    ensures refused { S.tells shelf.old ≡ true → IfErr result (HasCause (NotTaken (session_names names.now) (S.texts shelf.old)
        (problem_of job.entry.question) job.entry.inputs)) }
    ensures only { S.tells shelf.old ≡ true
        → CanBeTaken (session_names names.now) (S.texts shelf.old) (problem_of job.entry.question) job.entry.inputs
        → IfErr result IsSpared }
{
    let taken = take_session(alloc, workers, &job, names, shelf, notes)?;
    match Debugger::new(alloc, &job.question) {
        Ok(search) => going_on(job, search, taken),
        Err(fault) => Err(problem_line(alloc, fault, notes)),
    }
}
