//! What is taken up of a session: its sets with their values, and its log.
ghost use Rattle.std.specs.Prelude.{◌≡◌, ◌<◌, ◌≤◌, IfErr, IfOk, length, true};
ghost use Rattle.proof_check.specs.Text.{IsLogText};
ghost use Rattle.debug_core.specs.Problems.{IsFormFor, IsProblem, problem_of};
ghost use Rattle.list_session.specs.Taken.{IsTakenUp};
ghost use Rattle.list_session.specs.Unfit.{UnfitRefused};
ghost use Rattle.list_verdict.specs.Verdicts.{IsFrontShown};
ghost use Rattle.refusal.specs.Ends.{CountsOf, HasCause, HasStatus, IsMemory, IsSpared};
ghost use Rattle.requests.specs.Views.{session_names};
ghost use Rattle.session_reading.specs.Refusals.{AreSame};
ghost use Rattle.find_cmd.specs.Parts.{CanBeTaken, HasFew, IsReadyFor, IsTaken, NotGiven, NotTaken, evidence_of, most_kept, session_in};
ghost use Rattle.find_cmd.specs.Sessions.{AreIn, BeginsWith, claim_of, digests_of};

use debug_core::FormPlan;
use design_core::SetWithValues;
use io_ports::Shelf;
use list_session::session_sets;
use list_verdict::Listed;
use list_writer::Job;
use load_problem::form_plan;
use loc_base::{Digest, Gate, Workers};
use proof_check::types::LogText;
use refusal::{LastLine, Notes};
use report_doc::types::Report;
use requests::SessionNames;
use session_reading::{Digests, load_log, load_report, same_inputs};
use std::alloc::Global;
use std::thread::Threads;

/// A report and a log, both of the inputs.
#[derive(Drop)]
pub(crate) struct Given {
    pub(crate) report: Report,
    pub(crate) log: LogText,
}

/// What a list goes on from: the sets that an earlier one found, with their values, and its log.
#[derive(Drop)]
pub(crate) struct Taken {
    pub(crate) found: Vec<SetWithValues>,
    pub(crate) log: LogText,
}

/// The most sets, and the most steps, that are gone on from. No text that is read has so many.
const MOST_KEPT: usize = 1_073_741_824;

/// The report and the log of the texts under the names, both of the inputs. The first that is refused ends the reading, in this
/// order: the report's text, the log's text, the digests.
fn load_session<R: Threads + Sync, G: Gate + Sync, S: Shelf, N: Notes>(
    alloc: Global,
    workers: &Workers<'_, R, G>,
    names: &SessionNames,
    inputs: Digest,
    shelf: &mut S,
    notes: &mut N,
) -> Result<Given, LastLine>
    requires { 0 < workers.now.count }
    ensures tells { S.tells shelf.new ≡ S.tells shelf.old }
    ensures texts { S.texts shelf.new ≡ S.texts shelf.old }
    ensures written { S.written shelf.new ≡ S.written shelf.old }
    ensures counts { CountsOf (S.faults shelf.old) (S.faults shelf.new) result }
    ensures status { IfErr result HasStatus }
    ensures log { IfOk result (λ given. IsLogText given.log) }
    ensures few_sets { IfOk result (λ given. length given.report.sets ≤ most_kept) }
    ensures few_steps { IfOk result (λ given. length given.log.log ≤ most_kept) }
    ensures same { IfOk result (λ given. AreSame (digests_of inputs (evidence_of given))) }
    ensures means { S.tells shelf.old ≡ true
        → IfOk result (λ given. AreIn (session_names names.now) (S.texts shelf.old) (evidence_of given)) }
    ensures refused { S.tells shelf.old ≡ true
        → IfErr result (HasCause (NotGiven (session_names names.now) (S.texts shelf.old) inputs)) }
    ensures only { S.tells shelf.old ≡ true
        → IsReadyFor (session_names names.now) (S.texts shelf.old) inputs → IfErr result IsSpared }
{
    let report = load_report(alloc, names.report.as_str(), shelf, notes)?;
    let log = load_log(alloc, workers, names.log.as_str(), shelf, notes)?;
    same_inputs(
        alloc,
        &Digests {
            report: report.inputs,
            log: log.inputs,
            inputs,
        },
    )?;
    if report.sets.len() > MOST_KEPT {
        return Err(LastLine::Memory);
    }
    if log.log.len() > MOST_KEPT {
        return Err(LastLine::Memory);
    }
    Ok(Given { report, log })
}

/// The sets of the report with their values, where the list goes on from them and the log.
fn sets_in<R: Threads + Sync, G: Gate + Sync>(
    alloc: Global,
    workers: &Workers<'_, R, G>,
    job: &Job<'_>,
    plan: &FormPlan,
    given: &Given,
) -> Result<Vec<SetWithValues>, LastLine>
    requires some { 0 < workers.now.count }
    requires most { workers.now.count ≤ 64 }
    requires problem { IsProblem (problem_of job.now.question) }
    requires form { IsFormFor (problem_of job.now.question) plan.now.vars plan.now.clauses }
    requires few { HasFew (problem_of job.now.question) }
    requires log { IsLogText given.now.log }
    requires few_sets { length given.now.report.sets ≤ most_kept }
    requires few_steps { length given.now.log.log ≤ most_kept }
    ensures taken { IfOk result (λ found. IsTakenUp
        (claim_of (problem_of job.now.question) plan.now.clauses (evidence_of given.now)) found.items) }
    ensures status { IfErr result HasStatus }
    ensures refused { IfErr result (HasCause (UnfitRefused
        (claim_of (problem_of job.now.question) plan.now.clauses (evidence_of given.now)))) }
    ensures only { IsFrontShown (claim_of (problem_of job.now.question) plan.now.clauses (evidence_of given.now))
        → IfErr result IsMemory }
{
    session_sets(
        alloc,
        workers,
        &Listed {
            question: &job.question,
            plan,
            sets: given.report.sets.as_slice(),
            log: &given.log.log,
        },
    )
}

/// What is taken up of the session of the names. The first that is refused ends the run, in this order: the problem, by the limits of its
/// form; the report's text, the log's text, the digests; the sets, by the conditions under which a list goes on from them.
pub(crate) fn take_session<R: Threads + Sync, G: Gate + Sync, S: Shelf, N: Notes>(
    alloc: Global,
    workers: &Workers<'_, R, G>,
    job: &Job<'_>,
    names: &SessionNames,
    shelf: &mut S,
    notes: &mut N,
) -> Result<Taken, LastLine>
    requires some { 0 < workers.now.count }
    requires most { workers.now.count ≤ 64 }
    requires problem { IsProblem (problem_of job.now.question) }
    requires few { HasFew (problem_of job.now.question) }
    ensures tells { S.tells shelf.new ≡ S.tells shelf.old }
    ensures texts { S.texts shelf.new ≡ S.texts shelf.old }
    ensures written { S.written shelf.new ≡ S.written shelf.old }
    ensures counts { CountsOf (S.faults shelf.old) (S.faults shelf.new) result }
    ensures status { IfErr result HasStatus }
    ensures taken { IfOk result (λ taken. IsTaken (problem_of job.now.question) (session_in taken)) }
    ensures session { S.tells shelf.old ≡ true → IfOk result (λ taken. BeginsWith (session_names names.now) (S.texts shelf.old)
        (problem_of job.now.question) job.now.inputs (session_in taken)) }
    ensures refused { S.tells shelf.old ≡ true → IfErr result (HasCause (NotTaken (session_names names.now) (S.texts shelf.old)
        (problem_of job.now.question) job.now.inputs)) }
    ensures only { S.tells shelf.old ≡ true
        → CanBeTaken (session_names names.now) (S.texts shelf.old) (problem_of job.now.question) job.now.inputs
        → IfErr result IsSpared }
{
    let plan = form_plan(alloc, &job.question, notes)?;
    let given = load_session(alloc, workers, names, job.inputs, shelf, notes)?;
    let found = sets_in(alloc, workers, job, &plan, &given)?;
    let Given { log, .. } = given;
    Ok(Taken { found, log })
}
