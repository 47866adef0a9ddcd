//! A run of the command.
ghost use Rattle.std.specs.Prelude.{◌<◌, ◌≤◌, ◌&&◌, IfOk, IfSome, IsNone, map};
ghost use Rattle.suspect_map.specs.Choose.{joined};
ghost use Rattle.command_contract.specs.Contract.{Keeps, counts_of, run_of};
ghost use Rattle.check_cmd.specs.Asked.{IsAsked};
ghost use Rattle.requests.specs.Views.{check_asked};
ghost use Rattle.list_verdict.specs.Verdicts.{IsFrontListIf, IsVerdict, IsWholeListIf};
ghost use Rattle.check_cmd.specs.Checking.{IsJudgement, checking};
ghost use Rattle.check_cmd.specs.Means.{claim_of};
ghost use Rattle.check_cmd.specs.Parts.{Answers, CanBePosed, IsEvidence, IsFrontIf, IsListIf, given_of, posed_of};
ghost use Rattle.check_cmd.specs.Table.{HasTable, IsTableFault};

use crate::evidence::{Evidence, Posed, gather, workers_of};
use crate::table::{TableFault, are_same, first_other};
use crate::verdicts::{Judgement, judgement_text, status_of};
use front_end::FrontEnd;
use io_ports::{Shelf, Sink};
use list_verdict::{Listed, Verdict, judge};
use load_problem::Tools;
use loc_base::{Gate, Name, NoMemory, Workers};
use refusal::{LastLine, Notes, print_line};
use requests::CheckRequest;
use std::alloc::Global;
use std::thread::Threads;
use suspect_map::Granularity;

/// What is answered: a line, with the status of the program.
#[derive(Drop)]
pub(crate) struct Answer {
    pub(crate) status: u8,
    pub(crate) line: Vec<u8>,
}

/// What of a report's top and suspects is another than it is asked of.
fn table_fault(top: &Name, posed: &Posed) -> Option<TableFault>
    requires { CanBePosed posed.now }
    ensures none { IsNone result → HasTable top.now (posed_of posed.now) }
    ensures fault { IfSome result (IsTableFault top.now (posed_of posed.now)) }
{
    let report = &posed.report;
    if !are_same(&report.top, top) {
        return Some(TableFault::Top);
    }
    let suspects = report.suspects.as_slice();
    let places = posed.inputs.ordered.design.places.as_slice();
    match first_other(suspects, posed.inputs.groups.as_slice(), places) {
        Some(number) => Some(TableFault::Suspect { number }),
        None => None,
    }
}

/// What is judged of the list.
fn verdict_on<R: Threads + Sync, G: Gate + Sync>(
    alloc: Global,
    workers: &Workers<'_, R, G>,
    evidence: &Evidence,
) -> Result<Verdict, NoMemory>
    requires can { IsEvidence evidence.now }
    requires some { 0 < workers.now.count }
    requires most { workers.now.count ≤ 64 }
    ensures verdict { IfOk result (IsVerdict (claim_of (given_of evidence.now))) }
    ensures list { IfOk result (IsWholeListIf (claim_of (given_of evidence.now))) }
    ensures front { IfOk result (IsFrontListIf (claim_of (given_of evidence.now))) }
{
    let posed = &evidence.posed;
    let sets = posed.report.sets.as_slice();
    // No text that is read has so many sets, so that nothing is refused here.
    if sets.len() > u32::MAX as usize {
        return Err(NoMemory);
    }
    let question = posed.inputs.question(posed.report.size);
    judge(
        alloc,
        workers,
        &Listed {
            question: &question,
            plan: &posed.plan,
            sets,
            log: &evidence.log.log,
        },
    )
}

/// What is judged of the evidence: its top and its suspects first.
fn judged<R: Threads + Sync, G: Gate + Sync>(
    alloc: Global,
    workers: &Workers<'_, R, G>,
    top: &Name,
    evidence: &Evidence,
) -> Result<Judgement, NoMemory>
    requires can { IsEvidence evidence.now }
    requires some { 0 < workers.now.count }
    requires most { workers.now.count ≤ 64 }
    ensures is { IfOk result (IsJudgement top.now (given_of evidence.now)) }
    ensures list { IfOk result (IsListIf (given_of evidence.now)) }
    ensures front { IfOk result (IsFrontIf (given_of evidence.now)) }
{
    match table_fault(top, &evidence.posed) {
        Some(fault) => Ok(Judgement::OfTable { fault }),
        None => Ok(Judgement::OfList {
            verdict: verdict_on(alloc, workers, evidence)?,
        }),
    }
}

/// What is answered of the evidence.
fn answer_of<R: Threads + Sync, G: Gate + Sync>(
    alloc: Global,
    workers: &Workers<'_, R, G>,
    top: &Name,
    evidence: &Evidence,
) -> Result<Answer, NoMemory>
    requires can { IsEvidence evidence.now }
    requires some { 0 < workers.now.count }
    requires most { workers.now.count ≤ 64 }
    ensures { IfOk result (Answers top.now (given_of evidence.now)) }
{
    let judgement = judged(alloc, workers, top, evidence)?;
    let posed = &evidence.posed;
    let line = judgement_text(
        alloc,
        &posed.inputs.ordered.design,
        posed.report.sets.len(),
        judgement,
    )?;
    Ok(Answer {
        status: status_of(judgement),
        line,
    })
}

/// Judges a list: whether the sets of a report are all the minimal sets of suspects that can make every trace right, by their values
/// and by a log. Prints one line, writes nothing, and answers the status of the program.
///
/// The clock, the kinds of suspects and the size of a set are the report's; its top and its suspects must be those that are asked of.
///
/// | status | meaning | line |
/// |---|---|---|
/// | 0 | the report's sets are the whole list | `yes N` |
/// | 1 | they are the first of the list | `front N` |
/// | 3 | a text is refused | `input CODE` and where |
/// | 4 | a limit is passed | `limit CODE`, `limit size` |
/// | 5 | a text wasn't handed over | `read fault NAME` |
/// | 6 | writing failed | none |
/// | 7 | memory was wanted | `memory`, or none |
/// | 8 | the report's top or a suspect is another one | `no top`, `no suspect S` |
/// | 8 | neither is shown | `no order S`, `no contains S T`, `no replay S TRACE CYCLE OUTPUT`, `no step N`, `no closing` |
pub fn check<F: FrontEnd, R: Threads + Sync, G: Gate + Sync, S: Shelf, O: Sink, N: Notes>(
    alloc: Global,
    tools: &Tools<'_, F, R, G>,
    request: &CheckRequest,
    shelf: &mut S,
    out: &mut O,
    notes: &mut N,
) -> u8
    requires { IsAsked (check_asked request.now) }
    ensures { Keeps (checking F.means F.refuses (map (λ kind. called (kind.vtable, kind.value)) tools.now.kinds.now)
        (joined (λ kind. called (kind.vtable, kind.value)) (λ kind. lists (kind.vtable, kind.value)) tools.now.kinds.now)
        (check_asked request.now))
        (run_of (S.tells shelf.old && O.tells out.old) (S.texts shelf.old) (S.written shelf.old) (S.written shelf.new)
        (O.written out.old) (O.written out.new)
        (counts_of (S.faults shelf.old) (S.faults shelf.new) (O.faults out.old) (O.faults out.new)))
        result }
{
    let evidence = match gather(alloc, tools, request, shelf, notes) {
        Ok(evidence) => evidence,
        Err(refusal) => return refusal.print(out),
    };
    let workers = workers_of(tools, request);
    match answer_of(alloc, &workers, &request.texts.top, &evidence) {
        Ok(answer) => print_line(&answer.line, answer.status, out),
        Err(NoMemory) => LastLine::Memory.print(out),
    }
}
