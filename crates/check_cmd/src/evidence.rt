//! What is judged: a report, the inputs of its list, the plan of the form of their problem, and a log. The form's clauses are made when
//! the log is judged.
ghost use Rattle.std.specs.Prelude.{◌≡◌, IfErr, IfOk, None, map, true};
ghost use Rattle.suspect_map.specs.Choose.{joined, unknown};
ghost use Rattle.report_doc.specs.Shape.{IsReport};
ghost use Rattle.debug_core.specs.declared.error.DebugErr.{DebugErr as SomeErr};
ghost use Rattle.debug_core.specs.declared.error.DebugErr.TheVariants.{NoMemory as WantOfMemory};
ghost use Rattle.debug_core.specs.Problems.{IsFormFor, IsProblem, IsRefused};
ghost use Rattle.load_problem.specs.Inputs.{problem_in};
ghost use Rattle.load_problem.specs.Refusals.{FormRefused};
ghost use Rattle.refusal.specs.Ends.{CountsOf, HasCause, HasStatus, IsMemory, IsSpared};
ghost use Rattle.check_cmd.specs.Asked.{IsAsked};
ghost use Rattle.requests.specs.Views.{check_asked};
ghost use Rattle.check_cmd.specs.Checking.{IsReady};
ghost use Rattle.check_cmd.specs.Means.{AreOfInputs, Asks, Means, Poses};
ghost use Rattle.check_cmd.specs.Parts.{CanBePosed, IsEvidence, given_of, posed_of};
ghost use Rattle.check_cmd.specs.Refusals.{Refused};

use crate::kinds::know;
use crate::wanted::wanted;
use debug_core::FormPlan;
use front_end::FrontEnd;
use io_ports::Shelf;
use load_problem::{Inputs, Tools, form_plan, read};
use loc_base::{Gate, Workers};
use proof_check::types::LogText;
use refusal::{LastLine, Notes};
use report_doc::types::Report;
use requests::CheckRequest;
use session_reading::{Digests, load_log, load_report, same_inputs};
use std::alloc::Global;
use std::thread::Threads;
use suspect_map::Granularity;

/// A report, the inputs of its list, and the plan of the form of their problem.
#[derive(Drop)]
pub(crate) struct Posed {
    pub(crate) report: Report,
    pub(crate) inputs: Inputs,
    pub(crate) plan: FormPlan,
}

/// The same with a log.
#[derive(Drop)]
pub(crate) struct Evidence {
    pub(crate) posed: Posed,
    pub(crate) log: LogText,
}

/// The plan of the form of the problem of inputs, by the greatest size of a set. No clause is made.
fn plan_in<N: Notes>(
    alloc: Global,
    inputs: &Inputs,
    size: u32,
    notes: &mut N,
) -> Result<FormPlan, LastLine>
    requires { IsProblem (problem_in inputs.now size) }
    ensures form { IfOk result (λ plan. IsFormFor (problem_in inputs.now size) plan.vars plan.clauses) }
    ensures refused { IfErr result (HasCause (FormRefused (problem_in inputs.now size))) }
    ensures only { ((fault : SomeErr) → IsRefused (problem_in inputs.now size) fault → fault ≡ WantOfMemory)
        → IfErr result IsMemory }
{
    form_plan(alloc, &inputs.question(size), notes)
}

/// The report by which the list is asked.
fn ask<F: FrontEnd, R: Threads + Sync, G: Gate + Sync, S: Shelf, N: Notes>(
    alloc: Global,
    tools: &Tools<'_, F, R, G>,
    request: &CheckRequest,
    shelf: &mut S,
    notes: &mut N,
) -> Result<Report, LastLine>
    ensures tells { S.tells shelf.new ≡ S.tells shelf.old }
    ensures texts { S.texts shelf.new ≡ S.texts shelf.old }
    ensures written { S.written shelf.new ≡ S.written shelf.old }
    ensures counts { CountsOf (S.faults shelf.old) (S.faults shelf.new) result }
    ensures status { IfErr result HasStatus }
    ensures report { IfOk result IsReport }
    ensures known { IfOk result (λ report. unknown (λ kind. called (kind.vtable, kind.value)) tools.now.kinds.now report.kinds ≡ None) }
    ensures asks { S.tells shelf.old ≡ true → IfOk result
        (Asks (map (λ kind. called (kind.vtable, kind.value)) tools.now.kinds.now) (check_asked request.now) (S.texts shelf.old)) }
    ensures refused { S.tells shelf.old ≡ true → IfErr result (HasCause
        (Refused F.means F.refuses (map (λ kind. called (kind.vtable, kind.value)) tools.now.kinds.now)
        (joined (λ kind. called (kind.vtable, kind.value)) (λ kind. lists (kind.vtable, kind.value)) tools.now.kinds.now)
        (check_asked request.now) (S.texts shelf.old))) }
    ensures only { S.tells shelf.old ≡ true
        → IsReady F.means (map (λ kind. called (kind.vtable, kind.value)) tools.now.kinds.now)
        (joined (λ kind. called (kind.vtable, kind.value)) (λ kind. lists (kind.vtable, kind.value)) tools.now.kinds.now)
        (check_asked request.now) (S.texts shelf.old)
        → IfErr result IsSpared }
{
    let report = load_report(alloc, request.report.as_str(), shelf, notes)?;
    know(alloc, tools.kinds, &report, notes)?;
    Ok(report)
}

/// The report, with the problem that it is of.
fn pose<F: FrontEnd, R: Threads + Sync, G: Gate + Sync, S: Shelf, N: Notes>(
    alloc: Global,
    tools: &Tools<'_, F, R, G>,
    request: &CheckRequest,
    shelf: &mut S,
    notes: &mut N,
) -> Result<Posed, LastLine>
    requires { IsAsked (check_asked request.now) }
    ensures tells { S.tells shelf.new ≡ S.tells shelf.old }
    ensures texts { S.texts shelf.new ≡ S.texts shelf.old }
    ensures written { S.written shelf.new ≡ S.written shelf.old }
    ensures counts { CountsOf (S.faults shelf.old) (S.faults shelf.new) result }
    ensures status { IfErr result HasStatus }
    ensures can { IfOk result CanBePosed }
    ensures poses { S.tells shelf.old ≡ true → IfOk result (λ posed.
        Poses F.means (map (λ kind. called (kind.vtable, kind.value)) tools.now.kinds.now)
        (joined (λ kind. called (kind.vtable, kind.value)) (λ kind. lists (kind.vtable, kind.value)) tools.now.kinds.now)
        (check_asked request.now) (S.texts shelf.old)
        (posed_of posed)) }
    ensures refused { S.tells shelf.old ≡ true → IfErr result (HasCause
        (Refused F.means F.refuses (map (λ kind. called (kind.vtable, kind.value)) tools.now.kinds.now)
        (joined (λ kind. called (kind.vtable, kind.value)) (λ kind. lists (kind.vtable, kind.value)) tools.now.kinds.now)
        (check_asked request.now) (S.texts shelf.old))) }
    ensures only { S.tells shelf.old ≡ true
        → IsReady F.means (map (λ kind. called (kind.vtable, kind.value)) tools.now.kinds.now)
        (joined (λ kind. called (kind.vtable, kind.value)) (λ kind. lists (kind.vtable, kind.value)) tools.now.kinds.now)
        (check_asked request.now) (S.texts shelf.old)
        → IfErr result IsSpared }
{
    let report = ask(alloc, tools, request, shelf, notes)?;
    let inputs = read(alloc, tools, &wanted(request, &report), shelf, notes)?;
    let plan = plan_in(alloc, &inputs, report.size, notes)?;
    Ok(Posed {
        report,
        inputs,
        plan,
    })
}

/// As many workers as are asked for.
pub(crate) fn workers_of<'a, F, R, G>(
    tools: &Tools<'a, F, R, G>,
    request: &CheckRequest,
) -> Workers<'a, R, G>
    ensures { result.count ≡ request.now.workers }
{
    Workers {
        runtime: tools.runtime,
        gate: tools.gate,
        count: request.workers,
    }
}

/// All that is judged. The first that is refused ends the reading, in this order: the report's text and its kinds of suspects, what
/// its list is asked of, the limits of the form, the log's text, the digests.
pub(crate) fn gather<F: FrontEnd, R: Threads + Sync, G: Gate + Sync, S: Shelf, N: Notes>(
    alloc: Global,
    tools: &Tools<'_, F, R, G>,
    request: &CheckRequest,
    shelf: &mut S,
    notes: &mut N,
) -> Result<Evidence, LastLine>
    requires { IsAsked (check_asked request.now) }
    ensures written { S.written shelf.new ≡ S.written shelf.old }
    ensures counts { CountsOf (S.faults shelf.old) (S.faults shelf.new) result }
    ensures status { IfErr result HasStatus }
    ensures can { IfOk result IsEvidence }
    ensures same { IfOk result (λ evidence. AreOfInputs (given_of evidence)) }
    ensures means { S.tells shelf.old ≡ true → IfOk result (λ evidence.
        Means F.means (map (λ kind. called (kind.vtable, kind.value)) tools.now.kinds.now)
        (joined (λ kind. called (kind.vtable, kind.value)) (λ kind. lists (kind.vtable, kind.value)) tools.now.kinds.now)
        (check_asked request.now) (S.texts shelf.old)
        (given_of evidence)) }
    ensures refused { S.tells shelf.old ≡ true → IfErr result (HasCause
        (Refused F.means F.refuses (map (λ kind. called (kind.vtable, kind.value)) tools.now.kinds.now)
        (joined (λ kind. called (kind.vtable, kind.value)) (λ kind. lists (kind.vtable, kind.value)) tools.now.kinds.now)
        (check_asked request.now) (S.texts shelf.old))) }
    ensures only { S.tells shelf.old ≡ true
        → IsReady F.means (map (λ kind. called (kind.vtable, kind.value)) tools.now.kinds.now)
        (joined (λ kind. called (kind.vtable, kind.value)) (λ kind. lists (kind.vtable, kind.value)) tools.now.kinds.now)
        (check_asked request.now) (S.texts shelf.old)
        → IfErr result IsSpared }
{
    let posed = pose(alloc, tools, request, shelf, notes)?;
    let log = load_log(
        alloc,
        &workers_of(tools, request),
        request.log.as_str(),
        shelf,
        notes,
    )?;
    same_inputs(
        alloc,
        &Digests {
            report: posed.report.inputs,
            log: log.inputs,
            inputs: posed.inputs.digest,
        },
    )?;
    Ok(Evidence { posed, log })
}
