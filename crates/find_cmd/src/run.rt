//! A run of the command.
ghost use Rattle.std.specs.Prelude.{◌≡◌, ◌&&◌, Bool, true, IfErr, IfOk};
ghost use Rattle.suspect_map.specs.Choose.{joined};
ghost use Rattle.io_ports.specs.Faults.{FaultCounts};
ghost use Rattle.command_contract.specs.Contract.{Keeps, Texts, counts_of, run_of};
ghost use Rattle.debug_core.specs.Problems.{IsProblem};
ghost use Rattle.load_problem.specs.Inputs.{HaveNumbers, problem_in};
ghost use Rattle.load_problem.specs.Means.{Suspecting};
ghost use Rattle.refusal.specs.Ends.{HasStatus};
ghost use Rattle.find_cmd.specs.Asked.{AreKnown, IsAsked};
ghost use Rattle.find_cmd.specs.Finding.{finding, finding_by};
ghost use Rattle.find_cmd.specs.Reading.{IsDueOf, IsRead, IsReadFault};
ghost use Rattle.find_cmd.specs.Views.{list_asked, resume_asked};
ghost use Rattle.requests.specs.Views.{find_asked};

use crate::job::job_of;
use crate::request::{ListRequest, ResumeRequest};
use crate::resume::resumed;
use debug_core::Debugger;
use front_end::FrontEnd;
use io_ports::{Shelf, Sink};
use list_writer::{Task, list};
use load_problem::{Inputs, Tools, problem_line, read};
use loc_base::{Gate, Workers};
use refusal::{LastLine, Notes};
use requests::{FindRequest, Listing};
use std::alloc::Global;
use std::thread::Threads;
use suspect_map::Granularity;

/// As many workers as are asked for.
fn workers_of<'a, F, R, G>(tools: &Tools<'a, F, R, G>, listing: &Listing) -> Workers<'a, R, G>
    ensures { result.count ≡ listing.now.workers }
{
    Workers {
        runtime: tools.runtime,
        gate: tools.gate,
        count: listing.workers,
    }
}

/// Lists the sets of suspects of what was read: writes the log and the report, prints the lines of each set and a last line, and
/// answers the status of the program. Where nothing was read it prints why.
pub fn list_read<F: FrontEnd, R: Threads + Sync, G: Gate + Sync, S: Shelf, O: Sink, N: Notes>(
    alloc: Global,
    tools: &Tools<'_, F, R, G>,
    request: &ListRequest<'_>,
    read: Result<Inputs, LastLine>,
    shelf: &mut S,
    out: &mut O,
    notes: &mut N,
) -> u8
    requires asked { IsAsked (list_asked request.now) }
    requires problem { IfOk read (λ inputs. IsProblem (problem_in inputs request.now.listing.now.size)) }
    requires status { IfErr read HasStatus }

    ensures tells { O.tells out.new ≡ O.tells out.old }

    // It loads nothing: that a text wasn't handed over is said only of what was read.
    ensures fault { result ≡ 5 → IsReadFault read }

    // Of texts that stood anywhere: those that were read.
    ensures keeps { let suspecting : Suspecting =
        joined (λ kind. called (kind.vtable, kind.value)) (λ kind. lists (kind.vtable, kind.value)) tools.now.kinds.now in
        (told : Bool) (texts : Texts) (faults : FaultCounts)
        → (told ≡ true → S.tells shelf.old ≡ true) → (told ≡ true → O.tells out.old ≡ true)
        → IsRead F.means F.refuses suspecting (list_asked request.now) told texts faults (S.faults shelf.old) read
        → Keeps (finding_by F.means suspecting (list_asked request.now)
        (IsDueOf F.means F.refuses suspecting (list_asked request.now) read))
        (run_of told texts (S.written shelf.old) (S.written shelf.new) (O.written out.old) (O.written out.new)
        (counts_of faults (S.faults shelf.new) (O.faults out.old) (O.faults out.new)))
        result }
{
    let inputs = match read {
        Ok(inputs) => inputs,
        Err(last) => return last.print(out),
    };
    let job = job_of(&inputs, request);
    match Debugger::new(alloc, &job.question) {
        Ok(search) => {
            let workers = workers_of(tools, request.listing);
            let found = Vec::new(alloc);
            let task = Task { job, search, found };
            list(alloc, &workers, task, shelf, out, notes).status()
        }
        Err(fault) => problem_line(alloc, fault, notes).print(out),
    }
}

/// Lists on from a session: the same of what was read, where log, lines, report and waves begin with the session's. Where the session is
/// refused it prints why, and writes nothing.
fn list_on<F: FrontEnd, R: Threads + Sync, G: Gate + Sync, S: Shelf, O: Sink, N: Notes>(
    alloc: Global,
    tools: &Tools<'_, F, R, G>,
    request: &ResumeRequest<'_>,
    read: Result<Inputs, LastLine>,
    shelf: &mut S,
    out: &mut O,
    notes: &mut N,
) -> u8
    requires asked { IsAsked (resume_asked request.now) }
    requires problem { IfOk read (λ inputs. IsProblem (problem_in inputs request.now.list.listing.now.size)) }
    requires numbers { IfOk read HaveNumbers }
    requires status { IfErr read HasStatus }
    ensures { let suspecting : Suspecting =
        joined (λ kind. called (kind.vtable, kind.value)) (λ kind. lists (kind.vtable, kind.value)) tools.now.kinds.now in
        (faults : FaultCounts)
        → IsRead F.means F.refuses suspecting (resume_asked request.now) (S.tells shelf.old && O.tells out.old) (S.texts shelf.old)
        faults (S.faults shelf.old) read
        → Keeps (finding F.means F.refuses suspecting (resume_asked request.now))
        (run_of (S.tells shelf.old && O.tells out.old) (S.texts shelf.old) (S.written shelf.old) (S.written shelf.new)
        (O.written out.old) (O.written out.new)
        (counts_of faults (S.faults shelf.new) (O.faults out.old) (O.faults out.new)))
        result }
{
    let inputs = match read {
        Ok(inputs) => inputs,
        Err(last) => return last.print(out),
    };
    let job = job_of(&inputs, &request.list);
    let workers = workers_of(tools, request.list.listing);
    match resumed(alloc, &workers, job, request.names, shelf, notes) {
        Ok(task) => list(alloc, &workers, task, shelf, out, notes).status(),
        Err(last) => last.print(out),
    }
}

/// Lists the sets of suspects that can make every trace right: writes the log and the report, prints the lines of each set and a
/// last line, and answers the status of the program. Where it goes on from a session it lists the session's sets again, and then on.
///
/// | status | meaning | last line |
/// |---|---|---|
/// | 0 | the list is whole | `complete N` |
/// | 1 | a front of it is listed | `front N budget`, `front N sets` |
/// | 3 | a text is refused | `input CODE` and where |
/// | 4 | a limit is passed | `limit CODE`, `limit size` |
/// | 5 | a text wasn't handed over | `read fault NAME` |
/// | 6 | writing failed | none |
/// | 7 | memory was wanted | `front N memory`, `memory`, or none |
pub fn find<F: FrontEnd, R: Threads + Sync, G: Gate + Sync, S: Shelf, O: Sink, N: Notes>(
    alloc: Global,
    tools: &Tools<'_, F, R, G>,
    request: &FindRequest,
    shelf: &mut S,
    out: &mut O,
    notes: &mut N,
) -> u8
    requires asked { IsAsked (find_asked request.now) }
    requires known { AreKnown (λ kind. called (kind.vtable, kind.value)) tools.now.kinds.now (find_asked request.now) }
    ensures { Keeps (finding F.means F.refuses
        (joined (λ kind. called (kind.vtable, kind.value)) (λ kind. lists (kind.vtable, kind.value)) tools.now.kinds.now)
        (find_asked request.now))
        (run_of (S.tells shelf.old && O.tells out.old) (S.texts shelf.old) (S.written shelf.old) (S.written shelf.new)
        (O.written out.old) (O.written out.new)
        (counts_of (S.faults shelf.old) (S.faults shelf.new) (O.faults out.old) (O.faults out.new)))
        result }
{
    let list = ListRequest::of(request);
    let found = read(alloc, tools, &list.wanted(), shelf, notes);
    match &request.resume {
        Some(names) => {
            let request = ResumeRequest { list, names };
            list_on(alloc, tools, &request, found, shelf, out, notes)
        }
        None => list_read(alloc, tools, &list, found, shelf, out, notes),
    }
}
