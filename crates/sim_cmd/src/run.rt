//! A run of the command.
ghost use Rattle.std.specs.Prelude.{◌≡◌, ◌<◌, ◌^◌, ◌&&◌, if◌then◌else◌, List, length, not, true};
ghost use Rattle.command_contract.specs.Contract.{Keeps, counts_of, run_of};
ghost use Rattle.front_end.specs.Means.{IsReady};
ghost use Rattle.requests.specs.Views.{sim_asked};
ghost use Rattle.sim_lines.specs.CanShow.{AreShown};
ghost use Rattle.sim_lines.specs.Lines.{AreLines, Line as SomeLine};
ghost use Rattle.sim_cmd.specs.Ends.{EndsShown, ShownCounts};
ghost use Rattle.sim_cmd.specs.Simulation.{IsAnswer, simulation};

use crate::loaded::{Loaded, load};
use front_end::FrontEnd;
use io_ports::{Shelf, Sink, SinkFault};
use refusal::{LastLine, Notes};
use requests::SimRequest;
use sim_lines::{Simulation, show_traces};
use std::alloc::Global;

/// The status where all lines were printed: 9 where it is to say that a trace isn't right, and one isn't.
fn status_for(exit_code: bool, right: bool) -> u8
    ensures is { result ≡ (if exit_code && not right then 9 else 0) }
    ensures answers { IsAnswer exit_code result }
{
    if exit_code && !right { 9 } else { 0 }
}

/// Prints the lines of the traces, and answers the status of the program.
#[tactic(auto, using(crate::proofs::Ready::ready_rules, crate::proofs::Shown::show_rules))]
fn show<O: Sink, N: Notes>(
    alloc: Global,
    loaded: &Loaded,
    exit_code: bool,
    out: &mut O,
    notes: &mut N,
) -> u8
    requires ready { IsReady loaded.now.ordered.design loaded.now.ordered.order }
    requires traces { AreShown loaded.now.ordered.design loaded.now.traces.items }
    ensures text { O.tells out.old ≡ true → (lines : List SomeLine)
        → AreLines loaded.now.ordered.design 1 loaded.now.traces.items lines
        → EndsShown exit_code lines (O.written out.old) (O.written out.new) result }
    ensures counts { ShownCounts exit_code (O.faults out.old) (O.faults out.new) result }
{
    let simulation = Simulation {
        design: &loaded.ordered.design,
        order: &loaded.ordered.order,
        traces: &loaded.traces,
    };
    match show_traces(alloc, &simulation, out, notes) {
        Ok(right) => status_for(exit_code, right),
        Err(SinkFault::Failed(_)) => 6,
        Err(SinkFault::NoMemory) => LastLine::Memory.print(out),
    }
}

/// Simulates the traces of a design: for each of them, counted from 1, a line for each cycle with the outputs in the
/// order of the ports, and then whether it is right, or where it first is not.
///
/// | status | meaning | line |
/// |---|---|---|
/// | 0 | all lines were printed | those |
/// | 3 | a text is refused | `input CODE` and where |
/// | 4 | a limit is passed | `limit CODE`, `limit size` |
/// | 5 | a file can't be read | `read fault NAME` |
/// | 6 | writing failed | none |
/// | 7 | out of memory | `memory`, or none |
/// | 9 | all lines were printed, and the status is to say that a trace isn't right | those |
pub fn simulate<F: FrontEnd, S: Shelf, O: Sink, N: Notes>(
    alloc: Global,
    front: &F,
    request: &SimRequest,
    shelf: &mut S,
    out: &mut O,
    notes: &mut N,
) -> u8
    requires { length request.now.reading.texts.traces.items < 2 ^ 32 }
    ensures { Keeps (simulation F.means F.refuses (sim_asked request.now))
        (run_of (S.tells shelf.old && O.tells out.old) (S.texts shelf.old) (S.written shelf.old) (S.written shelf.new)
        (O.written out.old) (O.written out.new)
        (counts_of (S.faults shelf.old) (S.faults shelf.new) (O.faults out.old) (O.faults out.new)))
        result }
{
    match load(alloc, front, &request.reading.sources(), shelf, notes) {
        Ok(loaded) => show(alloc, &loaded, request.exit_code, out, notes),
        Err(last) => last.print(out),
    }
}
