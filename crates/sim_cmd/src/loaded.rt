//! What is simulated, or the line that ends the run.
ghost use Rattle.std.specs.Prelude.{◌≡◌, ◌<◌, ◌^◌, IfErr, IfOk, length, true};
ghost use Rattle.front_end.specs.Means.{IsReady};
ghost use Rattle.load_texts.specs.Means.{Means};
ghost use Rattle.refusal.specs.Ends.{CountsOf, HasCause, HasStatus, IsSpared};
ghost use Rattle.requests.specs.Views.{sources_asked};
ghost use Rattle.sim_lines.specs.CanShow.{AreShown};
ghost use Rattle.sim_cmd.specs.Simulation.{IsReady as IsInOrder, Refused};

use design_core::Trace;
use front_end::{FrontEnd, Ordered};
use io_ports::Shelf;
use load_texts::{DesignRead, NoImprint, TracesRead, load_design, load_traces};
use refusal::{LastLine, Notes};
use requests::Sources;
use std::alloc::Global;

/// A design with its traces.
#[derive(Drop)]
pub(crate) struct Loaded {
    pub(crate) ordered: Ordered,
    pub(crate) traces: Vec<Trace>,
}

/// The design and the traces of the texts under their names.
pub(crate) fn load<F: FrontEnd, S: Shelf, N: Notes>(
    alloc: Global,
    front: &F,
    sources: &Sources,
    shelf: &mut S,
    notes: &mut N,
) -> Result<Loaded, LastLine>
    requires { length sources.now.texts.now.traces.items < 2 ^ 32 }
    ensures written { S.written shelf.new ≡ S.written shelf.old }
    ensures counts { CountsOf (S.faults shelf.old) (S.faults shelf.new) result }
    ensures status { IfErr result HasStatus }
    ensures means { S.tells shelf.old ≡ true → IfOk result
        (λ r. Means F.means (sources_asked sources.now) (S.texts shelf.old) r.ordered.design r.traces.items) }
    ensures ready { IfOk result (λ r. IsReady r.ordered.design r.ordered.order) }
    ensures shown { IfOk result (λ r. AreShown r.ordered.design r.traces.items) }
    ensures refused { S.tells shelf.old ≡ true
        → IfErr result (HasCause (Refused F.means F.refuses (sources_asked sources.now) (S.texts shelf.old))) }
    ensures only { S.tells shelf.old ≡ true → IsInOrder F.means (sources_asked sources.now) (S.texts shelf.old)
        → IfErr result IsSpared }
{
    let read: DesignRead<NoImprint> = load_design(alloc, front, sources, shelf, notes)?;
    let traces: TracesRead<NoImprint> = load_traces(
        alloc,
        sources,
        &read.ordered.design,
        shelf,
        notes,
    )?;
    Ok(Loaded {
        ordered: read.ordered,
        traces: traces.traces,
    })
}
