//! What a command reads, or the line that ends it.
ghost use Rattle.std.specs.Prelude.{◌≡◌, ◌<◌, ◌^◌, All, IfErr, IfOk, length, true};
ghost use Rattle.design_core.specs.declared.design.Design.{Design as SomeDesign};
ghost use Rattle.vcd_traces.specs.Ports.{HasPorts};
ghost use Rattle.front_end.specs.Means.{IsReady};
ghost use Rattle.refusal.specs.Ends.{CountsOf, HasCause, HasStatus, IsSpared};
ghost use Rattle.requests.specs.Views.{sources_asked};
ghost use Rattle.load_texts.specs.By.{manner_asked};
ghost use Rattle.load_texts.specs.Lines.{DesignRefused, TracesRefused};
ghost use Rattle.load_texts.specs.Loading.{HasTrace};
ghost use Rattle.load_texts.specs.Means.{AreKeptOf, IsKeptOf, IsReadOf, MeansDesign, MeanTraces};

use crate::imprint::Imprint;
use crate::loads::{DesignRead, DesignText, Dumps, TracesRead, fetch_design, fetch_traces};
use crate::sources::trace_name;
use design_core::Design;
use front_end::FrontEnd;
use io_ports::Shelf;
use refusal::{LastLine, Notes};
use requests::Sources;
use std::alloc::Global;

/// The design of the text under its name, with the order of its drivers, or the line that ends the run. The text is let go.
pub fn load_design<K: Imprint, F: FrontEnd, S: Shelf, N: Notes>(
    alloc: Global,
    front: &F,
    sources: &Sources,
    shelf: &mut S,
    notes: &mut N,
) -> Result<DesignRead<K>, LastLine>
    ensures tells { S.tells shelf.new ≡ S.tells shelf.old }
    ensures texts { S.texts shelf.new ≡ S.texts shelf.old }
    ensures written { S.written shelf.new ≡ S.written shelf.old }
    ensures counts { CountsOf (S.faults shelf.old) (S.faults shelf.new) result }
    ensures status { IfErr result HasStatus }
    ensures means { S.tells shelf.old ≡ true
        → IfOk result (λ r. MeansDesign F.means (sources_asked sources.now) (S.texts shelf.old) r.ordered.design) }
    ensures kept { S.tells shelf.old ≡ true
        → IfOk result (λ r. IsKeptOf K.is_of (S.texts shelf.old) (sources_asked sources.now).texts.design r.imprint) }
    ensures ready { IfOk result (λ r. IsReady r.ordered.design r.ordered.order) }
    ensures refused { S.tells shelf.old ≡ true
        → IfErr result (HasCause (DesignRefused F.refuses (sources_asked sources.now) (S.texts shelf.old))) }
    ensures only { S.tells shelf.old ≡ true → (d : SomeDesign)
        → MeansDesign F.means (sources_asked sources.now) (S.texts shelf.old) d → IfErr result IsSpared }
{
    match fetch_design(alloc, &DesignText { front, sources }, shelf, notes) {
        Ok(read) => Ok(read),
        Err(fault) => Err(fault.last_line(alloc, sources.texts.design.as_str())),
    }
}

/// The traces of the texts under their names, in order, or the line that ends the run. Each text is let go once it is read.
pub fn load_traces<K: Imprint, S: Shelf, N: Notes>(
    alloc: Global,
    sources: &Sources,
    design: &Design,
    shelf: &mut S,
    notes: &mut N,
) -> Result<TracesRead<K>, LastLine>
    requires ports { HasPorts design.now }
    requires few { length sources.now.texts.now.traces.items < 2 ^ 32 }
    ensures tells { S.tells shelf.new ≡ S.tells shelf.old }
    ensures texts { S.texts shelf.new ≡ S.texts shelf.old }
    ensures written { S.written shelf.new ≡ S.written shelf.old }
    ensures counts { CountsOf (S.faults shelf.old) (S.faults shelf.new) result }
    ensures status { IfErr result HasStatus }
    ensures means { S.tells shelf.old ≡ true → IfOk result (λ read. MeanTraces (S.texts shelf.old)
        (manner_asked (sources_asked sources.now)) design.now (sources_asked sources.now).texts.traces read.traces.items) }
    ensures kept { S.tells shelf.old ≡ true → IfOk result (λ read. AreKeptOf K.is_of (S.texts shelf.old)
        (sources_asked sources.now).texts.traces read.imprints.items) }
    ensures fits { IfOk result (λ read. All (IsReadOf design.now) read.traces.items) }
    ensures count { IfOk result (λ read. length read.traces.items ≡ length sources.now.texts.now.traces.items) }
    ensures refused { S.tells shelf.old ≡ true
        → IfErr result (HasCause (TracesRefused (sources_asked sources.now) (S.texts shelf.old) design.now)) }
    ensures only { S.tells shelf.old ≡ true
        → All (HasTrace (S.texts shelf.old) (sources_asked sources.now) design.now) (sources_asked sources.now).texts.traces
        → IfErr result IsSpared }
{
    match fetch_traces(alloc, &Dumps { sources, design }, shelf, notes) {
        Ok(read) => Ok(read),
        Err(refused) => {
            let name = trace_name(sources, design, refused.place);
            Err(refused.fault.last_line(alloc, &name))
        }
    }
}
