//! The texts: loaded from the shelf, and read.
ghost use Rattle.std.specs.Prelude.{◌≡◌, ◌<◌, ◌≤◌, ◌+◌, ◌++◌, ◌∷◌, [], All, IfOk, IfErr, MatchResult, OnOk, Some, length};
ghost use Rattle.std.specs.Prelude.{slice_get, true};
ghost use Rattle.design_core.specs.declared.design.Design.{Design as SomeDesign};
ghost use Rattle.design_core.specs.declared.trace.Trace.{Trace as SomeTrace};
ghost use Rattle.vcd_traces.specs.Ports.{HasPorts};
ghost use Rattle.vcd_traces.specs.Manner.{manner_of};
ghost use Rattle.vcd_traces.specs.Samples.{HasSamples};
ghost use Rattle.front_end.specs.Means.{IsReady};
ghost use Rattle.load_texts.specs.declared.faults.LoadFault.TheVariants as load;
ghost use Rattle.load_texts.specs.declared.faults.TraceFault.TheVariants as why;
ghost use Rattle.load_texts.specs.By.{by_of, manner_asked};
ghost use Rattle.requests.specs.Views.{sources_asked};
ghost use Rattle.load_texts.specs.Means.{AreKeptOf, IsKeptOf, IsReadOf, MeansDesign, MeansTrace, MeanTraces, most_bytes};
ghost use Rattle.load_texts.specs.Causes.{DesignCause, TraceCause};
ghost use Rattle.load_texts.specs.Loading.{CountsOfDesign, CountsOfTrace, DesignSpared, HasTrace, StopsAt};
ghost use Rattle.load_texts.specs.Loading.{TraceCounts, TraceSpared, trace_at};
ghost use Rattle.load_texts.specs.Texts.{KeepsNext, LoadCounts, Loads, LoadsDesign, LoadsTrace, ReadsNext, RefusesDump, RefusesText};

use crate::faults::{DesignFault, LoadFault, TraceFault};
use crate::imprint::Imprint;
use crate::sources::{name_at, read_by, scope_in};
use crate::telling::{tell_design, tell_dump, tell_scope, tell_unread};
use design_core::{Design, Trace};
use front_end::{FrontEnd, Ordered};
use io_ports::{LoadErr, Shelf};
use loc_base::Bytes;
use refusal::Notes;
use requests::Sources;
use std::alloc::Global;
use thiserror::Error;
use vcd_traces::{SampleBy, samples};

/// The most bytes that a text may have.
const MOST_BYTES: u64 = 1_073_741_824;

/// The text under a name.
pub fn load_text<S: Shelf, N: Notes>(
    alloc: Global,
    name: &str,
    shelf: &mut S,
    notes: &mut N,
) -> Result<Bytes, LoadFault>
    ensures tells { S.tells shelf.new ≡ S.tells shelf.old }
    ensures texts { S.texts shelf.new ≡ S.texts shelf.old }
    ensures written { S.written shelf.new ≡ S.written shelf.old }
    ensures text { S.tells shelf.old ≡ true → Loads (S.texts shelf.old name.now) result }
    ensures short { IfOk result (λ text. length text ≤ most_bytes) }
    ensures counts { LoadCounts name.now (S.faults shelf.old) (S.faults shelf.new) result }
{
    match shelf.load(alloc, name, MOST_BYTES) {
        Ok(text) => Ok(text),
        Err(LoadErr::TooBig) => Err(LoadFault::Size),
        Err(LoadErr::Failed(cause)) => {
            tell_unread(name, cause, notes);
            Err(LoadFault::Fault)
        }
        Err(LoadErr::NoMemory) => Err(LoadFault::NoMemory),
    }
}

/// The text under the design's name.
fn load_source<S: Shelf, N: Notes>(
    alloc: Global,
    sources: &Sources,
    shelf: &mut S,
    notes: &mut N,
) -> Result<Bytes, DesignFault>
    ensures tells { S.tells shelf.new ≡ S.tells shelf.old }
    ensures texts { S.texts shelf.new ≡ S.texts shelf.old }
    ensures written { S.written shelf.new ≡ S.written shelf.old }
    ensures text { S.tells shelf.old ≡ true → LoadsDesign (S.texts shelf.old (sources_asked sources.now).texts.design) result }
    ensures counts { CountsOfDesign (sources_asked sources.now).texts.design (S.faults shelf.old) (S.faults shelf.new) result }
{
    match load_text(alloc, sources.texts.design.as_str(), shelf, notes) {
        Ok(text) => Ok(text),
        Err(fault) => Err(DesignFault::Load(fault)),
    }
}

/// The text of a design, and what reads it.
#[derive(Drop)]
pub(crate) struct DesignText<'a, F> {
    pub(crate) front: &'a F,
    pub(crate) sources: &'a Sources<'a>,
}

/// The design that a text means.
fn read_design<F: FrontEnd, N: Notes>(
    alloc: Global,
    design: &DesignText<'_, F>,
    text: &Bytes,
    notes: &mut N,
) -> Result<Ordered, DesignFault>
    ensures means { IfOk result
        (λ o. F.means text.now (by_of (sources_asked design.now.sources.now)) o.design) }
    ensures ready { IfOk result (λ o. IsReady o.design o.order) }
    ensures refused { IfErr result
        (RefusesText (F.refuses text.now (by_of (sources_asked design.now.sources.now)))) }
    ensures only { (d : SomeDesign) → F.means text.now (by_of (sources_asked design.now.sources.now)) d → IfErr result DesignSpared }
{
    let bytes = text.as_slice();
    match design.front.read(alloc, bytes, &read_by(design.sources)) {
        Ok(ordered) => Ok(ordered),
        Err(refusal) => {
            tell_design(design.sources, bytes, &refusal, notes);
            Err(DesignFault::Text(refusal))
        }
    }
}

/// A design that was read, and what is kept of its text.
// Its `drop` is derived, since callers take it apart.
#[derive(Drop)]
pub struct DesignRead<K> {
    pub ordered: Ordered,
    pub imprint: K,
}

/// The design of the text under its name, with the order of its drivers. The text is let go.
#[tactic(auto, using(crate::proofs::Loaded::load_rules))]
pub(crate) fn fetch_design<K: Imprint, F: FrontEnd, S: Shelf, N: Notes>(
    alloc: Global,
    design: &DesignText<'_, F>,
    shelf: &mut S,
    notes: &mut N,
) -> Result<DesignRead<K>, DesignFault>
    ensures tells { S.tells shelf.new ≡ S.tells shelf.old }
    ensures texts { S.texts shelf.new ≡ S.texts shelf.old }
    ensures written { S.written shelf.new ≡ S.written shelf.old }
    ensures counts { CountsOfDesign (sources_asked design.now.sources.now).texts.design (S.faults shelf.old) (S.faults shelf.new) result }
    ensures means { S.tells shelf.old ≡ true
        → IfOk result (λ r. MeansDesign F.means (sources_asked design.now.sources.now) (S.texts shelf.old) r.ordered.design) }
    ensures kept { S.tells shelf.old ≡ true
        → IfOk result (λ r. IsKeptOf K.is_of (S.texts shelf.old) (sources_asked design.now.sources.now).texts.design r.imprint) }
    ensures ready { IfOk result (λ r. IsReady r.ordered.design r.ordered.order) }
    ensures refused { S.tells shelf.old ≡ true
        → IfErr result (DesignCause F.refuses (sources_asked design.now.sources.now) (S.texts shelf.old)) }
    ensures only { S.tells shelf.old ≡ true → (d : SomeDesign)
        → MeansDesign F.means (sources_asked design.now.sources.now) (S.texts shelf.old) d → IfErr result DesignSpared }
{
    let text = load_source(alloc, design.sources, shelf, notes)?;
    let ordered = read_design(alloc, design, &text, notes)?;
    Ok(DesignRead {
        ordered,
        imprint: K::of(text.as_slice()),
    })
}

/// The text under a trace's name.
fn load_dump<S: Shelf, N: Notes>(
    alloc: Global,
    name: &str,
    shelf: &mut S,
    notes: &mut N,
) -> Result<Bytes, TraceFault>
    ensures tells { S.tells shelf.new ≡ S.tells shelf.old }
    ensures texts { S.texts shelf.new ≡ S.texts shelf.old }
    ensures written { S.written shelf.new ≡ S.written shelf.old }
    ensures text { S.tells shelf.old ≡ true → LoadsTrace (S.texts shelf.old name.now) result }
    ensures counts { CountsOfTrace name.now (S.faults shelf.old) (S.faults shelf.new) result }
{
    match load_text(alloc, name, shelf, notes) {
        Ok(text) => Ok(text),
        Err(fault) => Err(TraceFault::Load(fault)),
    }
}

/// The text of a trace: the trace's place, from 0, the text's name, and what it is read by.
#[derive(Drop)]
pub(crate) struct Source<'a> {
    pub(crate) place: usize,
    pub(crate) name: &'a str,
    pub(crate) by: SampleBy<'a>,
}

/// The trace that a text means.
#[tactic(auto, using(crate::proofs::Loaded::load_rules))]
fn read_dump<N: Notes>(
    alloc: Global,
    source: &Source,
    text: &Bytes,
    notes: &mut N,
) -> Result<Trace, TraceFault>
    requires { HasPorts source.now.by.design.now }
    ensures means { IfOk result (HasSamples text.now source.now.by.design.now (manner_of source.now.by)) }
    ensures fits { IfOk result (IsReadOf source.now.by.design.now) }
    ensures refused { IfErr result (RefusesDump text.now source.now.by.design.now (manner_of source.now.by)) }
    ensures only { (t : SomeTrace) → HasSamples text.now source.now.by.design.now (manner_of source.now.by) t
        → IfErr result TraceSpared }
{
    let bytes = text.as_slice();
    tell_scope(alloc, source, bytes, notes);
    match samples(alloc, bytes, &source.by) {
        Ok(trace) => Ok(trace),
        Err(fault) => {
            tell_dump(source, bytes, fault, notes);
            Err(TraceFault::Text(fault))
        }
    }
}

/// A trace that was read, and what is kept of its text.
#[derive(Drop)]
struct TraceRead<K> {
    trace: Trace,
    imprint: K,
}

/// The trace of the text under a name.
#[tactic(auto, using(crate::proofs::Loaded::load_rules))]
fn load_trace<K: Imprint, S: Shelf, N: Notes>(
    alloc: Global,
    source: &Source,
    shelf: &mut S,
    notes: &mut N,
) -> Result<TraceRead<K>, TraceFault>
    requires { HasPorts source.now.by.design.now }
    ensures tells { S.tells shelf.new ≡ S.tells shelf.old }
    ensures texts { S.texts shelf.new ≡ S.texts shelf.old }
    ensures written { S.written shelf.new ≡ S.written shelf.old }
    ensures counts { CountsOfTrace source.now.name.now (S.faults shelf.old) (S.faults shelf.new) result }
    ensures means { S.tells shelf.old ≡ true → IfOk result
        (λ r. MeansTrace (S.texts shelf.old) (manner_of source.now.by) source.now.by.design.now source.now.name.now r.trace) }
    ensures kept { S.tells shelf.old ≡ true
        → IfOk result (λ r. IsKeptOf K.is_of (S.texts shelf.old) source.now.name.now r.imprint) }
    ensures fits { IfOk result (λ r. IsReadOf source.now.by.design.now r.trace) }
    ensures refused { S.tells shelf.old ≡ true → IfErr result
        (TraceCause (S.texts shelf.old source.now.name.now) source.now.by.design.now (manner_of source.now.by)) }
    ensures only { S.tells shelf.old ≡ true → (t : SomeTrace)
        → MeansTrace (S.texts shelf.old) (manner_of source.now.by) source.now.by.design.now source.now.name.now t
        → IfErr result TraceSpared }
{
    let text = load_dump(alloc, source.name, shelf, notes)?;
    let trace = read_dump(alloc, source, &text, notes)?;
    Ok(TraceRead {
        trace,
        imprint: K::of(text.as_slice()),
    })
}

/// The texts of a design's traces.
#[derive(Clone, Copy, Drop)]
pub(crate) struct Dumps<'a> {
    pub(crate) sources: &'a Sources<'a>,
    pub(crate) design: &'a Design,
}

/// Where the texts of a design's traces are read: the next one's place.
#[derive(Drop)]
struct Reading<'r, 'a> {
    dumps: &'r Dumps<'a>,
    place: usize,
}

/// The traces that were read, and what is kept of their texts, one each.
// Its `drop` is derived, since callers take it apart.
#[derive(Drop)]
pub struct TracesRead<K> {
    pub traces: Vec<Trace>,
    pub imprints: Vec<K>,
}

impl<K: Drop> TracesRead<K> {
    /// Adds a trace.
    fn keep(&mut self, read: TraceRead<K>) -> Result<(), TraceFault>
        ensures traces { OnOk result (self.new.traces.items ≡ self.old.traces.items ++ read.trace ∷ []) }
        ensures imprints { OnOk result (self.new.imprints.items ≡ self.old.imprints.items ++ read.imprint ∷ []) }
        ensures fault { IfErr result (λ fault. fault ≡ why.Load load.NoMemory) }
    {
        let TraceRead { trace, imprint } = read;
        if self.traces.push(trace).is_err() || self.imprints.push(imprint).is_err() {
            return Err(TraceFault::Load(LoadFault::NoMemory));
        }
        Ok(())
    }
}

impl<K: Imprint> TracesRead<K> {
    /// Loads the trace at a place, behind those before it.
    fn load_next<S: Shelf, N: Notes>(
        &mut self,
        alloc: Global,
        reading: &Reading,
        shelf: &mut S,
        notes: &mut N,
    ) -> Result<(), TraceFault>
        requires ports { HasPorts reading.now.dumps.now.design.now }
        requires place { reading.now.place < length reading.now.dumps.now.sources.now.texts.now.traces.items }
        ensures tells { S.tells shelf.new ≡ S.tells shelf.old }
        ensures texts { S.texts shelf.new ≡ S.texts shelf.old }
        ensures written { S.written shelf.new ≡ S.written shelf.old }
        ensures counts { CountsOfTrace (trace_at (sources_asked reading.now.dumps.now.sources.now) reading.now.place)
            (S.faults shelf.old) (S.faults shelf.new) result }
        ensures read { S.tells shelf.old ≡ true → ReadsNext (S.texts shelf.old) (sources_asked reading.now.dumps.now.sources.now)
            reading.now.dumps.now.design.now reading.now.place self.old.traces.items self.new.traces.items result }
        ensures kept { S.tells shelf.old ≡ true → KeepsNext K.is_of (S.texts shelf.old) (sources_asked reading.now.dumps.now.sources.now)
            reading.now.place self.old.imprints.items self.new.imprints.items result }
        ensures fits { OnOk result (All (IsReadOf reading.now.dumps.now.design.now) self.old.traces.items
            → All (IsReadOf reading.now.dumps.now.design.now) self.new.traces.items) }
        ensures count { OnOk result (length self.new.traces.items ≡ length self.old.traces.items + 1) }
        ensures only { S.tells shelf.old ≡ true
            → All (HasTrace (S.texts shelf.old) (sources_asked reading.now.dumps.now.sources.now) reading.now.dumps.now.design.now)
            (sources_asked reading.now.dumps.now.sources.now).texts.traces
            → IfErr result TraceSpared }
    {
        let dumps = reading.dumps;
        let source = Source {
            place: reading.place,
            name: name_at(dumps.sources, reading.place),
            by: SampleBy {
                design: dumps.design,
                clock: dumps.sources.clock,
                scope: scope_in(dumps.sources),
                zero_inputs: dumps.sources.texts.zero_inputs,
            },
        };
        let next = load_trace(alloc, &source, shelf, notes)?;
        self.keep(next)
    }
}

/// A trace that is refused: its place, from 0, and why.
#[derive(Clone, Copy, Debug, Error)]
#[error("dump {number}: {fault}", number = .place.saturating_add(1))]
pub(crate) struct TraceRefusal {
    pub(crate) place: usize,
    pub(crate) fault: TraceFault,
}

/// The traces of the texts under their names, in order. Each text is let go once it is read.
#[tactic(auto, using(crate::proofs::Loaded::load_rules))]
pub(crate) fn fetch_traces<K: Imprint, S: Shelf, N: Notes>(
    alloc: Global,
    dumps: &Dumps,
    shelf: &mut S,
    notes: &mut N,
) -> Result<TracesRead<K>, TraceRefusal>
    requires { HasPorts dumps.now.design.now }
    ensures tells { S.tells shelf.new ≡ S.tells shelf.old }
    ensures texts { S.texts shelf.new ≡ S.texts shelf.old }
    ensures written { S.written shelf.new ≡ S.written shelf.old }
    ensures counts { MatchResult result (λ _. S.faults shelf.new ≡ S.faults shelf.old)
        (λ r. TraceCounts (trace_at (sources_asked dumps.now.sources.now) r.place) (S.faults shelf.old) (S.faults shelf.new) r.fault) }
    ensures means { S.tells shelf.old ≡ true → IfOk result (λ read. MeanTraces (S.texts shelf.old)
        (manner_asked (sources_asked dumps.now.sources.now)) dumps.now.design.now
        (sources_asked dumps.now.sources.now).texts.traces read.traces.items) }
    ensures kept { S.tells shelf.old ≡ true → IfOk result (λ read. AreKeptOf K.is_of (S.texts shelf.old)
        (sources_asked dumps.now.sources.now).texts.traces read.imprints.items) }
    ensures fits { IfOk result (λ read. All (IsReadOf dumps.now.design.now) read.traces.items) }
    ensures count { IfOk result (λ read. length read.traces.items ≡ length dumps.now.sources.now.texts.now.traces.items) }
    ensures refused { S.tells shelf.old ≡ true
        → IfErr result (λ r. StopsAt (S.texts shelf.old) (sources_asked dumps.now.sources.now) dumps.now.design.now r.place r.fault) }
    ensures place { IfErr result (λ r. r.place < length dumps.now.sources.now.texts.now.traces.items) }
    ensures only { S.tells shelf.old ≡ true
        → All (HasTrace (S.texts shelf.old) (sources_asked dumps.now.sources.now) dumps.now.design.now)
        (sources_asked dumps.now.sources.now).texts.traces
        → IfErr result (λ r. TraceSpared r.fault) }
{
    let mut read = TracesRead {
        traces: Vec::new(alloc),
        imprints: Vec::new(alloc),
    };
    for place in 0..dumps.sources.texts.traces.len() {
        let reading = Reading { dumps, place };
        if let Err(fault) = read.load_next(alloc, &reading, shelf, notes) {
            return Err(TraceRefusal { place, fault });
        }
    }
    Ok(read)
}
