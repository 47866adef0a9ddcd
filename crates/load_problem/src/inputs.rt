//! What a run reads: the design, its suspects, its traces, and the digest of all inputs; or why there are none.
ghost use Rattle.std.specs.Prelude.{◌≡◌, ◌<◌, ◌≤◌, ◌^◌, All, IfErr, IfOk, None, length, true};
ghost use Rattle.sha2.specs.Sha256.{sha256};
ghost use Rattle.suspect_map.specs.Choose.{joined, unknown};
ghost use Rattle.suspect_map.specs.Groups.{AreWithin};
ghost use Rattle.debug_core.specs.Problems.{IsProblem, problem_of};
ghost use Rattle.load_problem.specs.Asked.{AreKnown, IsAsked};
ghost use Rattle.requests.specs.Views.{wanted_asked};
ghost use Rattle.load_problem.specs.Inputs.{HaveNumbers, problem_in};
ghost use Rattle.refusal.specs.Ends.{CountsOf, HasCause, HasStatus, IsSpared};
ghost use Rattle.load_problem.specs.Within.{HasTooMany, digest_text};
ghost use Rattle.load_problem.specs.Means.{IsDigestOf, Means};
ghost use Rattle.load_problem.specs.Refusals.{IsReady, Refused};

use crate::limits::limited;
use crate::tools::Tools;
use debug_core::Question;
use design_core::{Design, Place, Trace};
use front_end::{FrontEnd, Ordered};
use io_ports::Shelf;
use load_texts::{DesignRead, TracesRead, load_design, load_traces};
use loc_base::{Digest, Gate, Name};
use refusal::{Code, LastLine, Notes, Refusal};
use requests::Wanted;
use run_digest::inputs_digest;
use std::alloc::Global;
use std::thread::Threads;
use suspect_map::{ChooseErr, Granularity, Groups, chosen};

/// What a run reads.
pub struct Inputs {
    /// The design, with the order of its drivers.
    pub ordered: Ordered,
    /// The suspects.
    pub groups: Groups,
    pub traces: Vec<Trace>,
    /// The digest of all inputs.
    pub digest: Digest,
}

impl Drop for Inputs {
    fn drop(self) {
        let Inputs {
            ordered: _,
            groups: _,
            traces: _,
            digest: _,
        } = self;
    }
}

impl Inputs {
    /// What is asked of them, by the greatest size of a set.
    pub fn question(&self, size: u32) -> Question<'_>
        ensures { problem_of result ≡ problem_in self.now size }
    {
        Question {
            design: &self.ordered.design,
            order: &self.ordered.order,
            traces: &self.traces,
            groups: &self.groups,
            k: size,
        }
    }
}

/// The suspects of the kinds that are asked for.
fn choose<N: Notes>(
    alloc: Global,
    kinds: &[Box<dyn Granularity>],
    names: &[Name],
    places: &[Place],
    notes: &mut N,
) -> Result<Groups, LastLine>
    requires known { unknown (λ kind. called kind) kinds.now names.now ≡ None }
    requires few { length places.now < 2 ^ 32 }
    ensures groups { IfOk result
        (λ groups. groups ≡ joined (λ kind. called kind) (λ kind. lists kind) kinds.now names.now places.now) }
    ensures count { IfOk result (λ groups. length groups ≤ 4096) }
    ensures within { IfOk result (AreWithin (length places.now)) }
    ensures status { IfErr result HasStatus }
    ensures refused { IfErr result (HasTooMany
        (length (joined (λ kind. called kind) (λ kind. lists kind) kinds.now names.now places.now))) }
{
    match chosen(alloc, kinds, names, places) {
        Ok(groups) => Ok(groups),
        Err(ChooseErr::UnknownKind { name: _ }) => unreachable!(),
        Err(ChooseErr::Suspects) => {
            let refusal = Refusal::of(Code::Limit("Z4"), &ChooseErr::Suspects);
            Err(limited(alloc, &refusal, notes))
        }
        Err(ChooseErr::NoMemory) => Err(LastLine::Memory),
    }
}

/// The digest of all inputs.
fn digest_of(wanted: &Wanted, design: Digest, traces: &[Digest]) -> Digest
    ensures { result.bytes ≡ sha256 (digest_text (wanted_asked wanted.now) design traces.now) }
{
    inputs_digest(&run_digest::Inputs {
        top: &wanted.sources.texts.top,
        clock: wanted.sources.clock,
        kinds: wanted.suspects,
        size: wanted.size,
        design,
        traces,
        scope: wanted.sources.texts.scope.as_ref(),
        zero_inputs: wanted.sources.texts.zero_inputs,
    })
}

/// All that a run reads, in this order: the design, the suspects, the traces. The first that is refused ends it.
pub fn read<F: FrontEnd, R: Threads + Sync, G: Gate + Sync, S: Shelf, N: Notes>(
    alloc: Global,
    tools: &Tools<'_, F, R, G>,
    wanted: &Wanted,
    shelf: &mut S,
    notes: &mut N,
) -> Result<Inputs, LastLine>
    requires asked { IsAsked (wanted_asked wanted.now) }
    requires known { AreKnown (λ kind. called kind) tools.now.kinds.now (wanted_asked wanted.now) }
    ensures tells { S.tells shelf.new ≡ S.tells shelf.old }
    ensures texts { S.texts shelf.new ≡ S.texts shelf.old }
    ensures written { S.written shelf.new ≡ S.written shelf.old }
    ensures counts { CountsOf (S.faults shelf.old) (S.faults shelf.new) result }
    ensures status { IfErr result HasStatus }
    ensures means { S.tells shelf.old ≡ true → IfOk result (λ i. Means F.means
        (joined (λ kind. called kind) (λ kind. lists kind) tools.now.kinds.now) (wanted_asked wanted.now) (S.texts shelf.old)
        (problem_in i wanted.now.size)) }
    ensures digest { S.tells shelf.old ≡ true
        → IfOk result (λ i. IsDigestOf (wanted_asked wanted.now) (S.texts shelf.old) i.digest) }
    ensures problem { IfOk result (λ i. IsProblem (problem_in i wanted.now.size)) }
    ensures numbers { IfOk result HaveNumbers }
    ensures refused { S.tells shelf.old ≡ true → IfErr result (HasCause (Refused F.means F.refuses
        (joined (λ kind. called kind) (λ kind. lists kind) tools.now.kinds.now) (wanted_asked wanted.now) (S.texts shelf.old))) }
    ensures only { S.tells shelf.old ≡ true
        → IsReady F.means (joined (λ kind. called kind) (λ kind. lists kind) tools.now.kinds.now) (wanted_asked wanted.now)
        (S.texts shelf.old)
        → IfErr result IsSpared }
{
    let read: DesignRead<Digest> = load_design(alloc, tools.front, &wanted.sources, shelf, notes)?;
    let design = &read.ordered.design;
    let groups = choose(
        alloc,
        tools.kinds,
        wanted.suspects,
        design.places.as_slice(),
        notes,
    )?;
    let traces: TracesRead<Digest> = load_traces(alloc, &wanted.sources, design, shelf, notes)?;
    let digest = digest_of(wanted, read.imprint, &traces.imprints);
    Ok(Inputs {
        ordered: read.ordered,
        groups,
        traces: traces.traces,
        digest,
    })
}
