//! Whether the values of sets make traces right, set by set, by several workers.

ghost use Rattle.std.specs.Prelude.{◌≡◌, ◌<◌, ◌≤◌, ◌+◌, ◌*◌, ◌/◌, ◌^◌, IfOk, All, [], ◌∷◌, length, slice_get, Some};
ghost use Rattle.design_core.specs.TraceFits.{IsTraceOf};
ghost use Rattle.cycle_sim.specs.Simulated.{CanSimulate, IsSimulable};
ghost use Rattle.cycle_sim.specs.Misses.{AreValuesFor, FirstToMiss};
ghost use Rattle.parallel_replay.specs.Trials.{AreTried, FoundFrom, HaveValues, IsTrial, first_of};

use crate::trial::{Piece, Trial};
use cycle_sim::{Miss, Sim, replay};
use design_core::{Design, SetWithValues};
use loc_base::{Gate, NoMemory, Workers};
use std::alloc::Global;
use std::slice;
use std::thread::{Threads, map_indices};

/// A set of a number.
fn set_at(sets: &[SetWithValues], k: usize) -> &SetWithValues
    requires { k < length sets.now }
    ensures { slice_get sets.now k ≡ Some result.now }
{
    &sets[k]
}

/// The first of so many sets from one number on whose values miss, with its least miss.
fn first_to_miss(
    alloc: Global,
    trial: &Trial,
    sets: &[SetWithValues],
    piece: Piece,
) -> Result<Option<(u32, Miss)>, NoMemory>
    requires trial { IsTrial trial.now }
    requires values { HaveValues trial.now sets.now }
    requires piece { piece.from + piece.many < 2 ^ 64 }
    ensures { IfOk result (λ found. IsSimulable trial.now.design.now trial.now.order.now
        → FirstToMiss trial.now.design.now trial.now.traces.now sets.now piece.from (piece.from + piece.many) found) }
{
    let mut sim = Sim::new(alloc, trial.design, trial.order)?;
    for k in piece.from..sets.len().min(piece.from + piece.many) {
        let set = set_at(sets, k);
        if let Some(miss) = replay(&mut sim, trial.traces, &set.values) {
            return Ok(Some((k as u32, miss)));
        }
    }
    Ok(None)
}

/// The first answer that isn't that nothing was found.
fn first_found(
    answers: &[Result<Option<(u32, Miss)>, NoMemory>],
) -> Result<Option<(u32, Miss)>, NoMemory>
    ensures { result ≡ first_of answers.now }
{
    match answers.split_first() {
        Some((first, rest)) => match first {
            Ok(None) => first_found(rest),
            Ok(Some(found)) => Ok(Some(*found)),
            Err(e) => Err(*e),
        },
        None => Ok(None),
    }
}

/// How many sets each piece but the last has, and how many pieces there are.
#[derive(Clone, Copy)]
struct Pieces {
    many: usize,
    count: usize,
}

/// The sets shared out among workers: as many to each, rounded up, the rest to the last, and none to who comes too late.
#[tactic(auto, using(crate::proofs::SetLaws::share_rules))]
fn shared_out(sets: usize, workers: u32) -> Pieces
    requires some { 0 < workers }
    requires few { sets < 2 ^ 32 }
    ensures many { result.many ≤ 2 ^ 32 }
    ensures count { result.count ≤ workers }
    ensures cover { sets ≤ result.count * result.many }
{
    let many = sets.div_ceil(workers as usize).max(1);
    Pieces {
        many,
        count: sets.div_ceil(many),
    }
}

/// The only design of a list.
fn only_design(designs: &[Design]) -> &Design
    requires { length designs.now ≡ 1 }
    ensures { designs.now ≡ result.now ∷ [] }
{
    &designs[0]
}

/// Tries the sets in pieces, each of which passes the gate once. The design stands in a list of one, which workers can share.
#[tactic(auto, using(crate::proofs::Crossing::crossing_rules))]
fn search_all<R: Threads + Sync, G: Gate + Sync>(
    alloc: Global,
    workers: &Workers<'_, R, G>,
    trial: &Trial<'_>,
    sets: &[SetWithValues],
) -> Result<Option<(u32, Miss)>, NoMemory>
    requires trial { IsTrial trial.now }
    requires values { HaveValues trial.now sets.now }
    requires some { 0 < workers.now.count }
    requires most { workers.now.count ≤ 64 }
    ensures { IfOk result (λ found. IsSimulable trial.now.design.now trial.now.order.now
        → FirstToMiss trial.now.design.now trial.now.traces.now sets.now 0 (length sets.now) found) }
{
    let pieces = shared_out(sets.len(), workers.count);
    let many = pieces.many;
    let gate = workers.gate;
    let designs = slice::from_ref(trial.design);
    let order = trial.order;
    let traces = trial.traces;
    let search = |worker: usize| -> Result<Option<(u32, Miss)>, NoMemory>
        requires { AreTried designs.now order.now traces.now sets.now × (worker < 64) × (many ≤ 2 ^ 32) }
        ensures { IfOk result (FoundFrom designs.entry.now order.entry.now traces.entry.now sets.entry.now (worker * many) (worker * many + many)) }
    {
        gate.enter(worker as u32);
        let trial = Trial {
            design: only_design(designs),
            order,
            traces,
        };
        let piece = Piece {
            from: worker * many,
            many,
        };
        first_to_miss(alloc, &trial, sets, piece)
    };
    let answers = map_indices(workers.runtime, alloc, pieces.count, &search)?;
    first_found(&answers)
}

/// The first of some sets whose values miss, with its least miss, tried by so many workers: the same for every number of
/// workers and every gate, by which each piece of the sets passes before it begins. None where each trace is right with the
/// values of each set.
pub fn replay_all<R: Threads + Sync, G: Gate + Sync>(
    alloc: Global,
    workers: &Workers<'_, R, G>,
    trial: &Trial<'_>,
    sets: &[SetWithValues],
) -> Result<Option<(u32, Miss)>, NoMemory>
    requires can { CanSimulate trial.now.design.now trial.now.order.now }
    requires traces { All (IsTraceOf trial.now.design.now) trial.now.traces.now }
    requires many { length trial.now.traces.now < 2 ^ 32 }
    requires few { length trial.now.design.now.outputs.items < 2 ^ 32 }
    requires sets { length sets.now < 2 ^ 32 }
    requires values { All (λ set. AreValuesFor trial.now.design.now trial.now.traces.now set.values) sets.now }
    requires some { 0 < workers.now.count }
    requires most { workers.now.count ≤ 64 }
    ensures { IfOk result (λ found. IsSimulable trial.now.design.now trial.now.order.now
        → FirstToMiss trial.now.design.now trial.now.traces.now sets.now 0 (length sets.now) found) }
{
    search_all(alloc, workers, trial, sets)
}
