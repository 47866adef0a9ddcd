//! What the steps of a log show, seen in pieces by several workers.

ghost use Rattle.std.specs.Prelude.{◌≡◌, ◌≤◌, ◌<◌, ◌^◌, ◌*◌, ◌+◌, length, min, slice_get, IfOk};
ghost use Rattle.front_cert.specs.Reaches.{AreSeen, IsSeen};

use crate::reach::Target;
use crate::seen::{Piece, Seen, greatest, see};
use clause_base::Log;
use loc_base::{Gate, NoMemory, Workers};
use std::alloc::Global;
use std::thread::{Threads, map_indices};

/// What pieces show, one behind the other, each but the last of so many steps.
#[derive(Drop)]
pub(crate) struct Parts {
    pub(crate) many: usize,
    pub(crate) seen: Vec<Result<Seen, NoMemory>>,
}

impl Parts {
    /// What the piece at a place shows.
    fn part(&self, place: usize) -> &Result<Seen, NoMemory>
        requires { place < length self.now.seen.items }
        ensures { slice_get self.now.seen.items place ≡ Some result.now }
    {
        &self.seen[place]
    }
}

/// How many steps each of the workers' pieces has: as many as the others, rounded up.
#[tactic(auto, using(crate::proofs::Joining::share_rules))]
fn piece_length(steps: usize, workers: u32) -> usize
    requires some { 0 < workers }
    requires few { steps < 2 ^ 32 }
    ensures few { result < 2 ^ 32 }
    ensures cover { steps ≤ workers * result }
{
    steps.div_ceil(workers as usize)
}

/// The piece of a number, of as many steps as each has.
fn piece_of(number: usize, many: usize, steps: usize) -> Piece
    requires number { number < 64 }
    requires many { many < 2 ^ 32 }
    ensures from { result.from ≡ min steps (number * many) }
    ensures to { result.to ≡ min steps (number * many + many) }
{
    Piece {
        from: steps.min(number * many),
        to: steps.min(number * many + many),
    }
}

/// What the pieces of a log show, each seen by a worker.
fn see_parts<R: Threads + Sync, G: Gate + Sync>(
    alloc: Global,
    target: &Target,
    log: &Log,
    workers: &Workers<R, G>,
) -> Result<Parts, NoMemory>
    requires steps { length log.now < 2 ^ 32 }
    requires some { 0 < workers.now.count }
    requires most { workers.now.count ≤ 64 }
    ensures { IfOk result (AreSeen target.now.members.now target.now.least target.now.more log.now) }
{
    let many = piece_length(log.len(), workers.count);
    let members = target.members;
    let least = target.least;
    let more = target.more;
    let gate = workers.gate;
    let search = |worker: usize| -> Result<Seen, NoMemory>
        requires { (worker < 64) × (many < 2 ^ 32) }
        ensures { IfOk result (IsSeen members.entry.now least more log.entry.now (min (length log.entry.now) (worker * many)) (min (length log.entry.now) (worker * many + many))) }
    {
        gate.enter(worker as u32);
        let target = Target {
            members,
            least,
            more,
        };
        see(alloc, &target, log, piece_of(worker, many, log.len()))
    };
    let seen = map_indices(workers.runtime, alloc, workers.count as usize, &search)?;
    Ok(Parts { many, seen })
}

/// What the steps of a log show.
#[tactic(auto, using(crate::proofs::Seeing::part_rules))]
pub(crate) fn see_all<R: Threads + Sync, G: Gate + Sync>(
    alloc: Global,
    target: &Target,
    log: &Log,
    workers: &Workers<R, G>,
) -> Result<Seen, NoMemory>
    requires steps { length log.now < 2 ^ 32 }
    requires some { 0 < workers.now.count }
    requires most { workers.now.count ≤ 64 }
    ensures { IfOk result (IsSeen target.now.members.now target.now.least target.now.more log.now 0 (length log.now)) }
{
    let parts = see_parts(alloc, target, log, workers)?;
    let mut seen = Seen::nothing(alloc, greatest(target.members))?;
    for place in 0..parts.seen.len() {
        seen.join_part(parts.part(place))?;
    }
    Ok(seen)
}
