//! Whether a log shows that a list is a front.

ghost use Rattle.std.specs.Prelude.{◌≡◌, ◌<◌, ◌≤◌, ◌↔◌, IfOk, IsTrue, map};
ghost use Rattle.card_counter.specs.Shows.{last_of};
ghost use Rattle.list_verdict.specs.Claims.{CanBeJudged, claim_of};
ghost use Rattle.list_verdict.specs.Conditions.{AreInOrder, SaysMissingOf, ShowsLast};

use crate::verdict::Listed;
use front_cert::{Front, shows};
use loc_base::{Gate, NoMemory, Workers};
use report_doc::types::ReportSet;
use std::alloc::Global;
use std::thread::Threads;

/// The members of the last set; none where there is no set.
fn last_members(sets: &[ReportSet]) -> &[u32]
    ensures { result.now ≡ last_of (map (λ set. set.members) sets.now) }
{
    match sets.last() {
        Some(set) => set.members.as_slice(),
        None => &[],
    }
}

/// What the log doesn't show first, of what shows that no set is missing before the last one: 0 where not that none has fewer members, else
/// the least suspect that isn't shown absent; nothing where it shows all. The answer is the same for every number of workers and every
/// gate.
pub fn missing_of<R: Threads + Sync, G: Gate + Sync>(
    alloc: Global,
    workers: &Workers<'_, R, G>,
    listed: &Listed<'_>,
) -> Result<Option<u32>, NoMemory>
    requires can { CanBeJudged listed.now }
    requires some { 0 < workers.now.count }
    requires most { workers.now.count ≤ 64 }
    requires in_order { AreInOrder (claim_of listed.now) }
    ensures { IfOk result (SaysMissingOf (claim_of listed.now)) }
{
    let suspects = listed.question.groups.len() as u32;
    let front = Front {
        last: last_members(listed.sets),
        n: suspects,
        k: listed.question.k,
        log: listed.log,
    };
    shows(alloc, &front, workers)
}

/// Whether the log shows that no set is missing before the last one.
pub(crate) fn shows_last<R: Threads + Sync, G: Gate + Sync>(
    alloc: Global,
    workers: &Workers<'_, R, G>,
    listed: &Listed<'_>,
) -> Result<bool, NoMemory>
    requires can { CanBeJudged listed.now }
    requires some { 0 < workers.now.count }
    requires most { workers.now.count ≤ 64 }
    requires in_order { AreInOrder (claim_of listed.now) }
    ensures { IfOk result (λ shown. IsTrue shown ↔ ShowsLast (claim_of listed.now)) }
{
    let missing = missing_of(alloc, workers, listed)?;
    match missing {
        None => Ok(true),
        Some(_) => Ok(false),
    }
}
