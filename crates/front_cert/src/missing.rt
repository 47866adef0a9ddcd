//! What a log doesn't show of a front.

ghost use Rattle.std.specs.Prelude.{◌≡◌, ◌≤◌, ◌<◌, ◌^◌, ◌-◌, length, IfOk};
ghost use Rattle.card_counter.specs.Shows.{bound_of};
ghost use Rattle.front_cert.specs.Unshown.{MayBeShown, SaysMissing};
ghost use Rattle.front_cert.specs.Reaches.{SaysUnseen};

use crate::front::Front;
use crate::pieces::see_all;
use crate::reach::{Target, is_in};
use crate::seen::Seen;
use card_counter::bound;
use loc_base::{Gate, NoMemory, Workers};
use std::alloc::Global;
use std::thread::Threads;

/// What the clauses of a front's log are to show, where its last set has members.
fn target_of<'a>(front: &Front<'a>) -> Target<'a>
    requires may { MayBeShown front.now }
    requires some { 0 < length front.now.last.now }
    ensures members { result.members.now ≡ front.now.last.now }
    ensures least { result.least ≡ bound_of front.now.n front.now.k (length front.now.last.now - 1) }
    ensures more { result.more ≡ bound_of front.now.n front.now.k (length front.now.last.now) }
{
    let size = front.last.len() as u32;
    Target {
        members: front.last,
        least: bound(front.n, front.k, size - 1, front.n + 1),
        more: bound(front.n, front.k, size, front.n + 1),
    }
}

/// The first suspect below the greatest member that isn't a member and wasn't shown absent; 0 where the size wasn't shown.
fn first_unseen(members: &[u32], seen: &Seen) -> Option<u32>
    requires { length seen.now.only.items < 2 ^ 32 }
    ensures { SaysUnseen members.now seen.now result }
{
    if !seen.alone {
        return Some(0);
    }
    for x in 1..seen.only.len() as u32 {
        if !is_in(members, x) && !seen.is_shown(x) {
            return Some(x);
        }
    }
    None
}

/// What the log doesn't show of the front: nothing where it shows that no set is missing before the last one; 0 where it doesn't show
/// that there is no smaller one; else the least suspect that the set passes over and that isn't shown absent. The same for every number
/// of workers and every gate. The log is cut into as many pieces as there are workers, each of which passes the gate once; a step takes
/// time in proportion to its clause at most.
#[tactic(auto, using(crate::proofs::Whole::whole_rules))]
pub fn shows<R: Threads + Sync, G: Gate + Sync>(
    alloc: Global,
    front: &Front,
    workers: &Workers<R, G>,
) -> Result<Option<u32>, NoMemory>
    requires may { MayBeShown front.now }
    requires some { 0 < workers.now.count }
    requires most { workers.now.count ≤ 64 }
    ensures { IfOk result (SaysMissing front.now.n front.now.k front.now.last.now front.now.log.now) }
{
    if front.last.is_empty() {
        return Ok(None);
    }
    let target = target_of(front);
    let seen = see_all(alloc, &target, front.log, workers)?;
    Ok(first_unseen(front.last, &seen))
}
