//! The judgement on a list: the first four conditions, and then whether the log closes the list, or shows that it is a front.

ghost use Rattle.std.specs.Prelude.{◌<◌, ◌≤◌, ◌↔◌, IfOk, IsTrue};
ghost use Rattle.list_verdict.specs.Claims.{CanBeJudged, claim_of};
ghost use Rattle.list_verdict.specs.Conditions.{Closes};
ghost use Rattle.list_verdict.specs.Faults.{IsFaultless};
ghost use Rattle.list_verdict.specs.Judging.{Judges};
ghost use Rattle.list_verdict.specs.Verdicts.{IsFrontListIf, IsVerdict, IsWholeListIf};

use crate::examination::examine;
use crate::log::closes;
use crate::shown::shows_last;
use crate::verdict::{Listed, Verdict};
use loc_base::{Gate, NoMemory, Workers};
use std::alloc::Global;
use std::thread::Threads;

/// Whether the log closes the list of what was asked.
#[tactic(auto, using(crate::proofs::Asked::form_rules))]
fn closes_list(listed: &Listed<'_>) -> bool
    requires { CanBeJudged listed.now }
    ensures { IsTrue result ↔ Closes (claim_of listed.now) }
{
    let suspects = listed.question.groups.len() as u32;
    closes(listed.log, suspects, listed.question.k)
}

/// What the log shows of a list of which the first four conditions hold.
fn judge_end<R: Threads + Sync, G: Gate + Sync>(
    alloc: Global,
    workers: &Workers<'_, R, G>,
    listed: &Listed<'_>,
) -> Result<Verdict, NoMemory>
    requires can { CanBeJudged listed.now }
    requires some { 0 < workers.now.count }
    requires most { workers.now.count ≤ 64 }
    requires faultless { IsFaultless (claim_of listed.now) }
    ensures { IfOk result (Judges (claim_of listed.now)) }
{
    if closes_list(listed) {
        return Ok(Verdict::Whole);
    }
    let shown = shows_last(alloc, workers, listed)?;
    if shown {
        return Ok(Verdict::Front);
    }
    Ok(Verdict::Open)
}

/// Whether the sets are the whole list of what was asked, by their values and their log, or a front of it: else the first condition that
/// fails. The answer is the same for every number of workers and every gate.
#[tactic(auto, using(crate::proofs::Judged::judge_rules))]
pub fn judge<R: Threads + Sync, G: Gate + Sync>(
    alloc: Global,
    workers: &Workers<'_, R, G>,
    listed: &Listed<'_>,
) -> Result<Verdict, NoMemory>
    requires can { CanBeJudged listed.now }
    requires some { 0 < workers.now.count }
    requires most { workers.now.count ≤ 64 }
    ensures verdict { IfOk result (IsVerdict (claim_of listed.now)) }
    ensures list { IfOk result (IsWholeListIf (claim_of listed.now)) }
    ensures front { IfOk result (IsFrontListIf (claim_of listed.now)) }
{
    match examine(alloc, workers, listed)? {
        Ok(_found) => judge_end(alloc, workers, listed),
        Err(fault) => Ok(fault.verdict()),
    }
}
