//! The sets of a list, taken up where the list is fit.
ghost use Rattle.std.specs.Prelude.{◌<◌, ◌≤◌, IfErr, IfOk, length};
ghost use Rattle.refusal.specs.Ends.{HasCause, HasStatus, IsMemory};
ghost use Rattle.set_enum.specs.EnumState.{AreChainless};
ghost use Rattle.list_verdict.specs.Claims.{CanBeJudged, claim_of};
ghost use Rattle.list_verdict.specs.Faults.{AreFound, IsFaultless};
ghost use Rattle.list_verdict.specs.Verdicts.{IsFrontShown};
ghost use Rattle.list_session.specs.Taken.{IsTakenUp, TakesUp};
ghost use Rattle.list_session.specs.Unfit.{UnfitRefused};

use crate::line::unfit_line;
use crate::unfit::Unfit;
use design_core::SetWithValues;
use list_verdict::{Listed, examine, missing_of};
use loc_base::{Gate, NoMemory, Workers};
use refusal::LastLine;
use std::alloc::Global;
use std::thread::Threads;

/// Sets of which the first four conditions hold, where the log shows that none is missing before the last one.
#[tactic(auto, using(crate::proofs::Taking::shown_rules))]
fn shown<R: Threads + Sync, G: Gate + Sync>(
    alloc: Global,
    workers: &Workers<'_, R, G>,
    listed: &Listed<'_>,
    found: Vec<SetWithValues>,
) -> Result<Result<Vec<SetWithValues>, Unfit>, NoMemory>
    requires can { CanBeJudged listed.now }
    requires some { 0 < workers.now.count }
    requires most { workers.now.count ≤ 64 }
    requires chainless { AreChainless listed.now.log.now }
    requires faultless { IsFaultless (claim_of listed.now) }
    requires found { AreFound (claim_of listed.now) (length listed.now.sets.now) found.items }
    ensures { IfOk result (TakesUp (claim_of listed.now)) }
{
    match missing_of(alloc, workers, listed)? {
        Some(suspect) => Ok(Err(Unfit::Shown { suspect })),
        None => Ok(Ok(found)),
    }
}

/// The sets of the list, with the values that its texts say, where a run can go on with it: with the log they are a session. Else the first
/// condition that fails. No block of the log is to have a chain, as none that is read has. The answer is the same for every number of
/// workers and every gate.
#[tactic(auto, using(crate::proofs::Taking::take_rules))]
pub fn take_up<R: Threads + Sync, G: Gate + Sync>(
    alloc: Global,
    workers: &Workers<'_, R, G>,
    listed: &Listed<'_>,
) -> Result<Result<Vec<SetWithValues>, Unfit>, NoMemory>
    requires can { CanBeJudged listed.now }
    requires some { 0 < workers.now.count }
    requires most { workers.now.count ≤ 64 }
    requires chainless { AreChainless listed.now.log.now }
    ensures { IfOk result (TakesUp (claim_of listed.now)) }
{
    match examine(alloc, workers, listed)? {
        Ok(found) => shown(alloc, workers, listed, found),
        Err(fault) => Ok(Err(Unfit::of(fault))),
    }
}

/// The same, or the line that ends the run.
pub fn session_sets<R: Threads + Sync, G: Gate + Sync>(
    alloc: Global,
    workers: &Workers<'_, R, G>,
    listed: &Listed<'_>,
) -> Result<Vec<SetWithValues>, LastLine>
    requires can { CanBeJudged listed.now }
    requires some { 0 < workers.now.count }
    requires most { workers.now.count ≤ 64 }
    requires chainless { AreChainless listed.now.log.now }
    ensures taken { IfOk result (λ found. IsTakenUp (claim_of listed.now) found.items) }
    ensures status { IfErr result HasStatus }
    ensures refused { IfErr result (HasCause (UnfitRefused (claim_of listed.now))) }
    ensures only { IsFrontShown (claim_of listed.now) → IfErr result IsMemory }
{
    match take_up(alloc, workers, listed) {
        Ok(Ok(found)) => Ok(found),
        Ok(Err(unfit)) => Err(unfit_line(alloc, listed.question.design, unfit)),
        Err(NoMemory) => Err(LastLine::Memory),
    }
}
