//! Whether the sets are in order, with the values that their texts say.

ghost use Rattle.std.specs.Prelude.{◌≡◌, ◌+◌, ◌<◌, ◌↔◌, IfOk, IsTrue, Some, length, slice_get};
ghost use Rattle.report_doc.specs.declared.types.ReportSet.{ReportSet as SpecSet};
ghost use Rattle.debug_core.specs.Problems.{problem_of};
ghost use Rattle.list_verdict.specs.Claims.{CanBeJudged, claim_of};
ghost use Rattle.list_verdict.specs.Conditions.{ComesAfter};
ghost use Rattle.list_verdict.specs.Judging.{AreMembers, FoundAt, Orders, SaysValues};

use crate::members::{are_members, is_before};
use crate::verdict::Listed;
use design_core::SetWithValues;
use loc_base::{Items, NoMemory};
use report_doc::types::ReportSet;
use report_sets::{Scene, values_of};
use std::alloc::Global;

/// Whether the sets are in order: their values, or the first of them that isn't.
#[derive(Drop)]
pub(crate) enum Order {
    In { found: Vec<SetWithValues> },
    OutOf { set: u32 },
}

/// A set by its place, counted from 0.
pub(crate) fn set_at(sets: &[ReportSet], place: usize) -> &ReportSet
    requires { place < length sets.now }
    ensures { slice_get sets.now place ≡ Some result.now }
{
    &sets[place]
}

/// Whether a set comes after the one before it, if there is one.
#[tactic(auto, using(crate::proofs::Ordered::comes_rules))]
fn comes_after(sets: &[ReportSet], place: usize) -> bool
    requires { place < length sets.now }
    ensures { (set : SpecSet) → slice_get sets.now place ≡ Some set → (IsTrue result ↔ ComesAfter sets.now (place + 1) set) }
{
    place == 0
        || is_before(
            set_at(sets, place - 1).members.as_slice(),
            set_at(sets, place).members.as_slice(),
        )
}

/// A set with the values that its texts say, where they say some.
#[tactic(auto, using(crate::proofs::Ordered::valued_rules))]
fn valued(
    alloc: Global,
    listed: &Listed<'_>,
    set: &ReportSet,
) -> Result<Option<SetWithValues>, NoMemory>
    requires can { CanBeJudged listed.now }
    requires set { AreMembers (problem_of listed.now.question.now) set.now.members }
    ensures { IfOk result (SaysValues (claim_of listed.now) set.now) }
{
    let question = listed.question;
    let scene = Scene {
        design: question.design,
        traces: question.traces,
        groups: question.groups,
    };
    match values_of(alloc, &scene, set)? {
        Some(values) => {
            let members = Items::copy_of(alloc, set.members.as_slice())?;
            Ok(Some(SetWithValues { members, values }))
        }
        None => Ok(None),
    }
}

/// The set of a place, counted from 0, with the values that its texts say, where it is in order.
#[tactic(auto, using(crate::proofs::Ordered::found_rules))]
fn found_at(
    alloc: Global,
    listed: &Listed<'_>,
    place: usize,
) -> Result<Option<SetWithValues>, NoMemory>
    requires can { CanBeJudged listed.now }
    requires place { place < length listed.now.sets.now }
    ensures { IfOk result (FoundAt (claim_of listed.now) place) }
{
    let set = set_at(listed.sets, place);
    if !are_members(listed.question, set.members.as_slice()) {
        return Ok(None);
    }
    if !comes_after(listed.sets, place) {
        return Ok(None);
    }
    valued(alloc, listed, set)
}

/// The values of the sets, where they are in order, or the first set that isn't.
#[tactic(auto, using(crate::proofs::Ordered::ordered_rules))]
pub(crate) fn ordered(alloc: Global, listed: &Listed<'_>) -> Result<Order, NoMemory>
    requires { CanBeJudged listed.now }
    ensures { IfOk result (Orders (claim_of listed.now)) }
{
    let mut found = Vec::new(alloc);
    for place in 0..listed.sets.len() {
        let Some(set) = found_at(alloc, listed, place)? else {
            return Ok(Order::OutOf {
                set: place as u32 + 1,
            });
        };
        found.push(set)?;
    }
    Ok(Order::In { found })
}
