//! The values of a set.

ghost use Rattle.std.specs.Prelude.{IfNone, IfOk, IfSome};
ghost use Rattle.design_core.specs.Works.{IsSet};
ghost use Rattle.report_sets.specs.Reading.{IsScene, groups_of};
ghost use Rattle.report_sets.specs.Written.{HasValues, IsWritten};

use crate::places::{places_of, widths_of};
use crate::rows::{has_its_rows, push_all};
use crate::scene::Scene;
use design_core::Values;
use loc_base::NoMemory;
use report_doc::types::ReportSet;
use std::alloc::Global;

/// The values that the texts of a set say: a word of its width for each place of its members in each cycle of the traces. None where
/// the texts are too few or too many, or one of them isn't that of a word of its place's width.
#[tactic(auto, using(crate::proofs::Writing::values_rules))]
pub fn values_of(
    alloc: Global,
    scene: &Scene<'_>,
    set: &ReportSet,
) -> Result<Option<Values>, NoMemory>
    requires scene { IsScene scene.now }
    requires set { IsSet (groups_of scene.now.groups.now) set.now.members }
    ensures some { IfOk result (λ found. IfSome found (IsWritten scene.now.design.now scene.now.traces.now (groups_of scene.now.groups.now) set.now)) }
    ensures none { IfOk result (λ found. IfNone found (¬ HasValues scene.now.design.now scene.now.traces.now (groups_of scene.now.groups.now) set.now)) }
{
    if !has_its_rows(scene.traces, set.values.as_slice()) {
        return Ok(None);
    }
    let places = places_of(alloc, scene.groups.as_slice(), set.members.as_slice())?;
    let widths = widths_of(alloc, scene.design, &places)?;
    let mut rows = Vec::new(alloc);
    if !push_all(&mut rows, &widths, set.values.as_slice())? {
        return Ok(None);
    }
    Ok(Some(Values { places, rows }))
}
