//! The values of all places in all cycles.

ghost use Rattle.std.specs.Prelude.{◌≡◌, ◌≤◌, All, IfOk, length, map};
ghost use Rattle.loc_base.specs.Bits.{value_of, width_of};
ghost use Rattle.unroller.specs.Reads.{IsUnrolled};
ghost use Rattle.form_laws.specs.Models.{HasOneColumnEach};
ghost use Rattle.form_values.specs.ModelValues.{AreModelValues, ArePlaces, IsPlace, MeetTraces, assignment_of, model_numbers, widths_of};

use crate::columns::columns_of;
use crate::places::places_of;
use crate::words::push_row;
use design_core::Values;
use loc_base::{Bits, NoMemory};
use std::alloc::Global;
use suspect_map::Groups;
use unroller::Unrolled;

/// The words of some places in all cycles.
#[tactic(auto, using(crate::proofs::RowSteps::cycles))]
fn rows_of(
    alloc: Global,
    model: &[bool],
    u: &Unrolled,
    places: &[u32],
) -> Result<Vec<Bits>, NoMemory>
    requires kept { IsUnrolled u.now }
    requires distinct { HasOneColumnEach u.now }
    requires places { All (IsPlace u.now) places.now }
    ensures widths { IfOk result (λ rows. map width_of rows.items ≡ widths_of u.now places.now (length u.now.ends)) }
    ensures numbers { IfOk result (λ rows. map value_of rows.items ≡ model_numbers (assignment_of model.now) u.now places.now (length u.now.ends)) }
{
    let columns = columns_of(alloc, u, places)?;
    let mut rows = Vec::new(alloc);
    for moment in 0..u.ends().len() {
        push_row(&mut rows, model, u, &columns, moment)?;
    }
    Ok(rows)
}

/// The values that a model gives to the places of the members: for each cycle of each trace a word of each place, whose bits are
/// what the model gives to the literals of the place's bits. The model has its values at the variable less 1. Where it is one of
/// the form, and the members' selectors are those that are true, the values make each trace right.
pub fn values(
    alloc: Global,
    model: &[bool],
    u: &Unrolled,
    groups: &Groups,
    members: &[u32],
) -> Result<Values, NoMemory>
    requires distinct { HasOneColumnEach u.now }
    requires places { ArePlaces u.now groups.now }
    requires members { All (λ m. (1 ≤ m) × (m ≤ length groups.now)) members.now }
    ensures values { IfOk result (AreModelValues (assignment_of model.now) u.now groups.now members.now) }
    ensures meets { IfOk result (MeetTraces (assignment_of model.now) u.now groups.now members.now) }
{
    // What a form keeps is known of it once it was read.
    let _variables = u.variables();
    let places = places_of(alloc, groups.as_slice(), members)?;
    let rows = rows_of(alloc, model, u, places.as_slice())?;
    Ok(Values { places, rows })
}
