ghost use Rattle.std.specs.Prelude.{◌≡◌, ◌<◌, ◌^◌, ℕ, Contains, false, true, length, slice_index_or, IfOk};
ghost use Rattle.design_order.specs.Rows.{AreWithin, Listed, has, left, row};
ghost use Rattle.design_order.specs.Circle.{IsCircleOf};

use loc_base::{NoMemory, Rows};
use std::alloc::Global;

/// The first number of a row that was not taken.
fn first_left(row: &[u32], taken: &[bool]) -> u32
    requires some { 0 < left (λ k. slice_index_or taken.now k false) row.now }
    requires within { (k : ℕ) → has row.now k ≡ true → k < length taken.now }
    ensures listed { Contains row.now result }
    ensures left { slice_index_or taken.now result false ≡ false }
{
    for number in row {
        if !taken[*number as usize] {
            return *number;
        }
    }
    unreachable!()
}

/// The place at which a number stands first.
fn place_of(path: &[u32], number: u32) -> usize
    requires { has path.now number ≡ true }
    ensures within { result < length path.now }
    ensures at { slice_index_or path.now result 0 ≡ number }
{
    for (place, there) in path.iter().enumerate() {
        if *there == number {
            return place;
        }
    }
    unreachable!()
}

/// Numbers that depend on each other in a circle, where each one that was not taken depends on one that was not.
pub(crate) fn circle_from(
    alloc: Global,
    needs: &Rows<u32>,
    taken: &[bool],
    from: u32,
) -> Result<Vec<u32>, NoMemory>
    requires within { AreWithin needs.now }
    requires long { length taken.now ≡ length needs.now }
    requires start { from < length needs.now }
    requires left { slice_index_or taken.now from false ≡ false }
    requires stuck { (k : ℕ) → k < length needs.now → slice_index_or taken.now k false ≡ false
        → 0 < left (λ j. slice_index_or taken.now j false) (row needs.now k) }
    ensures { IfOk result (λ path. IsCircleOf (Listed needs.now) (length needs.now) path.items) }
{
    let mut met = vec![in alloc; false; needs.len()]?;
    let mut path = Vec::new(alloc);
    let mut number = from;
    'walk: while !met[number as usize] {
        met[number as usize] = true;
        path.push(number)?;
        number = first_left(needs.row(number as usize), taken);
    }
    let place = place_of(&path, number);
    Ok(Vec::from_slice(alloc, &path.as_slice()[place..])?)
}
