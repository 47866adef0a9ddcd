//! Which places are in a group, and how many variables stand before the definitions.

ghost use Rattle.std.specs.Prelude.{◌≡◌, ◌+◌, ◌<◌, ◌≤◌, ◌||◌, ◌==◌, IfOk, MatchOption, OnOk, false, get_or, length, ℕ};
ghost use Rattle.std.specs.List.{list_any};
ghost use Rattle.card_counter.specs.Places.{starts};
ghost use Rattle.unroller.specs.Unrolls.{is_grouped};

use card_counter::counters;
use loc_base::{Items, NoMemory};
use std::alloc::Global;
use suspect_map::Group;

/// How many variables a form may have.
pub(crate) const VARIABLES: u32 = 4_000_000;

/// Makes a list so long, by an entry again and again. It reads the same where that entry is read behind its last.
#[tactic(auto, using(crate::proofs::GroupSteps::longer))]
pub(crate) fn lengthen<T: Copy + Drop>(
    list: &mut Items<T>,
    len: usize,
    entry: T,
) -> Result<(), NoMemory>
    ensures long { OnOk result (len ≤ length list.new) }
    ensures same { OnOk result ((p : ℕ) → get_or list.new p entry ≡ get_or list.old p entry) }
{
    let missing = len.saturating_sub(list.len());
    for i in 0..missing {
        list.push(entry)?;
    }
    Ok(())
}

/// Notes that a place is in a group.
#[tactic(auto, using(crate::proofs::GroupSteps::marks))]
fn mark(table: &mut Items<bool>, place: u32) -> Result<(), NoMemory>
    ensures { OnOk result ((p : ℕ) → get_or table.new p false ≡ ((place == p) || get_or table.old p false)) }
{
    let place = place as usize;
    lengthen(table, place + 1, false)?;
    table.set(place, true);
    Ok(())
}

/// Notes the places of a group.
fn mark_all(table: &mut Items<bool>, places: &[u32]) -> Result<(), NoMemory>
    ensures { OnOk result ((p : ℕ) → get_or table.new p false ≡ (list_any (λ q. q == p) places.now || get_or table.old p false)) }
{
    for i in 0..places.len() {
        mark(table, places[i])?;
    }
    Ok(())
}

/// For each place, whether it is in a group.
pub(crate) fn grouped(alloc: Global, groups: &[Group]) -> Result<Items<bool>, NoMemory>
    ensures { IfOk result (λ table. (p : ℕ) → get_or table p false ≡ is_grouped groups.now p) }
{
    let mut table = Items::new(alloc);
    for i in 0..groups.len() {
        mark_all(&mut table, groups[i].places.as_slice())?;
    }
    Ok(table)
}

/// How many variables the suspects and their counters have, and `None` where they are too many.
pub(crate) fn variables_before(suspects: usize, k: u32) -> Option<u32>
    ensures { MatchOption result (4000000 < suspects + starts k (suspects + 1)) (λ count. (count ≡ suspects + starts k (suspects + 1)) × (count ≤ 4000000)) }
{
    if suspects > VARIABLES as usize {
        return None;
    }
    let more = counters(suspects as u32, k);
    if more > VARIABLES as usize - suspects {
        return None;
    }
    Some((suspects + more) as u32)
}
