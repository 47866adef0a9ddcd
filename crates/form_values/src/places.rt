//! The places of a set of suspects.

ghost use Rattle.std.specs.Prelude.{◌≡◌, ◌+◌, ◌-◌, ◌<◌, ◌≤◌, ◌^◌, ◌==◌, ◌||◌, All, IfOk, OnOk, false, get_or, length, ℕ};
ghost use Rattle.std.specs.List.{list_any};
ghost use Rattle.std.specs.List.Sorted.{IsStrictlyIncreasing};
ghost use Rattle.design_core.specs.Explained.{is_one_of};
ghost use Rattle.form_laws.specs.Models.{freed_by};
ghost use Rattle.form_values.specs.Places.{numbers_of};

use loc_base::{Items, NoMemory};
use std::alloc::Global;
use suspect_map::Group;

/// Makes a table so long, by an entry again and again. It reads the same where that entry is read behind its last.
#[tactic(auto, using(unroller::proofs::GroupSteps::longer))]
pub(crate) fn lengthen<T: Copy + Drop>(
    table: &mut Items<T>,
    len: usize,
    entry: T,
) -> Result<(), NoMemory>
    ensures long { OnOk result (length table.new ≡ length table.old + (len - length table.old)) }
    ensures same { OnOk result ((p : ℕ) → get_or table.new p entry ≡ get_or table.old p entry) }
{
    let missing = len.saturating_sub(table.len());
    for i in 0..missing {
        table.push(entry)?;
    }
    Ok(())
}

/// Notes a place.
#[tactic(auto, using(unroller::proofs::GroupSteps::marks))]
fn mark(table: &mut Items<bool>, place: u32) -> Result<(), NoMemory>
    requires { length table.old ≤ 2 ^ 32 }
    ensures few { OnOk result (length table.new ≤ 2 ^ 32) }
    ensures marks { OnOk result ((p : ℕ) → get_or table.new p false ≡ ((place == p) || get_or table.old p false)) }
{
    let place = place as usize;
    lengthen(table, place + 1, false)?;
    table.set(place, true);
    Ok(())
}

/// Notes some places.
fn mark_all(table: &mut Items<bool>, places: &[u32]) -> Result<(), NoMemory>
    requires { length table.old ≤ 2 ^ 32 }
    ensures few { OnOk result (length table.new ≤ 2 ^ 32) }
    ensures marks { OnOk result ((p : ℕ) → get_or table.new p false ≡ (list_any (λ q. q == p) places.now || get_or table.old p false)) }
{
    for i in 0..places.len() {
        mark(table, places[i])?;
    }
    Ok(())
}

/// For each place, whether it is one of the members'.
#[tactic(auto, using(crate::proofs::PlaceSteps::members))]
fn freed(alloc: Global, groups: &[Group], members: &[u32]) -> Result<Items<bool>, NoMemory>
    requires { All (λ m. (1 ≤ m) × (m ≤ length groups.now)) members.now }
    ensures few { IfOk result (λ table. length table ≤ 2 ^ 32) }
    ensures places { IfOk result (λ table. (p : ℕ) → get_or table p false ≡ freed_by groups.now members.now p) }
{
    let mut table = Items::new(alloc);
    for i in 0..members.len() {
        let group = &groups[members[i] as usize - 1];
        mark_all(&mut table, group.places.as_slice())?;
    }
    Ok(table)
}

/// The numbers of the places that are noted, ascending.
#[tactic(auto, using(crate::proofs::PlaceSteps::numbers))]
fn listed(alloc: Global, table: &[bool]) -> Result<Vec<u32>, NoMemory>
    requires { length table.now ≤ 2 ^ 32 }
    ensures { IfOk result (λ places. places.items ≡ numbers_of 0 table.now) }
{
    let mut places = Vec::new(alloc);
    for place in 0..table.len() {
        if table[place] {
            places.push(place as u32)?;
        }
    }
    Ok(places)
}

/// The places of the members, ascending.
#[tactic(auto, using(crate::proofs::PlaceSteps::lists))]
pub(crate) fn places_of(
    alloc: Global,
    groups: &[Group],
    members: &[u32],
) -> Result<Vec<u32>, NoMemory>
    requires { All (λ m. (1 ≤ m) × (m ≤ length groups.now)) members.now }
    ensures ascending { IfOk result (λ places. IsStrictlyIncreasing places.items) }
    ensures places { IfOk result (λ places. (p : ℕ) → is_one_of places.items p ≡ freed_by groups.now members.now p) }
{
    let table = freed(alloc, groups, members)?;
    listed(alloc, table.as_slice())
}
