//! The places of a set.

ghost use Rattle.std.specs.Prelude.{ℕ, ◌≡◌, ◌≤◌, All, IfOk, length, map};
ghost use Rattle.std.specs.List.Sorted.{IsNonDecreasing, IsStrictlyIncreasing};
ghost use Rattle.design_core.specs.Explained.{is_one_of, place_width};
ghost use Rattle.design_core.specs.Works.{places_of};
ghost use Rattle.report_sets.specs.Reading.{groups_of};

use design_core::Design;
use loc_base::{Items, NoMemory};
use std::alloc::Global;
use suspect_map::Group;

/// The places of the members, as they stand in their groups.
#[tactic(auto, using(crate::proofs::PlacesOnce::member_rules))]
fn all_places(alloc: Global, groups: &[Group], members: &[u32]) -> Result<Vec<u32>, NoMemory>
    requires { All (λ m. (1 ≤ m) × (m ≤ length groups.now)) members.now }
    ensures { IfOk result (λ places. (p : ℕ) → is_one_of places.items p ≡ places_of (groups_of groups.now) members.now p) }
{
    let mut places = Vec::new(alloc);
    for member in members {
        let group = &groups[*member as usize - 1];
        places.extend_from_slice(group.places.as_slice())?;
    }
    Ok(places)
}

/// The numbers of a list that is sorted, each once.
#[tactic(auto, using(crate::proofs::PlacesOnce::once_rules))]
fn each_once(alloc: Global, sorted: &[u32]) -> Result<Vec<u32>, NoMemory>
    requires { IsNonDecreasing sorted.now }
    ensures ascending { IfOk result (λ once. IsStrictlyIncreasing once.items) }
    ensures same { IfOk result (λ once. (p : ℕ) → is_one_of once.items p ≡ is_one_of sorted.now p) }
{
    let mut once = Vec::new(alloc);
    for place in 0..sorted.len() {
        if place == 0 || sorted[place - 1] != sorted[place] {
            once.push(sorted[place])?;
        }
    }
    Ok(once)
}

/// The places of the members, ascending.
pub(crate) fn places_of(
    alloc: Global,
    groups: &[Group],
    members: &[u32],
) -> Result<Vec<u32>, NoMemory>
    requires { All (λ m. (1 ≤ m) × (m ≤ length groups.now)) members.now }
    ensures ascending { IfOk result (λ places. IsStrictlyIncreasing places.items) }
    ensures places { IfOk result (λ places. (p : ℕ) → is_one_of places.items p ≡ places_of (groups_of groups.now) members.now p) }
{
    let mut places = all_places(alloc, groups, members)?;
    places.sort_unstable();
    each_once(alloc, &places)
}

/// The width of a place, 0 where there is none of that number.
fn place_width(design: &Design, place: usize) -> u8
    ensures { result ≡ place_width design.now place }
{
    match design.places.get(place) {
        Some(place) => place.width,
        None => 0,
    }
}

/// The widths of places.
pub(crate) fn widths_of(alloc: Global, design: &Design, places: &[u32]) -> Result<Vec<u8>, NoMemory>
    ensures { IfOk result (λ widths. widths.items ≡ map (place_width design.now) places.now) }
{
    let mut widths = Vec::new(alloc);
    for place in places {
        widths.push(place_width(design, *place as usize))?;
    }
    Ok(widths)
}
