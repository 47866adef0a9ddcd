//! The entries of a design's places, by which a simulator frees some of them.
ghost use Rattle.std.specs.Prelude.{◌≡◌, ◌<◌, ◌||◌, ℕ, All, IfOk, false, if◌then◌else◌, length, map, slice_get, Some};
ghost use Rattle.loc_base.specs.Bits.{value_of};
ghost use Rattle.design_core.specs.Explained.{is_one_of, number_for};
ghost use Rattle.design_core.specs.Given.{freed_of};
ghost use Rattle.cycle_sim.specs.Replaying.{chosen_at};

use loc_base::{Bits, NoMemory};
use std::alloc::Global;

/// For each place of a design whether it is freed, and the value that it then takes.
#[derive(Drop)]
pub struct Entries {
    pub freed: Vec<bool>,
    pub choice: Vec<Bits>,
}

/// So many places, none of them freed.
fn none_freed(alloc: Global, count: usize) -> Result<Vec<bool>, NoMemory>
    ensures count { IfOk result (λ freed. length freed.items ≡ count) }
    ensures none { IfOk result (λ freed. (p : ℕ) → freed_of freed.items p ≡ false) }
{
    let mut freed = Vec::new(alloc);
    for _k in 0..count {
        freed.push(false)?;
    }
    Ok(freed)
}

/// A word of 0 for each of so many places.
fn none_chosen(alloc: Global, count: usize) -> Result<Vec<Bits>, NoMemory>
    ensures count { IfOk result (λ choice. length choice.items ≡ count) }
    ensures zeros { IfOk result (λ choice. (p : ℕ) → chosen_at choice.items p ≡ 0) }
{
    let mut choice = Vec::new(alloc);
    for _k in 0..count {
        choice.push(Bits::zero(1))?;
    }
    Ok(choice)
}

/// The place at an index of some.
#[tactic(auto, using(plain_values::proofs::EvaluateWords::slice_get_at))]
fn place_at(places: &[u32], k: usize) -> usize
    requires { k < length places.now }
    ensures { slice_get places.now k ≡ Some result }
{
    places[k] as usize
}

/// Frees some places, beside those that are.
fn free(places: &[u32], freed: &mut [bool])
    requires { All (λ p. p < length freed.old) places.now }
    ensures length { length freed.new ≡ length freed.old }
    ensures freed { (p : ℕ) → freed_of freed.new p ≡ (is_one_of places.now p || freed_of freed.old p) }
{
    for k in 0..places.len() {
        freed[place_at(places, k)] = true;
    }
}

/// Puts the words of a row into the places' entries, from the last place to the first.
pub(crate) fn choose(places: &[u32], row: &[Bits], choice: &mut [Bits])
    requires places { All (λ p. p < length choice.old) places.now }
    requires row { length row.now ≡ length places.now }
    ensures length { length choice.new ≡ length choice.old }
    ensures choice { (p : ℕ) → chosen_at choice.new p
        ≡ (if is_one_of places.now p then number_for places.now (map value_of row.now) p else chosen_at choice.old p) }
{
    let mut left = places.len();
    while left > 0 {
        left -= 1;
        choice[place_at(places, left)] = row[left];
    }
}

impl Entries {
    /// So many places, of which some are freed.
    pub fn new(alloc: Global, count: usize, places: &[u32]) -> Result<Entries, NoMemory>
        requires { All (λ p. p < count) places.now }
        ensures frees { IfOk result (λ e. length e.freed.items ≡ count) }
        ensures values { IfOk result (λ e. length e.choice.items ≡ count) }
        ensures freed { IfOk result (λ e. (p : ℕ) → freed_of e.freed.items p ≡ is_one_of places.now p) }
        ensures zeros { IfOk result (λ e. (p : ℕ) → chosen_at e.choice.items p ≡ 0) }
    {
        let mut freed = none_freed(alloc, count)?;
        let choice = none_chosen(alloc, count)?;
        free(places, &mut freed);
        Ok(Entries { freed, choice })
    }
}
