//! Races between blocks (IEEE 1364-2005, 11.4.1 and 11.5).
ghost use Rattle.std.specs.Prelude.{◌≡◌, ◌<◌, ◌&&◌, ℕ, true, false, length, IfOk, OnOk, IfNone, IfSome};
ghost use Rattle.design_core.specs.Given.{CanRun};
ghost use Rattle.design_core.specs.Valuation.{bit};
ghost use Rattle.design_bits.specs.Masks.{Adds, has};
ghost use Rattle.design_rules.specs.First.{IsFirst};
ghost use Rattle.design_rules.specs.Races.{IsRace};
ghost use Rattle.assign_rules.specs.UsedBy.{is_used_at};
ghost use Rattle.assign_rules.specs.Racing.{AreRacing};
ghost use Rattle.assign_rules.specs.Ways.{is_home};

use crate::assigned::{add_clocked, is_home};
use crate::homes::Homes;
use crate::users::{Users, is_used_beside, users_of};
use design_bits::BitSet;
use design_core::Design;
use loc_base::NoMemory;
use std::alloc::Global;

/// A mask where something holds, else no bit.
#[tactic(auto, using(crate::proofs::RaceLaws::masked))]
fn mask_if(holds: bool, mask: u128) -> u128
    ensures { (b : ℕ) → bit result b ≡ (bit mask b && holds) }
{
    if holds { mask } else { 0 }
}

/// Whether a home is used outside the clocked block of that number.
fn is_used_at(table: &[Users], home: usize, number: usize) -> bool
    requires { home < length table.now }
    ensures { result ≡ is_used_at table.now home number }
{
    is_used_beside(table[home], number)
}

/// Adds those of some homes that are used outside the clocked block of that number.
fn add_used(
    racing: &mut BitSet,
    own: &BitSet,
    table: &[Users],
    number: usize,
) -> Result<(), NoMemory>
    requires own { length own.now ≡ length racing.old }
    requires table { length table.now ≡ length racing.old }
    ensures { OnOk result (Adds racing.old racing.new (λ h b. has own.now h b && is_used_at table.now h number)) }
{
    for home in own.signals() {
        let is_used = is_used_at(table, *home, number);
        racing.add(*home, mask_if(is_used, own.mask(*home)))?;
    }
    Ok(())
}

/// The homes that some clocked block assigns by `=` and that are used outside it.
fn racing_of(
    alloc: Global,
    design: &Design,
    homes: Homes<'_>,
    table: &[Users],
) -> Result<BitSet, NoMemory>
    requires { length table.now ≡ homes.count }
    ensures long { IfOk result (λ racing. length racing ≡ homes.entry.count) }
    ensures racing { IfOk result (AreRacing design.now homes.entry.list.now table.now (length design.now.clocked.items)) }
{
    let mut racing = BitSet::new(alloc, homes.count)?;
    let mut own = BitSet::new(alloc, homes.count)?;
    for (number, block) in design.clocked.iter().enumerate() {
        own.clear();
        add_clocked(&mut own, homes.list, false, block)?;
        add_used(&mut racing, &own, table, number)?;
    }
    Ok(racing)
}

/// The first home of a set.
fn first_home(set: &BitSet) -> Option<usize>
    ensures none { IfNone result ((h : ℕ) → h < length set.now → is_home set.now h ≡ false) }
    ensures some { IfSome result (λ h. is_home set.now h ≡ true) }
    ensures within { IfSome result (λ h. h < length set.now) }
    ensures first { IfSome result (λ h. (k : ℕ) → k < h → is_home set.now k ≡ false) }
{
    for home in 0..set.len() {
        if is_home(set, home) {
            return Some(home);
        }
    }
    None
}

/// The first signal that a clocked block assigns by `=` and of which a bit is read outside that block, or is one of an output of the
/// top. `None` where there is none. `homes` has for each signal the first word of its array, and the signal itself where it is no word
/// of one: an array is one signal here.
pub fn first_race(alloc: Global, design: &Design, homes: &[u32]) -> Result<Option<usize>, NoMemory>
    requires { CanRun design.now }
    ensures { IfOk result (IsFirst (IsRace design.now homes.now)) }
{
    let all = Homes::of(homes, design.signals.len());
    let table = users_of(alloc, design, all)?;
    let racing = racing_of(alloc, design, all, &table)?;
    Ok(first_home(&racing))
}
