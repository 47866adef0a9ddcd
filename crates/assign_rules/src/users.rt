//! Which blocks use a signal (IEEE 1364-2005, 11.5).
ghost use Rattle.std.specs.Prelude.{◌≡◌, ◌≢◌, ◌<◌, ◌||◌, ℕ, length, slice_index, slice_index_or, IfOk, OnOk};
ghost use Rattle.design_core.specs.Mentions.{block_mentions};
ghost use Rattle.design_rules.specs.Assignments.{home_of};
ghost use Rattle.assign_rules.specs.declared.users.Users.TheVariants as users;
ghost use Rattle.assign_rules.specs.UsedBy.{is_used_beside, Notes, Reads, AreUsers, IsOutside};

use crate::homes::{Homes, home_of};
use design_bits::{BitSet, add_block_mentions, exceeds};
use design_core::{Clocked, Design, Signal};
use design_rules::{add_drivers_reads, add_outputs};
use loc_base::NoMemory;
use std::alloc::Global;

/// Who uses a signal.
#[derive(Clone, Copy)]
pub(crate) enum Users {
    Nobody,
    /// The clocked block of that number alone.
    Block(usize),
    /// What is no clocked block, or several of them.
    Several,
}

/// Whether a signal is used outside the clocked block of that number.
pub(crate) fn is_used_beside(users: Users, number: usize) -> bool
    ensures { result ≡ is_used_beside users number }
{
    match users {
        Users::Nobody => false,
        Users::Block(own) => own != number,
        Users::Several => true,
    }
}

/// The users of both.
#[tactic(auto, using(crate::proofs::UserLaws::joined))]
fn together(one: Users, other: Users) -> Users
    ensures { (k : ℕ) → is_used_beside result k ≡ (is_used_beside one k || is_used_beside other k) }
{
    match one {
        Users::Nobody => other,
        Users::Several => Users::Several,
        Users::Block(number) => beside(number, other),
    }
}

/// A clocked block with other users.
#[tactic(auto, using(crate::proofs::UserLaws::joined))]
fn beside(number: usize, other: Users) -> Users
    ensures { (k : ℕ) → is_used_beside result k ≡ (is_used_beside (users.Block number) k || is_used_beside other k) }
{
    match other {
        Users::Nobody => Users::Block(number),
        Users::Several => Users::Several,
        Users::Block(second) => {
            if number == second {
                Users::Block(number)
            } else {
                Users::Several
            }
        }
    }
}

/// Adds users to a signal's.
fn add_users(table: &mut Vec<Users>, home: usize, more: Users)
    requires { home < length table.old.items }
    ensures long { length table.new.items ≡ length table.old.items }
    ensures own { (k : ℕ) → is_used_beside (slice_index_or table.new.items home users.Nobody) k ≡ (is_used_beside (slice_index_or table.old.items home users.Nobody) k || is_used_beside more k) }
    ensures others { (h : ℕ) → h ≢ home → slice_index_or table.new.items h users.Nobody ≡ slice_index_or table.old.items h users.Nobody }
{
    table[home] = together(table[home], more);
}

/// Notes who uses the bits of a set.
fn note(table: &mut Vec<Users>, more: Users, homes: &[u32], own: &BitSet)
    requires { (s : ℕ) → home_of homes.now s < length table.old.items }
    ensures { Notes table.old.items table.new.items more homes.now own.now }
{
    for signal in own.signals() {
        if exceeds(own.mask(*signal), 0) {
            add_users(table, home_of(homes, *signal) as usize, more);
        }
    }
}

/// The bits that drivers read, and those of outputs.
fn outside(alloc: Global, design: &Design, none: &[u128]) -> Result<BitSet, NoMemory>
    requires long { length none.now ≡ length design.now.signals.items }
    requires none { (s : ℕ) → slice_index none.now s ≡ 0 }
    ensures { IfOk result (IsOutside design.now) }
{
    let mut own = BitSet::new(alloc, none.len())?;
    add_outputs(&mut own, design)?;
    add_drivers_reads(&mut own, none, design)?;
    Ok(own)
}

/// The bits that a clocked block reads, in a set that is kept from one to the next.
fn look_in(
    own: &mut BitSet,
    none: &[u128],
    signals: &[Signal],
    block: &Clocked,
) -> Result<(), NoMemory>
    requires long { length none.now ≡ length own.old }
    requires none { (s : ℕ) → slice_index none.now s ≡ 0 }
    ensures long { OnOk result (length own.new ≡ length own.old) }
    ensures bits { OnOk result (Reads own.new (λ s b. block_mentions signals.now s b block.now)) }
{
    own.clear();
    add_block_mentions(own, none, signals, block)
}

/// Who uses each signal of a design.
pub(crate) fn users_of(
    alloc: Global,
    design: &Design,
    homes: Homes<'_>,
) -> Result<Vec<Users>, NoMemory>
    requires { (s : ℕ) → home_of homes.list.now s < homes.count }
    ensures long { IfOk result (λ table. length table.items ≡ homes.entry.count) }
    ensures users { IfOk result (λ table. AreUsers design.now homes.entry.list.now (length design.now.clocked.items) table.items) }
{
    let none = vec![in alloc; 0; design.signals.len()]?;
    let mut table = vec![in alloc; Users::Nobody; homes.count]?;
    let mut own = outside(alloc, design, &none)?;
    note(&mut table, Users::Several, homes.list, &own);
    for (number, block) in design.clocked.iter().enumerate() {
        look_in(&mut own, &none, &design.signals, block)?;
        note(&mut table, Users::Block(number), homes.list, &own);
    }
    Ok(table)
}
