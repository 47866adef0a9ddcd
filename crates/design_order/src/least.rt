ghost use Rattle.std.specs.Prelude.{◌≡◌, ◌+◌, ◌^◌, ◌<◌, ◌≤◌, ◌==◌, ◌&&◌, ◌||◌, ℕ, All, not, true, false, length, slice_index, slice_index_or, IfOk, OnOk, IfSome, IfNone, IfErr, vec_len, count_by};
ghost use Rattle.std.specs.Ordering.{nat_cmp};
ghost use Rattle.std.specs.BTreeSet.{contains};
ghost use Rattle.design_core.specs.Order.{IsLeastOrderOf};
ghost use Rattle.design_order.specs.Rows.{AreUsers, AreWithin, Listed, has, times};
ghost use Rattle.design_order.specs.Refusal.{IsRefused};
ghost use Rattle.design_order.specs.Running.{IsRunning};

use crate::circle::circle_from;
use crate::error::OrderErr;
use crate::users::users_of;
use loc_base::{Items, NoMemory, Rows};
use std::alloc::Global;
use std::collections::BTreeSet;

/// What was taken so far, in order and by number; how many of each one's needs were not; and those that are ready.
#[derive(Drop)]
pub(crate) struct State {
    pub(crate) order: Vec<u32>,
    pub(crate) taken: Vec<bool>,
    pub(crate) counts: Vec<usize>,
    pub(crate) ready: BTreeSet<u32>,
}

/// Takes the least number out of a set.
fn take_least(ready: &mut BTreeSet<u32>) -> Option<u32>
    ensures taken { IfSome result (λ d. (k : ℕ) → contains nat_cmp ready.new k ≡ (contains nat_cmp ready.old k && not (d == k))) }
    ensures member { IfSome result (λ d. contains nat_cmp ready.old d ≡ true) }
    ensures least { IfSome result (λ d. (k : ℕ) → k < d → contains nat_cmp ready.old k ≡ false) }
    ensures none { IfNone result ((k : ℕ) → contains nat_cmp ready.new k ≡ contains nat_cmp ready.old k) }
    ensures empty { IfNone result ((k : ℕ) → contains nat_cmp ready.old k ≡ false) }
{
    ready.pop_first()
}

/// Makes a number ready where none of its needs is left.
fn note_ready(ready: &mut BTreeSet<u32>, number: u32, count: usize) -> Result<(), NoMemory>
    ensures { OnOk result ((k : ℕ) → contains nat_cmp ready.new k ≡ (contains nat_cmp ready.old k || (number == k && count == 0))) }
{
    if count == 0 {
        ready.insert(number)?;
    }
    Ok(())
}

/// Counts one need less for each user, and makes those ready that have none left.
fn release(
    counts: &mut Vec<usize>,
    ready: &mut BTreeSet<u32>,
    users: &[u32],
) -> Result<(), NoMemory>
    requires within { All (λ x. x < vec_len counts.old) users.now }
    requires enough { (k : ℕ) → times k users.now ≤ slice_index counts.old.items k }
    ensures long { OnOk result (vec_len counts.new ≡ vec_len counts.old) }
    ensures counts { OnOk result ((k : ℕ) → slice_index counts.new.items k + times k users.now ≡ slice_index counts.old.items k) }
    ensures ready { OnOk result ((k : ℕ) → contains nat_cmp ready.new k ≡ (contains nat_cmp ready.old k || (has users.now k && slice_index counts.new.items k == 0))) }
{
    for user in users {
        let count = counts[*user as usize] - 1;
        counts[*user as usize] = count;
        note_ready(ready, *user, count)?;
    }
    Ok(())
}

/// What holds before any number is taken.
fn begin(alloc: Global, needs: &Rows<u32>) -> Result<State, NoMemory>
    requires { length needs.now < 2 ^ 32 }
    ensures { IfOk result (IsRunning needs.now) }
{
    let mut counts = Vec::new(alloc);
    let mut ready = BTreeSet::new(alloc);
    for i in 0..needs.len() {
        let count = needs.row(i).len();
        counts.push(count)?;
        note_ready(&mut ready, i as u32, count)?;
    }
    let taken = vec![in alloc; false; needs.len()]?;
    Ok(State {
        order: Vec::new(alloc),
        taken,
        counts,
        ready,
    })
}

/// Takes the least number that is ready, and answers whether there was one.
fn take_next(needs: &Rows<u32>, users: &[Items<u32>], state: &mut State) -> Result<bool, NoMemory>
    requires running { IsRunning needs.now state.old }
    requires users { AreUsers needs.now users.now }
    ensures running { OnOk result (IsRunning needs.now state.new) }
    ensures stuck { IfOk result (λ was. was ≡ false → (k : ℕ) → contains nat_cmp state.new.ready k ≡ false) }
    ensures smaller { IfOk result (λ was. was ≡ true → count_by not state.new.taken.items < count_by not state.old.taken.items) }
{
    let _needs = needs;
    let Some(number) = take_least(&mut state.ready) else {
        return Ok(false);
    };
    state.order.push(number)?;
    state.taken[number as usize] = true;
    release(&mut state.counts, &mut state.ready, &users[number as usize])?;
    Ok(true)
}

/// The first number that was not taken.
fn first_untaken(taken: &[bool]) -> Option<u32>
    requires { length taken.now < 2 ^ 32 }
    ensures none { IfNone result ((k : ℕ) → k < length taken.now → slice_index_or taken.now k false ≡ true) }
    ensures some { IfSome result (λ k. (k < length taken.now) × (slice_index_or taken.now k false ≡ false)) }
{
    for (number, is_taken) in taken.iter().enumerate() {
        if !*is_taken {
            return Some(number as u32);
        }
    }
    None
}

/// The order where all were taken, else a circle.
fn finish(alloc: Global, needs: &Rows<u32>, state: State) -> Result<Vec<u32>, OrderErr>
    requires within { AreWithin needs.now }
    requires few { length needs.now < 2 ^ 32 }
    requires running { IsRunning needs.now state }
    requires stuck { (k : ℕ) → contains nat_cmp state.ready k ≡ false }
    ensures ordered { IfOk result (λ order. IsLeastOrderOf (Listed needs.now) (length needs.now) order.items) }
    ensures refused { IfErr result (IsRefused (Listed needs.now) (length needs.now)) }
{
    let State {
        order,
        taken,
        counts: _,
        ready: _,
    } = state;
    match first_untaken(&taken) {
        None => Ok(order),
        Some(from) => {
            let drivers = circle_from(alloc, needs, &taken, from)?;
            Err(OrderErr::Circle { drivers })
        }
    }
}

/// The least order of all numbers, or numbers that need each other in a circle. `needs` has a row for each number, with those
/// that it needs.
pub fn least_order(alloc: Global, needs: &Rows<u32>) -> Result<Vec<u32>, OrderErr>
    requires within { AreWithin needs.now }
    requires few { length needs.now < 2 ^ 32 }
    ensures ordered { IfOk result (λ order. IsLeastOrderOf (Listed needs.now) (length needs.now) order.items) }
    ensures refused { IfErr result (IsRefused (Listed needs.now) (length needs.now)) }
{
    let users = users_of(alloc, needs)?;
    let mut state = begin(alloc, needs)?;
    'taking: while take_next(needs, &users, &mut state)? {}
    finish(alloc, needs, state)
}
