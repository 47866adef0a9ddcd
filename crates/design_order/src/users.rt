ghost use Rattle.std.specs.Prelude.{◌≡◌, ◌+◌, ◌^◌, ◌<◌, ◌==◌, ℕ, All, cond, if◌then◌else◌, length, ◌↔◌, IsTrue, OnOk, IfOk, vec_len};
ghost use Rattle.design_order.specs.Rows.{AreUsers, AreWithin, row, times};

use loc_base::{Items, NoMemory, Rows};
use std::alloc::Global;

/// Adds a user to the row of each number that it needs.
fn add_user(users: &mut Vec<Items<u32>>, user: u32, needed: &[u32]) -> Result<(), NoMemory>
    requires within { All (λ x. x < vec_len users.old) needed.now }
    ensures long { OnOk result (vec_len users.new ≡ vec_len users.old) }
    ensures times { OnOk result ((i j : ℕ) → times i (row users.new.items j) ≡ times i (row users.old.items j) + (if user == i then times j needed.now else 0)) }
{
    for number in needed {
        users[*number as usize].push(user)?;
    }
    Ok(())
}

/// The rows the other way: for each number those that need it, as often as they do.
pub(crate) fn users_of(alloc: Global, needs: &Rows<u32>) -> Result<Vec<Items<u32>>, NoMemory>
    requires within { AreWithin needs.now }
    requires few { length needs.now < 2 ^ 32 }
    ensures { IfOk result (λ users. AreUsers needs.now users.items) }
{
    let mut users = Vec::new(alloc);
    for _ in 0..needs.len() {
        users.push(Items::new(alloc))?;
    }
    for i in 0..needs.len() {
        add_user(&mut users, i as u32, needs.row(i))?;
    }
    Ok(users)
}

/// Whether all numbers of a row are below another.
fn is_below(row: &[u32], count: usize) -> bool
    ensures { IsTrue result ↔ All (λ x. x < count) row.now }
{
    row.iter().all(|number| (*number as usize) < count)
}

/// Whether each number of each row is that of a row.
pub fn are_within(needs: &Rows<u32>) -> bool
    ensures { IsTrue result ↔ AreWithin needs.now }
{
    for i in 0..needs.len() {
        if !is_below(needs.row(i), needs.len()) {
            return false;
        }
    }
    true
}
