//! Sets as lists of numbers, read off models.

ghost use Rattle.std.specs.Prelude.{◌≡◌, ◌≤◌, [], length, vec_capacity, IfOk};
ghost use Rattle.sat_core.specs.SolverState.{assignment_of};
ghost use Rattle.set_enum.specs.Certificate.{ArePassedOver, IsLastSelected};
ghost use Rattle.set_enum.specs.Sets.{block_of, numbers_from, selected};

use clause_base::{Clause, Lit};
use loc_base::{Items, NoMemory};
use std::alloc::Global;

/// The numbers from 1 to `n`.
#[tactic(auto, using(crate::proofs::Selecting::numbers_next))]
pub(crate) fn numbers_to(alloc: Global, n: u32) -> Result<Vec<u32>, NoMemory>
    ensures { IfOk result (λ numbers. numbers.items ≡ numbers_from 1 n) }
{
    let mut numbers = Vec::with_capacity(alloc, n as usize)?;
    for before in 0..n {
        numbers.push(before + 1)?;
    }
    Ok(numbers)
}

/// The selectors from 1 to `n` that a model makes true. It takes no memory but the room that it is given.
pub(crate) fn members_of(mut room: Vec<u32>, model: &[bool], n: u32) -> Items<u32>
    requires empty { room.items ≡ [] }
    requires within { n ≤ length model.now }
    requires enough { length (selected n (assignment_of model.now)) ≤ vec_capacity room }
    ensures { result ≡ selected n (assignment_of model.now) }
{
    for before in 0..n {
        if model[before as usize] {
            room.push(before + 1).unwrap();
        }
    }
    Items::from_vec(room)
}

/// The selectors from 1 to `n` that a model passes over: it makes them false, and a greater one true.
pub(crate) fn passed_over(alloc: Global, model: &[bool], n: u32) -> Result<Vec<u32>, NoMemory>
    requires { n ≤ length model.now }
    ensures { IfOk result (λ passed. ArePassedOver (selected n (assignment_of model.now)) passed.items) }
{
    let last = last_selected(model, n);
    let mut passed = Vec::new(alloc);
    for before in 0..last {
        if !model[before as usize] {
            passed.push(before + 1)?;
        }
    }
    Ok(passed)
}

/// The greatest selector from 1 to `n` that a model makes true, 0 where there is none.
fn last_selected(model: &[bool], n: u32) -> u32
    requires { n ≤ length model.now }
    ensures { IsLastSelected n (assignment_of model.now) result }
{
    let mut last = 0;
    for before in 0..n {
        if model[before as usize] {
            last = before + 1;
        }
    }
    last
}

/// The clause that the selectors that a model makes true aren't all true.
pub(crate) fn block_of(alloc: Global, model: &[bool], n: u32) -> Result<Clause, NoMemory>
    requires { n ≤ length model.now }
    ensures { IfOk result (λ block. block ≡ block_of (selected n (assignment_of model.now))) }
{
    let mut literals = Vec::new(alloc);
    for before in 0..n {
        if model[before as usize] {
            literals.push(Lit {
                var: before + 1,
                negated: true,
            })?;
        }
    }
    Clause::new(alloc, literals.as_slice())
}
