//! Which clauses of a form the chains of a log name.

ghost use Rattle.std.specs.Prelude.{◌≡◌, ◌+◌, ◌<◌, ◌||◌, ◌==◌, IfOk, get_or, length, true, ℕ};
ghost use Rattle.proof_check.specs.Named.{is_in, is_named};

use clause_base::Log;
use loc_base::{Items, NoMemory};
use std::alloc::Global;

/// Marks the clause with that number, counted from 1, where it has a mark.
#[tactic(auto, using(crate::proofs::Mentioned::marking))]
fn mark(marks: &mut [bool], number: u32)
    ensures long { length marks.new ≡ length marks.old }
    ensures marks { (place : ℕ) → get_or marks.new place true ≡ (get_or marks.old place true || number == place + 1) }
{
    if number == 0 {
        return;
    }
    let place = number as usize - 1;
    if place < marks.len() {
        marks[place] = true;
    }
}

/// Marks those that a chain names.
fn mark_chain(marks: &mut [bool], chain: &[u32])
    ensures long { length marks.new ≡ length marks.old }
    ensures marks { (place : ℕ) → get_or marks.new place true ≡ (get_or marks.old place true || is_in chain.now (place + 1)) }
{
    for number in chain {
        mark(marks, *number);
    }
}

/// Of the first so many clauses of a form, whether the chains of the log name it.
pub fn named(alloc: Global, log: &Log, most: usize) -> Result<Items<bool>, NoMemory>
    ensures long { IfOk result (λ marks. length marks ≡ most) }
    ensures marks { IfOk result (λ marks. (place : ℕ) → place < most → get_or marks place true ≡ is_named log.now (place + 1)) }
{
    let mut marks = vec![in alloc; false; most]?;
    for place in 0..log.len() {
        mark_chain(&mut marks, log.chain(place));
    }
    Ok(Items::from_vec(marks))
}
