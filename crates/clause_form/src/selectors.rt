//! The selectors of the suspects with a place.

ghost use Rattle.std.specs.Prelude.{[], ◌++◌, ◌∷◌, ◌≡◌, ◌==◌, ◌+◌, ◌<◌, ◌≤◌, ◌^◌, IfOk, OnOk, get_or, if◌then◌else◌, length, ℕ};
ghost use Rattle.std.specs.List.{list_any};
ghost use Rattle.card_counter.specs.InForm.{literals_from};
ghost use Rattle.clause_base.specs.Literal.{positive};
ghost use Rattle.clause_form.specs.Clauses.{selectors_of};
ghost use Rattle.clause_form.specs.Variables.{AreBelow, ends_with, once};

use clause_base::Lit;
use loc_base::{Items, NoMemory};
use std::alloc::Global;
use suspect_map::Group;

/// The selector of a suspect.
fn selector(number: u32) -> Lit
    ensures { result ≡ positive number }
{
    Lit {
        var: number,
        negated: false,
    }
}

/// Those of all suspects.
#[tactic(auto, using(crate::proofs::SelectorSteps::all))]
pub(crate) fn selectors(alloc: Global, suspects: u32) -> Result<Items<Lit>, NoMemory>
    ensures { IfOk result (λ all. all ≡ literals_from 1 suspects) }
{
    let mut all = Items::new(alloc);
    for i in 0..suspects {
        all.push(selector(i + 1))?;
    }
    Ok(all)
}

/// Makes at least so many rows. Those that are new are empty.
#[tactic(auto, using(crate::proofs::SelectorSteps::longer))]
fn lengthen(alloc: Global, rows: &mut Vec<Items<Lit>>, len: usize) -> Result<(), NoMemory>
    ensures long { OnOk result (len ≤ length rows.new.items) }
    ensures same { OnOk result ((p : ℕ) → get_or rows.new.items p [] ≡ get_or rows.old.items p []) }
{
    let missing = len.saturating_sub(rows.len());
    for i in 0..missing {
        rows.push(Items::new(alloc))?;
    }
    Ok(())
}

/// Whether the last selector of a row is that of a suspect.
#[tactic(auto, using(crate::proofs::SelectorSteps::ends))]
fn ends_with(row: &[Lit], number: u32) -> bool
    requires { 1 ≤ number }
    ensures { result ≡ ends_with number row.now }
{
    !row.is_empty() && row[row.len() - 1].var == number
}

/// Appends the selector of a suspect to the row of a place, where it isn't there.
#[tactic(auto, using(crate::proofs::SelectorSteps::adds))]
fn add(alloc: Global, rows: &mut Vec<Items<Lit>>, place: u32, number: u32) -> Result<(), NoMemory>
    requires { 1 ≤ number }
    ensures { OnOk result ((p : ℕ) → get_or rows.new.items p [] ≡ (if place == p then once number (get_or rows.old.items p []) else get_or rows.old.items p [])) }
{
    let place = place as usize;
    lengthen(alloc, rows, place + 1)?;
    if !ends_with(&rows[place], number) {
        rows[place].push(selector(number))?;
    }
    Ok(())
}

/// Appends it to the rows of some places.
#[tactic(auto, using(crate::proofs::SelectorSteps::places))]
fn add_all(
    alloc: Global,
    rows: &mut Vec<Items<Lit>>,
    places: &[u32],
    number: u32,
) -> Result<(), NoMemory>
    requires some { 1 ≤ number }
    requires below { (p : ℕ) → AreBelow number (get_or rows.old.items p []) }
    ensures { OnOk result ((p : ℕ) → get_or rows.new.items p [] ≡ (if list_any (λ q. q == p) places.now then get_or rows.old.items p [] ++ positive number ∷ [] else get_or rows.old.items p [])) }
{
    for i in 0..places.len() {
        add(alloc, rows, places[i], number)?;
    }
    Ok(())
}

/// For each place, the selectors of the suspects with it.
#[tactic(auto, using(crate::proofs::SelectorSteps::rows))]
pub(crate) fn selector_rows(alloc: Global, groups: &[Group]) -> Result<Items<Items<Lit>>, NoMemory>
    requires { length groups.now < 2 ^ 32 }
    ensures { IfOk result (λ rows. (p : ℕ) → get_or rows p [] ≡ selectors_of groups.now p) }
{
    let mut rows = Vec::new(alloc);
    let mut number = 0;
    for i in 0..groups.len() {
        number += 1;
        add_all(alloc, &mut rows, groups[i].places.as_slice(), number)?;
    }
    Ok(Items::from_vec(rows))
}

/// The selectors of the suspects with a place.
pub(crate) fn row_of(rows: &[Items<Lit>], place: u32) -> &[Lit]
    ensures { result.now ≡ get_or rows.now place [] }
{
    match rows.get(place as usize) {
        Some(row) => row.as_slice(),
        None => &[],
    }
}
