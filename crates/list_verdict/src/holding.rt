//! Whether a set holds another. For each set those before it are gone over from the first on. Where one of them isn't within the set,
//! its first member outside lies in a gap between the set's members. The sets behind it that are the same up to there, and have a member
//! in that gap too, follow one another, and aren't within the set either: one binary search passes them all.

ghost use Rattle.std.specs.Prelude.{◌<◌, ◌≤◌, ◌+◌, ◌^◌, length};
ghost use Rattle.std.specs.List.Sorted.{IsStrictlyIncreasing};
ghost use Rattle.list_verdict.specs.Judging.{AreAscending, FirstHeld, FirstToHold, NoneWithin};

use crate::members::{is_within, shares_gap};
use crate::order::set_at;
use report_doc::types::ReportSet;

/// A set that holds another; both counted from 1.
#[derive(Clone, Copy)]
pub(crate) struct Holding {
    pub(crate) set: u32,
    pub(crate) other: u32,
}

/// The place behind the sets that share the gap of the one at `from`, which isn't within `outer`: none of them is.
fn past_gap(sets: &[ReportSet], outer: &[u32], from: usize, place: usize) -> usize
    requires from { from < place }
    requires place { place < length sets.now }
    requires order { AreAscending sets.now }
    requires outer { IsStrictlyIncreasing outer.now }
    requires none { NoneWithin sets.now outer.now (from + 1) }
    ensures later { from < result }
    ensures most { result ≤ place }
    ensures none { NoneWithin sets.now outer.now result }
{
    let first = set_at(sets, from).members.as_slice();
    let mut low = from + 1;
    let mut high = place;
    while low < high {
        let middle = low + (high - low) / 2;
        let other = set_at(sets, middle).members.as_slice();
        if other.len() == first.len() && shares_gap(outer, first, other) {
            low = middle + 1;
        } else {
            high = middle;
        }
    }
    low
}

/// The place, counted from 0, of the first set before another that is within it.
#[tactic(auto, using(crate::proofs::Held::held_rules))]
fn first_held(sets: &[ReportSet], place: usize) -> Option<usize>
    requires place { place < length sets.now }
    requires order { AreAscending sets.now }
    ensures { FirstHeld sets.now place result }
{
    let set = set_at(sets, place);
    let outer = set.members.as_slice();
    let mut from = 0;
    while from < place {
        let inner = set_at(sets, from).members.as_slice();
        if outer.len() <= inner.len() {
            return None;
        }
        if is_within(inner, outer) {
            return Some(from);
        }
        from = past_gap(sets, outer, from, place);
    }
    None
}

/// The first set that holds another, and the first that it holds. A set that is within another of the list stands before it, so
/// that no later one is looked at.
#[tactic(auto, using(crate::proofs::Held::hold_rules))]
pub(crate) fn first_to_hold(sets: &[ReportSet]) -> Option<Holding>
    requires few { length sets.now < 2 ^ 32 }
    requires order { AreAscending sets.now }
    ensures { FirstToHold sets.now result }
{
    for place in 0..sets.len() {
        match first_held(sets, place) {
            Some(other) => {
                return Some(Holding {
                    set: place as u32 + 1,
                    other: other as u32 + 1,
                });
            }
            None => {}
        }
    }
    None
}
