//! Lists of members, and their order.

ghost use Rattle.std.specs.Prelude.{◌≡◌, ◌≤◌, ◌<◌, ◌↔◌, All, IsTrue, Contains, length};
ghost use Rattle.std.specs.List.Sorted.{IsStrictlyIncreasing};
ghost use Rattle.loc_base.specs.Sets.{is_before, is_lower};
ghost use Rattle.design_core.specs.Works.{IsWithin};
ghost use Rattle.debug_core.specs.Problems.{problem_of};
ghost use Rattle.list_verdict.specs.Judging.{AreMembers, shares_gap};

use debug_core::Question;

/// Whether each number is below the next.
fn is_ascending(numbers: &[u32]) -> bool
    ensures { IsTrue result ↔ IsStrictlyIncreasing numbers.now }
{
    for place in 1..numbers.len() {
        if numbers[place] <= numbers[place - 1] {
            return false;
        }
    }
    true
}

/// Whether numbers are from 1 to the number of suspects.
fn are_numbers(numbers: &[u32], suspects: usize) -> bool
    ensures { IsTrue result ↔ All (λ m. (1 ≤ m) × (m ≤ suspects)) numbers.now }
{
    numbers
        .iter()
        .all(|number| 1 <= *number && *number as usize <= suspects)
}

/// Whether members are numbers of suspects, ascending, and at most as many as may be in a set.
#[tactic(auto, using(crate::proofs::Ordered::members_rules))]
pub(crate) fn are_members(question: &Question<'_>, members: &[u32]) -> bool
    ensures { IsTrue result ↔ AreMembers (problem_of question.now) members.now }
{
    members.len() <= question.k as usize
        && is_ascending(members)
        && are_numbers(members, question.groups.len())
}

/// Whether one list stands before another of its length: by the first number that differs.
fn is_lower(one: &[u32], other: &[u32]) -> bool
    ensures { result ≡ is_lower one.now other.now }
{
    match one.split_first() {
        Some((x, xs)) => match other.split_first() {
            Some((y, ys)) => x < y || (x == y && is_lower(xs, ys)),
            None => false,
        },
        None => false,
    }
}

/// Whether one set comes before another: by size, then by members.
pub(crate) fn is_before(one: &[u32], other: &[u32]) -> bool
    ensures { result ≡ is_before one.now other.now }
{
    one.len() < other.len() || (one.len() == other.len() && is_lower(one, other))
}

/// Whether a number is one of some.
fn has(numbers: &[u32], number: u32) -> bool
    ensures { IsTrue result ↔ Contains numbers.now number }
{
    numbers.contains(&number)
}

/// Whether each member of one list is one of another.
pub(crate) fn is_within(inner: &[u32], outer: &[u32]) -> bool
    ensures { IsTrue result ↔ IsWithin inner.now outer.now }
{
    for member in inner {
        if !has(outer, *member) {
            return false;
        }
    }
    true
}

/// Of two ascending lists, the other not before the one: whether they are the same up to the one's first member that isn't in `outer`,
/// and no member of `outer` stands between that and the other's at its place.
pub(crate) fn shares_gap(outer: &[u32], one: &[u32], other: &[u32]) -> bool
    ensures { result ≡ shares_gap outer.now one.now other.now }
{
    let Some((x, xs)) = one.split_first() else {
        return false;
    };
    let Some((bound, bounds)) = outer.split_first() else {
        return true;
    };
    let Some((y, ys)) = other.split_first() else {
        return false;
    };
    if bound < x {
        shares_gap(bounds, one, other)
    } else if x < bound {
        y < bound
    } else {
        x == y && shares_gap(bounds, xs, ys)
    }
}
