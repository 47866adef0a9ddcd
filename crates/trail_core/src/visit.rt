ghost use Rattle.std.specs.Prelude.{◌≡◌, ◌≢◌, ℕ, ◌+◌, ◌-◌, ◌<◌, ◌≤◌, ◌^◌, true, false, IsTrue, IfSome, IfNone, Some, length, slice_index, slice_index_or};
ghost use Rattle.std.specs.Vec.{vec_capacity};
ghost use Rattle.clause_base.specs.declared.literal.Lit.{Lit};
ghost use Rattle.clause_base.specs.Literal.{has};
ghost use Rattle.clause_base.specs.Acceptance.{numbered};
ghost use Rattle.trail_core.specs.Values.{IsVariable, IsTrueIn, IsFalseIn, IsUnassignedIn};
ghost use Rattle.trail_core.specs.TrailState.{IsTrail, IsNumber, IsReason, Propagates, values_of};
ghost use Rattle.trail_core.specs.Look.{Falsifies};
ghost use Rattle.trail_core.specs.Watching.{KeepsMarks, list_of, room_of, code_of};
ghost use Rattle.trail_core.specs.Visits.{IsGone, IsReplacement, IsOriented, SeenGives, ForceGives, IsMoved, IsKnown};

use crate::plain::PlainTrail;
use crate::watches::{Pair, Watches, are_same, push_number};
use clause_base::Lit;

/// What came of a visit of a clause at a literal that became false.
#[derive(Clone, Copy)]
pub(crate) enum Seen {
    /// It goes on watching the literal: its other watched literal is true.
    Stays,
    /// It doesn't watch the literal any more.
    Leaves,
    /// All its literals are false.
    Falsified,
}

/// Whether the variable has that value.
pub(crate) fn has_value(trail: &PlainTrail, var: u32, value: bool) -> bool
    requires { IsVariable trail.now.vars var }
    ensures yes { IsTrue result → values_of trail.now.entries var ≡ Some value }
    ensures no { result ≡ false → values_of trail.now.entries var ≡ Some value → ⊥ }
{
    match trail.value(var) {
        Some(known) => known == value,
        None => false,
    }
}

/// Whether the literal of a variable of the trail is false.
pub(crate) fn is_false(trail: &PlainTrail, l: Lit) -> bool
    requires { IsVariable trail.now.vars l.var }
    ensures yes { IsTrue result → IsFalseIn (values_of trail.now.entries) l }
    ensures no { result ≡ false → IsFalseIn (values_of trail.now.entries) l → ⊥ }
{
    has_value(trail, l.var, l.negated)
}

/// Whether the literal isn't false, and is of another variable than `other`.
fn may_replace(trail: &PlainTrail, l: Lit, other: Lit) -> bool
    requires { IsVariable trail.now.vars l.var }
    ensures apart { IsTrue result → l.var ≢ other.var }
    ensures not_false { IsTrue result → IsFalseIn (values_of trail.now.entries) l → ⊥ }
    ensures no { result ≡ false → l.var ≢ other.var → IsFalseIn (values_of trail.now.entries) l }
{
    if l.var == other.var {
        return false;
    }
    !is_false(trail, l)
}

/// A literal of the clause that isn't false, of another variable than `other`.
fn replacement(trail: &PlainTrail, number: u32, other: Lit) -> Option<Lit>
    requires { IsNumber trail.now.clauses number }
    ensures found { IfSome result (IsReplacement trail.now number other) }
    ensures none { IfNone result ((l : Lit) → has (numbered trail.now.clauses number) l ≡ true → l.var ≢ other.var → IsFalseIn (values_of trail.now.entries) l) }
{
    for l in trail.clause(number) {
        if may_replace(trail, *l, other) {
            return Some(*l);
        }
    }
    None
}

/// Makes the literal true, the only one of the clause that isn't false, unless it is false too.
fn force_other(trail: &mut PlainTrail, number: u32, other: Lit) -> Seen
    requires variable { IsVariable trail.old.vars other.var }
    requires reason { IsUnassignedIn (values_of trail.old.entries) other → IsReason trail.old.clauses (values_of trail.old.entries) number other }
    requires falsified { (IsUnassignedIn (values_of trail.old.entries) other → ⊥) → Falsifies trail.old number }
    ensures { ForceGives trail.old trail.new number other result }
{
    if trail.value(other.var).is_some() {
        return Seen::Falsified;
    }
    trail.force(other, number);
    Seen::Stays
}

/// Makes the clause watch the second literal of the pair in place of one that it leaves.
fn move_watch(watches: &mut Watches, number: u32, pair: Pair)
    requires number { (1 ≤ number) × (number ≤ length watches.old.pairs.items) }
    requires within { code_of pair.second < length watches.old.lists.items }
    requires room { length (list_of watches.old.lists.items pair.second) < room_of watches.old.lists.items pair.second }
    ensures { IsMoved watches.old watches.new number pair }
{
    push_number(watches, pair.second, number);
    watches.pairs[number as usize - 1] = pair;
}

/// Visits the clause at the first literal of its pair, which became false.
fn visit_pair(trail: &mut PlainTrail, watches: &mut Watches, number: u32, pair: Pair) -> Seen
    requires known { IsKnown trail.old watches.old number pair.first }
    requires oriented { IsOriented (slice_index_or watches.old.pairs.items (number - 1) pair) pair }
    ensures gives { SeenGives trail.old trail.new watches.old watches.new pair.first number result }
    ensures same { watches.new.gone_over ≡ watches.old.gone_over }
    ensures size { length watches.new.pairs.items ≡ length watches.old.pairs.items }
    ensures capacity { vec_capacity watches.new.pairs ≡ vec_capacity watches.old.pairs }
    ensures marks { KeepsMarks watches.old.pairs.items watches.new.pairs.items }
{
    let other = pair.second;
    if has_value(trail, other.var, !other.negated) {
        return Seen::Stays;
    }
    match replacement(trail, number, other) {
        Some(next) => {
            let moved = Pair {
                first: other,
                second: next,
            };
            move_watch(watches, number, moved);
            Seen::Leaves
        }
        None => force_other(trail, number, other),
    }
}

/// Visits the clause at a literal that became false.
pub(crate) fn visit(trail: &mut PlainTrail, watches: &mut Watches, number: u32, gone: Lit) -> Seen
    requires { IsKnown trail.old watches.old number gone }
    ensures gives { SeenGives trail.old trail.new watches.old watches.new gone number result }
    ensures same { watches.new.gone_over ≡ watches.old.gone_over }
    ensures size { length watches.new.pairs.items ≡ length watches.old.pairs.items }
    ensures capacity { vec_capacity watches.new.pairs ≡ vec_capacity watches.old.pairs }
    ensures marks { KeepsMarks watches.old.pairs.items watches.new.pairs.items }
{
    let pair = watches.pairs[number as usize - 1];
    let other = if are_same(pair.first, gone) {
        pair.second
    } else if are_same(pair.second, gone) {
        pair.first
    } else {
        return Seen::Leaves;
    };
    visit_pair(
        trail,
        watches,
        number,
        Pair {
            first: gone,
            second: other,
        },
    )
}
