ghost use Rattle.std.specs.Prelude.{◌≡◌, ◌<◌, true, false, IsTrue, IfSome, IfNone, length, ◌⊎◌};
ghost use Rattle.clause_base.specs.Acceptance.{numbered};
ghost use Rattle.trail_core.specs.Values.{IsVariable, IsTrueIn, IsFalseIn, IsUnassignedIn, Rests};
ghost use Rattle.trail_core.specs.TrailState.{IsTrail, IsReason, Propagates, values_of};
ghost use Rattle.trail_core.specs.Look.{Falsifies};
ghost use Rattle.trail_core.specs.ShortListing.{one_of, two_of};
ghost use Rattle.trail_core.specs.Shorts.{lists_of, HasShorts, IsEntry, AreDue, IsLast, ShortsGive};
ghost use Rattle.trail_core.specs.Visits.{ArePresent};

use crate::plain::PlainTrail;
use crate::short_list::Short;
use crate::shorts::{Shorts, clauses_with};
use crate::visit::has_value;
use crate::watch::Watched;
use clause_base::Lit;

/// Whether one of the other literals of the clause is true.
fn is_satisfied(trail: &PlainTrail, short: Short) -> bool
    requires one { IsVariable trail.now.vars short.one_var }
    requires two { IsVariable trail.now.vars short.two_var }
    ensures yes { IsTrue result → (IsTrueIn (values_of trail.now.entries) (one_of short)) ⊎ (IsTrueIn (values_of trail.now.entries) (two_of short)) }
    ensures one { result ≡ false → IsTrueIn (values_of trail.now.entries) (one_of short) → ⊥ }
    ensures two { result ≡ false → IsTrueIn (values_of trail.now.entries) (two_of short) → ⊥ }
{
    if has_value(trail, short.one_var, !short.one_negated) {
        return true;
    }
    has_value(trail, short.two_var, !short.two_negated)
}

/// Makes the literal true, the only one of the clause that isn't false, unless it is false too. Whether it wasn't.
fn force_last(trail: &mut PlainTrail, number: u32, last: Lit) -> bool
    requires variable { IsVariable trail.old.vars last.var }
    requires reason { IsUnassignedIn (values_of trail.old.entries) last → IsReason trail.old.clauses (values_of trail.old.entries) number last }
    requires falsified { (IsUnassignedIn (values_of trail.old.entries) last → ⊥) → Falsifies trail.old number }
    requires trail { IsTrail trail.old }
    ensures appends { Propagates trail.old trail.new }
    ensures trail { IsTrail trail.new }
    ensures rests { IsTrue result → Rests (values_of trail.new.entries) (numbered trail.new.clauses number) }
    ensures falsified { result ≡ false → Falsifies trail.new number }
{
    if trail.value(last.var).is_some() {
        return false;
    }
    trail.force(last, number);
    true
}

/// Where one of the other literals of the clause is false, the second of them.
fn last_of(trail: &PlainTrail, short: Short) -> Option<Lit>
    requires one { IsVariable trail.now.vars short.one_var }
    requires two { IsVariable trail.now.vars short.two_var }
    ensures last { IfSome result (IsLast (values_of trail.now.entries) short) }
    ensures one { IfNone result (IsFalseIn (values_of trail.now.entries) (one_of short) → ⊥) }
    ensures two { IfNone result (IsFalseIn (values_of trail.now.entries) (two_of short) → ⊥) }
{
    if has_value(trail, short.one_var, short.one_negated) {
        return Some(short.two());
    }
    if has_value(trail, short.two_var, short.two_negated) {
        return Some(short.one());
    }
    None
}

/// Visits a clause of at most three literals at one that became false. Whether not all are false.
fn visit_short(trail: &mut PlainTrail, short: Short, gone: Lit) -> bool
    requires trail { IsTrail trail.old }
    requires entry { IsEntry trail.old.clauses gone short }
    requires gone { IsFalseIn (values_of trail.old.entries) gone }
    ensures appends { Propagates trail.old trail.new }
    ensures trail { IsTrail trail.new }
    ensures rests { IsTrue result → Rests (values_of trail.new.entries) (numbered trail.new.clauses short.number) }
    ensures falsified { result ≡ false → Falsifies trail.new short.number }
{
    if is_satisfied(trail, short) {
        return true;
    }
    match last_of(trail, short) {
        Some(last) => force_last(trail, short.number, last),
        None => true,
    }
}

/// Goes over the clauses of at most three literals that have the opposite of the true literal at that place.
pub(crate) fn sweep_shorts(trail: &mut PlainTrail, shorts: &Shorts, place: u32) -> Watched
    requires trail { IsTrail trail.old }
    requires shorts { HasShorts trail.old.vars trail.old.clauses shorts.now.fixed (lists_of shorts.now) }
    requires within { place < length trail.old.entries }
    requires present { ArePresent trail.old place }
    requires due { AreDue trail.old shorts.now.fixed (length trail.old.clauses) place }
    ensures appends { Propagates trail.old trail.new }
    ensures trail { IsTrail trail.new }
    ensures gives { ShortsGive trail.new shorts.now.fixed place result }
{
    let l = trail.at(place).unwrap();
    let gone = l.opposite();
    for short in clauses_with(shorts, gone) {
        if !visit_short(trail, *short, gone) {
            return Watched::Falsified(short.number);
        }
    }
    Watched::Rests
}
