ghost use Rattle.std.specs.Prelude.{◌≡◌, ◌+◌, ◌<◌, ◌≤◌, length};
ghost use Rattle.trail_core.specs.TrailState.{IsTrail, Propagates};
ghost use Rattle.trail_core.specs.Watching.{AreMarked};
ghost use Rattle.trail_core.specs.Shorts.{lists_of, HasShorts, AreDue};
ghost use Rattle.trail_core.specs.Visits.{SweepsDue, SweepGives, WatchGives, WatchesWell, number_of};

use crate::plain::PlainTrail;
use crate::shorts::Shorts;
use crate::sweep::sweep_shorts;
use crate::watch::{Watched, pair_all, sweep_list};
use crate::watches::Watches;

/// Goes over the lists of the next literal that became false.
fn sweep_next(trail: &mut PlainTrail, watches: &mut Watches, shorts: &Shorts) -> Watched
    requires trail { IsTrail trail.old }
    requires well { WatchesWell trail.old watches.old shorts.now.fixed watches.old.gone_over }
    requires shorts { HasShorts trail.old.vars trail.old.clauses shorts.now.fixed (lists_of shorts.now) }
    requires due { AreDue trail.old shorts.now.fixed (length trail.old.clauses) watches.old.gone_over }
    requires all { length trail.old.clauses ≤ length watches.old.pairs.items }
    requires next { watches.old.gone_over < length trail.old.entries }
    requires marked { AreMarked trail.old.clauses shorts.now.fixed watches.old.pairs.items }
    ensures marked { AreMarked trail.new.clauses shorts.now.fixed watches.new.pairs.items }
    ensures appends { Propagates trail.old trail.new }
    ensures trail { IsTrail trail.new }
    ensures gives { SweepGives trail.new watches.new shorts.now.fixed result }
    ensures due { SweepsDue trail.new shorts.now.fixed watches.new result }
    ensures gone_over { watches.new.gone_over ≡ watches.old.gone_over }
    ensures size { length watches.new.pairs.items ≡ length watches.old.pairs.items }
{
    match sweep_shorts(trail, shorts, watches.gone_over) {
        Watched::Rests => {
            let l = trail.at(watches.gone_over).unwrap();
            sweep_list(trail, watches, l.opposite())
        }
        Watched::Falsified(number) => Watched::Falsified(number),
    }
}

/// Goes over the lists of the literals that became false.
fn sweep_all(trail: &mut PlainTrail, watches: &mut Watches, shorts: &Shorts) -> Watched
    requires trail { IsTrail trail.old }
    requires well { WatchesWell trail.old watches.old shorts.now.fixed watches.old.gone_over }
    requires shorts { HasShorts trail.old.vars trail.old.clauses shorts.now.fixed (lists_of shorts.now) }
    requires due { AreDue trail.old shorts.now.fixed (length watches.old.pairs.items) watches.old.gone_over }
    requires marked { AreMarked trail.old.clauses shorts.now.fixed watches.old.pairs.items }
    requires all { length trail.old.clauses ≤ length watches.old.pairs.items }
    ensures appends { Propagates trail.old trail.new }
    ensures trail { IsTrail trail.new }
    ensures gives { WatchGives trail.new watches.new shorts.now.fixed result }
    ensures due { AreDue trail.new shorts.now.fixed (length watches.new.pairs.items) watches.new.gone_over }
    ensures marked { AreMarked trail.new.clauses shorts.now.fixed watches.new.pairs.items }
{
    while watches.gone_over < trail.len() {
        match sweep_next(trail, watches, shorts) {
            Watched::Rests => watches.gone_over += 1,
            Watched::Falsified(number) => return Watched::Falsified(number),
        }
    }
    Watched::Rests
}

/// Propagates by the lists of the literals that became false.
pub(crate) fn watch(trail: &mut PlainTrail, watches: &mut Watches, shorts: &Shorts) -> Watched
    requires trail { IsTrail trail.old }
    requires well { WatchesWell trail.old watches.old shorts.now.fixed watches.old.gone_over }
    requires shorts { HasShorts trail.old.vars trail.old.clauses shorts.now.fixed (lists_of shorts.now) }
    requires due { AreDue trail.old shorts.now.fixed (length watches.old.pairs.items) watches.old.gone_over }
    requires marked { AreMarked trail.old.clauses shorts.now.fixed watches.old.pairs.items }
    ensures appends { Propagates trail.old trail.new }
    ensures trail { IsTrail trail.new }
    ensures gives { WatchGives trail.new watches.new shorts.now.fixed result }
    ensures due { AreDue trail.new shorts.now.fixed (length watches.new.pairs.items) watches.new.gone_over }
    ensures marked { AreMarked trail.new.clauses shorts.now.fixed watches.new.pairs.items }
{
    match pair_all(trail, watches, shorts.fixed) {
        Watched::Rests => sweep_all(trail, watches, shorts),
        Watched::Falsified(number) => Watched::Falsified(number),
    }
}

/// The number of the clause whose literals are all false.
pub(crate) fn number_of(watched: Watched) -> Option<u32>
    ensures { result ≡ number_of watched }
{
    match watched {
        Watched::Rests => None,
        Watched::Falsified(number) => Some(number),
    }
}
