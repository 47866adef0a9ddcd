ghost use Rattle.std.specs.Prelude.{◌≡◌, ◌≢◌, ℕ, ◌+◌, ◌-◌, ◌<◌, ◌≤◌, ◌^◌, [], ◌∷◌, ◌++◌, true, false, IsTrue, IfSome, IfNone, List, length, take, slice_index, slice_set};
ghost use Rattle.std.specs.Vec.{vec_capacity};
ghost use Rattle.clause_base.specs.declared.literal.Lit.{Lit};
ghost use Rattle.clause_base.specs.Literal.{has};
ghost use Rattle.clause_base.specs.Acceptance.{numbered};
ghost use Rattle.trail_core.specs.Values.{IsVariable, IsFalseIn, Rests};
ghost use Rattle.trail_core.specs.TrailState.{IsTrail, IsNumber, Propagates, values_of, level_in};
ghost use Rattle.trail_core.specs.Look.{Falsifies};
ghost use Rattle.trail_core.specs.Watching.{is_fixed, is_mark, IsBlank, IsSettled, AreMarked, KeepsMarks, list_of, code_of, with_list};
ghost use Rattle.trail_core.specs.Shorts.{AreDue};
ghost use Rattle.trail_core.specs.Visits.{IsGone, IsGoing, SweepGives, LooksGives, PairsGives, WatchesWell, MayWatch, IsFreeBelow, MayList, IsPlaced, KeepsPair, IsHighest, rank_of, HighestGives};

use crate::plain::{Look, PlainTrail};
use crate::shorts::is_short;
use crate::visit::{Seen, has_value, visit};
use crate::watches::{Pair, Watches, code_of, push_number};
use clause_base::Lit;

/// What came of propagation by watched literals.
#[derive(Clone, Copy)]
pub(crate) enum Watched {
    /// Each clause that was gone over rests.
    Rests,
    /// All literals of the clause of this number are false.
    Falsified(u32),
}

/// A pass over the clauses that watch a literal which became false.
#[derive(Clone, Copy)]
pub(crate) struct Sweep {
    pub(crate) gone: Lit,
    /// How many clauses stay in the list so far.
    pub(crate) kept: usize,
    /// A clause whose literals are all false.
    pub(crate) conflict: Option<u32>,
}

/// Leaves the clause in the list.
fn keep(watches: &mut Watches, sweep: &mut Sweep, number: u32)
    requires within_list { sweep.old.kept < length (list_of watches.old.lists.items sweep.old.gone) }
    ensures lists { watches.new.lists.items ≡ with_list watches.old.lists.items sweep.old.gone (slice_set (list_of watches.old.lists.items sweep.old.gone) sweep.old.kept number) }
    ensures pairs { watches.new.pairs ≡ watches.old.pairs }
    ensures gone_over { watches.new.gone_over ≡ watches.old.gone_over }
    ensures kept { sweep.new.kept ≡ sweep.old.kept + 1 }
    ensures gone { sweep.new.gone ≡ sweep.old.gone }
    ensures conflict { sweep.new.conflict ≡ sweep.old.conflict }
{
    let list = &mut watches.lists[code_of(sweep.gone)];
    // The length bounds how many are kept.
    let _bound = list.len();
    list.set(sweep.kept, number);
    sweep.kept += 1;
}

/// The number at a place of the list.
fn number_at(watches: &Watches, gone: Lit, place: usize) -> u32
    requires list { code_of gone < length watches.now.lists.items }
    requires within { place < length (list_of watches.now.lists.items gone) }
    ensures { result ≡ slice_index (list_of watches.now.lists.items gone) place }
{
    watches.lists[code_of(gone)].number(place)
}

/// Leaves in the list the clauses that stay.
fn end_list(watches: &mut Watches, sweep: Sweep)
    requires { code_of sweep.gone < length watches.old.lists.items }
    ensures lists { watches.new.lists.items ≡ with_list watches.old.lists.items sweep.gone (take sweep.kept (list_of watches.old.lists.items sweep.gone)) }
    ensures pairs { watches.new.pairs ≡ watches.old.pairs }
    ensures gone_over { watches.new.gone_over ≡ watches.old.gone_over }
{
    watches.lists[code_of(sweep.gone)].truncate(sweep.kept);
}

/// Visits the clause at a place of the list.
fn visit_next(trail: &mut PlainTrail, watches: &mut Watches, sweep: &mut Sweep, place: usize)
    requires going { IsGoing trail.old watches.old sweep.old place }
    requires within { place < length (list_of watches.old.lists.items sweep.old.gone) }
    ensures appends { Propagates trail.old trail.new }
    ensures trail { IsTrail trail.new }
    ensures going { IsGoing trail.new watches.new sweep.new (place + 1) }
    ensures length { length (list_of watches.new.lists.items sweep.old.gone) ≡ length (list_of watches.old.lists.items sweep.old.gone) }
    ensures gone { sweep.new.gone ≡ sweep.old.gone }
    ensures gone_over { watches.new.gone_over ≡ watches.old.gone_over }
    ensures size { length watches.new.pairs.items ≡ length watches.old.pairs.items }
    ensures marks { KeepsMarks watches.old.pairs.items watches.new.pairs.items }
{
    let number = number_at(watches, sweep.gone, place);
    if sweep.conflict.is_some() {
        keep(watches, sweep, number);
        return;
    }
    match visit(trail, watches, number, sweep.gone) {
        Seen::Leaves => {}
        Seen::Stays => keep(watches, sweep, number),
        Seen::Falsified => {
            keep(watches, sweep, number);
            sweep.conflict = Some(number);
        }
    }
}

/// Goes over the clauses that watch a literal which became false. All clauses have pairs, so how many stand in the lists of their
/// literals plays no part: 0 is as good.
pub(crate) fn sweep_list(trail: &mut PlainTrail, watches: &mut Watches, gone: Lit) -> Watched
    requires trail { IsTrail trail.old }
    requires well { WatchesWell trail.old watches.old 0 watches.old.gone_over }
    requires gone { IsGone trail.old watches.old.gone_over gone }
    requires next { watches.old.gone_over < length trail.old.entries }
    ensures appends { Propagates trail.old trail.new }
    ensures trail { IsTrail trail.new }
    ensures gives { SweepGives trail.new watches.new 0 result }
    ensures gone_over { watches.new.gone_over ≡ watches.old.gone_over }
    ensures size { length watches.new.pairs.items ≡ length watches.old.pairs.items }
    ensures marks { KeepsMarks watches.old.pairs.items watches.new.pairs.items }
{
    let mut sweep = Sweep {
        gone,
        kept: 0,
        conflict: None,
    };
    for place in 0..watches.lists[code_of(gone)].len() {
        visit_next(trail, watches, &mut sweep, place);
    }
    end_list(watches, sweep);
    match sweep.conflict {
        Some(number) => Watched::Falsified(number),
        None => Watched::Rests,
    }
}

/// Whether a literal of the clause is true at level 0.
fn is_settled(trail: &PlainTrail, number: u32) -> bool
    requires { IsNumber trail.now.clauses number }
    ensures { IsTrue result → IsSettled trail.now.entries (numbered trail.now.clauses number) }
{
    for l in trail.clause(number) {
        if has_value(trail, l.var, !l.negated) && trail.level_of(l.var) == Some(0) {
            return true;
        }
    }
    false
}

/// The level at which a literal became false; a greater number where it isn't false.
fn rank(trail: &PlainTrail, l: Lit) -> u64
    requires { IsVariable trail.now.vars l.var }
    ensures { result ≡ rank_of trail.now.entries l }
{
    match trail.entry(l.var) {
        None => u64::MAX,
        Some(e) if e.lit.negated == l.negated => u64::MAX,
        Some(e) => u64::from(e.decision_level),
    }
}

/// Of the literal that was found, where there is one, and another one, the one of greater rank; never one of the variable `apart`.
fn better(trail: &PlainTrail, found: Option<Lit>, l: Lit, apart: u32) -> Option<Lit>
    requires variable { IsVariable trail.now.vars l.var }
    requires known { IfSome found (λ m. IsVariable trail.now.vars m.var) }
    ensures known { IfSome result (λ m. IsVariable trail.now.vars m.var) }
    ensures more { (part : List Lit) → HighestGives trail.now.entries part apart found → HighestGives trail.now.entries (part ++ l ∷ []) apart result }
{
    if l.var == apart {
        return found;
    }
    match found {
        None => Some(l),
        Some(m) => {
            if rank(trail, m) < rank(trail, l) {
                Some(l)
            } else {
                Some(m)
            }
        }
    }
}

/// The literal of a clause that is of another variable than `apart`, and of the greatest rank of these.
fn highest(trail: &PlainTrail, number: u32, apart: u32) -> Option<Lit>
    requires { IsNumber trail.now.clauses number }
    ensures { HighestGives trail.now.entries (numbered trail.now.clauses number) apart result }
{
    let mut found: Option<Lit> = None;
    for l in trail.clause(number) {
        found = better(trail, found, *l, apart);
    }
    found
}

/// The pair of a literal of greatest rank and the best one of the others.
fn pair_with(trail: &PlainTrail, number: u32, first: Lit) -> Option<Pair>
    requires trail { IsTrail trail.now }
    requires number { IsNumber trail.now.clauses number }
    requires rests { Rests (values_of trail.now.entries) (numbered trail.now.clauses number) }
    requires free { IsFreeBelow trail.now number }
    requires first { IsHighest trail.now.entries (numbered trail.now.clauses number) 0 first }
    ensures found { IfSome result (MayWatch trail.now number) }
    ensures none { IfNone result (IsSettled trail.now.entries (numbered trail.now.clauses number)) }
{
    match highest(trail, number, first.var) {
        None => None,
        Some(second) => Some(Pair { first, second }),
    }
}

/// Two literals of the clause that it may watch; none where it has literals of one variable alone, one of them true at level 0.
fn best_pair(trail: &PlainTrail, number: u32) -> Option<Pair>
    requires trail { IsTrail trail.now }
    requires number { IsNumber trail.now.clauses number }
    requires rests { Rests (values_of trail.now.entries) (numbered trail.now.clauses number) }
    requires free { IsFreeBelow trail.now number }
    ensures found { IfSome result (MayWatch trail.now number) }
    ensures none { IfNone result (IsSettled trail.now.entries (numbered trail.now.clauses number)) }
{
    match highest(trail, number, 0) {
        None => None,
        Some(first) => pair_with(trail, number, first),
    }
}

/// Lists the clause at both literals of the pair, and keeps the pair.
fn place_pair(watches: &mut Watches, number: u32, pair: Pair)
    requires may { MayList watches.old pair }
    requires room { length watches.old.pairs.items < vec_capacity watches.old.pairs }
    ensures { IsPlaced watches.old watches.new number pair }
{
    push_number(watches, pair.first, number);
    push_number(watches, pair.second, number);
    keep_pair(watches, pair);
}

/// A pair of no literals, of a clause that stands in the lists of all of its literals.
fn mark() -> Pair
    ensures blank { IsBlank result }
    ensures mark { is_mark result ≡ true }
{
    let none = Lit {
        var: 0,
        negated: true,
    };
    Pair {
        first: none,
        second: none,
    }
}

/// Whether the clause stands in the lists of all of its literals, where so many first ones do that have at most three.
fn is_fixed(trail: &PlainTrail, number: u32, fixed: u32) -> bool
    requires { IsNumber trail.now.clauses number }
    ensures { result ≡ is_fixed fixed number (numbered trail.now.clauses number) }
{
    number <= fixed && is_short(trail.clause(number))
}

/// A pair of no literals.
fn no_pair() -> Pair
    ensures blank { IsBlank result }
    ensures mark { is_mark result ≡ false }
{
    let none = Lit {
        var: 0,
        negated: false,
    };
    Pair {
        first: none,
        second: none,
    }
}

/// Keeps the pair, of the first clause without one.
fn keep_pair(watches: &mut Watches, pair: Pair)
    requires { length watches.old.pairs.items < vec_capacity watches.old.pairs }
    ensures { KeepsPair watches.old watches.new pair }
{
    watches.pairs.push(pair).unwrap();
}

/// Pairs the clause, the first without a pair.
fn pair_up(trail: &PlainTrail, watches: &mut Watches, number: u32, fixed: u32)
    requires trail { IsTrail trail.now }
    requires well { WatchesWell trail.now watches.old fixed watches.old.gone_over }
    requires first { number ≡ length watches.old.pairs.items + 1 }
    requires number { IsNumber trail.now.clauses number }
    requires rests { Rests (values_of trail.now.entries) (numbered trail.now.clauses number) }
    ensures well { WatchesWell trail.now watches.new fixed watches.new.gone_over }
    ensures more { length watches.new.pairs.items ≡ length watches.old.pairs.items + 1 }
    ensures same { watches.new.gone_over ≡ watches.old.gone_over }
    ensures marked { AreMarked trail.now.clauses fixed watches.old.pairs.items → AreMarked trail.now.clauses fixed watches.new.pairs.items }
{
    if is_fixed(trail, number, fixed) {
        keep_pair(watches, mark());
        return;
    }
    if is_settled(trail, number) {
        keep_pair(watches, no_pair());
        return;
    }
    match best_pair(trail, number) {
        Some(pair) => place_pair(watches, number, pair),
        None => keep_pair(watches, no_pair()),
    }
}

/// Makes the clause's literal true, where it is unit. Whether not all its literals are false.
fn force_unit(trail: &mut PlainTrail, number: u32) -> bool
    requires trail { IsTrail trail.old }
    requires number { IsNumber trail.old.clauses number }
    ensures appends { Propagates trail.old trail.new }
    ensures trail { IsTrail trail.new }
    ensures rests { IsTrue result → Rests (values_of trail.new.entries) (numbered trail.new.clauses number) }
    ensures falsified { result ≡ false → Falsifies trail.new number }
{
    match trail.look(number) {
        Look::Falsified => false,
        Look::Unit(l) => {
            trail.force(l, number);
            true
        }
        Look::Rests => true,
    }
}

/// Pairs the first clause without a pair, and makes its literal true where it is unit.
fn pair_next(trail: &mut PlainTrail, watches: &mut Watches, fixed: u32) -> Watched
    requires well { WatchesWell trail.old watches.old fixed watches.old.gone_over }
    requires more { length watches.old.pairs.items < length trail.old.clauses }
    requires due { AreDue trail.old fixed (length watches.old.pairs.items) watches.old.gone_over }
    requires marked { AreMarked trail.old.clauses fixed watches.old.pairs.items }
    ensures appends { Propagates trail.old trail.new }
    ensures trail { IsTrail trail.new }
    ensures gives { LooksGives trail.new watches.old watches.new fixed result }
    ensures due { AreDue trail.new fixed (length watches.new.pairs.items) watches.new.gone_over }
    ensures marked { AreMarked trail.new.clauses fixed watches.new.pairs.items }
{
    // The count bounds the number.
    let _bound = trail.count();
    let number = watches.pairs.len() as u32 + 1;
    if !force_unit(trail, number) {
        return Watched::Falsified(number);
    }
    pair_up(trail, watches, number, fixed);
    Watched::Rests
}

/// Pairs the clauses without a pair.
pub(crate) fn pair_all(trail: &mut PlainTrail, watches: &mut Watches, fixed: u32) -> Watched
    requires trail { IsTrail trail.old }
    requires well { WatchesWell trail.old watches.old fixed watches.old.gone_over }
    requires due { AreDue trail.old fixed (length watches.old.pairs.items) watches.old.gone_over }
    requires marked { AreMarked trail.old.clauses fixed watches.old.pairs.items }
    ensures appends { Propagates trail.old trail.new }
    ensures trail { IsTrail trail.new }
    ensures gives { PairsGives trail.new watches.new fixed result }
    ensures due { AreDue trail.new fixed (length watches.new.pairs.items) watches.new.gone_over }
    ensures marked { AreMarked trail.new.clauses fixed watches.new.pairs.items }
{
    while watches.pairs.len() < trail.count() as usize {
        match pair_next(trail, watches, fixed) {
            Watched::Rests => {}
            Watched::Falsified(number) => return Watched::Falsified(number),
        }
    }
    Watched::Rests
}
