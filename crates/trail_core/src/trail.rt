ghost use Rattle.std.specs.Prelude.{◌≡◌, ℕ, ◌+◌, ◌-◌, ◌^◌, ◌<◌, ◌≤◌, ◌↔◌, [], ◌∷◌, ◌++◌, length, IfOk, OnOk, OnErr, IfSome, IfNone, slice_get, IsTrue};
ghost use Rattle.std.specs.Option.{option_map};
ghost use Rattle.clause_base.specs.Literal.{IsWithin, has_distinct_variables};
ghost use Rattle.clause_base.specs.Acceptance.{numbered};
ghost use Rattle.trail_core.specs.Values.{IsVariable, IsUnassignedIn, IsFalsified};
ghost use Rattle.trail_core.specs.Shorts.{SameLists};
ghost use Rattle.trail_core.specs.TrailState.{TrailState, IsTrail, IsNumber, MayAdd, AllRest, Propagates, with_clause, with_decision, back_at, values_of, level_in, reason_in};

use crate::plain::PlainTrail;
use crate::propagation::{number_of, watch};
use crate::shorts::{Shorts, count_clause, enter, flatten, make_short_room, no_short_clauses};
use crate::watches::{Watches, go_back, make_room, watches_of};
use clause_base::Lit;
use loc_base::NoMemory;
use std::alloc::Global;
use std::marker::Model;

/// The true literals in the order in which they became true, over clauses numbered from 1.
///
/// Contracts see it as its number of variables, its clauses, its entries and its decision level.
#[derive(Drop)]
pub struct Trail {
    plain: PlainTrail,
    watches: Watches,
    shorts: Shorts,
}

/// Whether propagation has looked at none of so many clauses, so that the lists of clauses of at most three literals take more.
fn takes_more(watches: &Watches, shorts: &Shorts, count: u32) -> bool
    ensures count { IsTrue result → shorts.now.fixed ≡ count }
    ensures growing { IsTrue result → shorts.now.flat ≡ [] }
{
    shorts.flat.is_empty() && watches.pairs.is_empty() && shorts.fixed == count
}

/// Before the first propagation: puts the lists of clauses of at most three literals into one piece of memory.
fn flatten_first(watches: &Watches, shorts: &mut Shorts)
    ensures { SameLists shorts.old shorts.new }
{
    if watches.pairs.is_empty() && shorts.fixed > 0 {
        flatten(shorts);
    }
}

impl Model for Trail {
    ghost use Rattle.trail_core.specs.TrailState.{TrailState};
    ghost use Rattle.trail_core.specs.Visits.{IsWatching};

    ghost Value = { TrailState };

    ghost view = { λ t. t.plain };

    ghost invariant = { λ t. IsWatching t.plain t.watches t.shorts };
}

impl Trail {
    /// A trail with no clause and no true literal, over the variables 1 to `vars`.
    pub fn new(alloc: Global, vars: u32) -> Result<Trail, NoMemory>
        ensures empty { IfOk result (λ t. t ≡ record { vars = vars; clauses = []; entries = []; level = 0 }) }
        ensures trail { IfOk result IsTrail }
    {
        let plain = PlainTrail::new(alloc, vars)?;
        let watches = watches_of(alloc, vars)?;
        let shorts = no_short_clauses(alloc, vars)?;
        Ok(Trail {
            plain,
            watches,
            shorts,
        })
    }

    /// Adds a clause of these literals and gives its number, the first being 1. Unchanged after `NoMemory`.
    pub fn add_clause(&mut self, literals: &[Lit]) -> Result<u32, NoMemory>
        requires clauses_fit { length self.old.clauses + 1 < 2 ^ 32 }
        requires distinct { IsTrue (has_distinct_variables literals.now) }
        requires within { IsWithin self.old.vars literals.now }
        requires may { MayAdd self.old literals.now }
        ensures number { IfOk result (λ n. n ≡ length self.old.clauses + 1) }
        ensures ok { OnOk result (self.new ≡ with_clause self.old literals.now) }
        ensures err { OnErr result (self.new ≡ self.old) }
        ensures trail { IsTrail self.new }
    {
        let count = self.plain.count();
        let takes = takes_more(&self.watches, &self.shorts, count);
        make_room(&mut self.watches, count, takes, literals)?;
        make_short_room(&mut self.shorts, takes, literals)?;
        let number = self.plain.add_clause(literals)?;
        enter(&mut self.shorts, takes, number, literals);
        count_clause(&mut self.shorts, takes, number);
        Ok(number)
    }

    /// Makes literals true at the present level for as long as a clause is unit, each with that clause as its
    /// reason. Answers the number of a clause whose literals are all false, or none, where no clause is unit or
    /// false. It needs no memory; the first call takes some for speed, where it is there.
    pub fn propagate(&mut self) -> Option<u32>
        ensures appends { Propagates self.old self.new }
        ensures falsified { IfSome result (IsNumber self.new.clauses) }
        ensures conflict { IfSome result (λ n. IsFalsified (values_of self.new.entries) (numbered self.new.clauses n)) }
        ensures rest { IfNone result (AllRest self.new.clauses (values_of self.new.entries)) }
        ensures trail { IsTrail self.new }
    {
        flatten_first(&self.watches, &mut self.shorts);
        number_of(watch(&mut self.plain, &mut self.watches, &self.shorts))
    }

    /// Raises the decision level by one, and makes a literal true there as its decision. It takes no memory.
    pub fn decide(&mut self, l: Lit)
        requires variable { IsVariable self.old.vars l.var }
        requires unassigned { IsUnassignedIn (values_of self.old.entries) l }
        requires rest { AllRest self.old.clauses (values_of self.old.entries) }
        ensures after { self.new ≡ with_decision self.old l }
        ensures trail { IsTrail self.new }
    {
        // All clauses rest, so it forces nothing: it goes over the last true literals.
        let _rests = watch(&mut self.plain, &mut self.watches, &self.shorts);
        self.plain.decide(l);
    }

    /// Makes a level the present one, and leaves exactly the true literals whose level is at most that one, in
    /// their order. It takes no memory.
    pub fn back_to(&mut self, level: u32)
        requires { level ≤ self.old.level }
        ensures after { self.new ≡ back_at self.old level }
        ensures trail { IsTrail self.new }
    {
        self.plain.back_to(level);
        go_back(&mut self.watches, self.plain.len());
    }

    /// The literals of the clause of that number.
    pub fn clause(&self, number: u32) -> &[Lit]
        requires { IsNumber self.now.clauses number }
        ensures value { result.now ≡ numbered self.now.clauses number }
        ensures within { IsWithin self.now.vars result.now }
        ensures distinct { IsTrue (has_distinct_variables result.now) }
    {
        self.plain.clause(number)
    }

    /// The number of variables.
    pub fn vars(&self) -> u32
        ensures { result ≡ self.now.vars }
    {
        self.plain.vars()
    }

    /// The number of true literals.
    pub fn len(&self) -> u32
        ensures { result ≡ length self.now.entries }
    {
        self.plain.len()
    }

    /// Whether no literal is true.
    pub fn is_empty(&self) -> bool
        ensures { IsTrue result ↔ (self.now.entries ≡ []) }
    {
        self.plain.is_empty()
    }

    /// The present decision level.
    pub fn level(&self) -> u32
        ensures { result ≡ self.now.level }
    {
        self.plain.level()
    }

    /// The true literal at a place, counted from 0; none past the last.
    pub fn at(&self, place: u32) -> Option<Lit>
        ensures { result ≡ option_map (λ e. e.lit) (slice_get self.now.entries place) }
    {
        self.plain.at(place)
    }

    /// The value of a variable; none where it is unassigned.
    pub fn value(&self, var: u32) -> Option<bool>
        requires { IsVariable self.now.vars var }
        ensures { result ≡ values_of self.now.entries var }
    {
        self.plain.value(var)
    }

    /// The clause that made the variable's literal true, whose other literals became false before it; none for a
    /// decided or unassigned variable.
    pub fn reason(&self, var: u32) -> Option<u32>
        requires { IsVariable self.now.vars var }
        ensures { result ≡ reason_in self.now.entries var }
    {
        self.plain.reason(var)
    }

    /// The decision level at which the variable's literal became true; none where it is unassigned.
    pub fn level_of(&self, var: u32) -> Option<u32>
        requires { IsVariable self.now.vars var }
        ensures { result ≡ level_in self.now.entries var }
    {
        self.plain.level_of(var)
    }
}
