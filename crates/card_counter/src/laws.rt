//! Laws of counters. Each is the contract of a function that does nothing, over values that no code holds.
ghost use Rattle.std.specs.Prelude.{◌≡◌, ◌+◌, ◌≤◌, ◌<◌, false, length};
ghost use Rattle.clause_base.specs.Satisfaction.{Satisfies};
ghost use Rattle.card_counter.specs.Places.{at_least};
ghost use Rattle.card_counter.specs.InForm.{literals_from, Assigned, Follows, HasCounter};
ghost use Rattle.card_counter.specs.Counter.{counter_clauses};
ghost use Rattle.card_counter.specs.Means.{AreBefore, Bounded, IsCounter, MeetsBound, true_count};

/// The clauses of a counter count.
pub fn clauses_count()
    ghost of: { Bounded }
    requires { AreBefore of.first of.selectors }
    ensures { IsCounter of.first of.k of.selectors (counter_clauses of.selectors of.k of.first) }
{}

/// Where at most j of the selectors are true, the counter and the bound at j can be met, and nothing but the counters changes.
pub fn few_meet_the_bound()
    ghost of: { Bounded }
    requires before { AreBefore of.first of.selectors }
    requires size { of.j ≤ of.k }
    requires more { of.j < length of.selectors }
    requires few { true_count of.assignment of.selectors ≤ of.j }
    ensures { MeetsBound of (counter_clauses of.selectors of.k of.first) }
{}

/// And only there.
pub fn the_bound_is_met_by_few()
    ghost of: { Bounded }
    requires before { AreBefore of.first of.selectors }
    requires size { of.j ≤ of.k }
    requires more { of.j < length of.selectors }
    requires met { MeetsBound of (counter_clauses of.selectors of.k of.first) }
    ensures { true_count of.assignment of.selectors ≤ of.j }
{}

/// In a form with a counter whose other clauses name no counters, the counters can follow any assignment of the form: some
/// assignment is the same outside them, satisfies the form, and meets each bound that the true variables allow.
pub fn counters_follow()
    ghost of: { Assigned }
    requires counter { HasCounter of.n of.k of.vars of.form }
    requires satisfied { Satisfies of.assignment of.form }
    ensures { Follows of.n of.k of.form of.assignment }
{}

/// An assignment of such a form in which the bound at j is false has at most j true variables among those that are counted.
pub fn few_are_selected()
    ghost of: { Assigned }
    requires counter { HasCounter of.n of.k of.vars of.form }
    requires satisfied { Satisfies of.assignment of.form }
    requires size { of.j ≤ of.k }
    requires more { of.j < of.n }
    requires bound { of.assignment (at_least (of.n + 1) of.k of.n (of.j + 1)) ≡ false }
    ensures { true_count of.assignment (literals_from 1 of.n) ≤ of.j }
{}
