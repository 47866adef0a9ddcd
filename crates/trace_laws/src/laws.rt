//! The laws.

ghost use Rattle.std.specs.Prelude.{◌≡◌, ◌≤◌, [], ◌∷◌, false, length, true};
ghost use Rattle.design_core.specs.Listing.{IsList};
ghost use Rattle.design_core.specs.Run.{Meets};
ghost use Rattle.design_core.specs.WellFormed.{IsWellFormed};
ghost use Rattle.design_core.specs.Works.{IsSet, Works};
ghost use Rattle.trace_laws.specs.Joined.{AreTraceLists, IsJoin, has_one_of_each};
ghost use Rattle.trace_laws.specs.Laws.{ByTrace, OneSet, Passing};

/// What has within it a set of each trace's list works for all traces; and a set of at most k suspects that works has.
pub fn works_by_trace()
    ghost one: { OneSet }
    requires well_formed { IsWellFormed one.of.design }
    requires lists { AreTraceLists one.of.design one.of.traces one.of.groups one.of.size one.of.lists }
    ensures works { has_one_of_each one.of.lists one.set ≡ true → Works one.of.design one.of.traces one.of.groups one.set }
    ensures only { IsSet one.of.groups one.set → length one.set ≤ one.of.size
        → Works one.of.design one.of.traces one.of.groups one.set → has_one_of_each one.of.lists one.set ≡ true }
{}

/// The list of all traces is the join of the lists of each: their least unions of at most k members, in order; and no other list is.
pub fn list_by_trace()
    ghost of: { ByTrace }
    requires well_formed { IsWellFormed of.design }
    requires lists { AreTraceLists of.design of.traces of.groups of.size of.lists }
    ensures join { IsJoin of.size of.lists of.sets → IsList of.design of.traces of.groups of.size of.sets }
    ensures only { IsList of.design of.traces of.groups of.size of.sets → IsJoin of.size of.lists of.sets }
{}

/// The list of a trace that is right with nothing freed is the empty set alone.
pub fn passing_trace()
    ghost of: { Passing }
    requires { Meets of.design of.trace (λ _. false) of.choices }
    ensures { IsList of.design (of.trace ∷ []) of.groups of.size ([] ∷ []) }
{}
