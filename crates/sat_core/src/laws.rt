//! Laws of the definitions. Each is the contract of a function that does nothing, over values that no code holds.

ghost use Rattle.std.specs.Prelude.{◌^◌, ◌<◌, count_by, drop};
ghost use Rattle.clause_base.specs.Literal.{AreWithin, AllDistinct};
ghost use Rattle.clause_base.specs.Acceptance.{IsAccepted, clauses_of};
ghost use Rattle.clause_base.specs.Progress.{LearnedAreFresh};
ghost use Rattle.sat_core.specs.Outcome.{is_learned};
ghost use Rattle.sat_core.specs.Bound.{LogFrom};

/// Of an accepted log over V variables whose learned steps from a place on are fresh, fewer than 3^V steps from there
/// on are learned: a variable is in a clause, or its negation is, or neither, and a fresh clause contains no earlier
/// one.
pub fn few_learned_are_fresh()
    ghost of: { LogFrom }
    requires form { AreWithin of.vars of.form }
    requires blocks { AreWithin of.vars of.blocks }
    requires distinct { AllDistinct (clauses_of of.form of.log) }
    requires accepted { IsAccepted of.form of.blocks of.log }
    requires fresh { LearnedAreFresh of.form of.log of.from }
    ensures { count_by is_learned (drop of.from of.log) < 3 ^ of.vars }
{}
