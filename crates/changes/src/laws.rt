//! Laws of the definitions. Each is the contract of a function that does nothing, over values that no code holds.

ghost use Rattle.std.specs.Prelude.{◌≡◌};
ghost use Rattle.design_core.specs.Reads.{IsOrder};
ghost use Rattle.design_core.specs.Run.{IsRun, Meets};
ghost use Rattle.design_core.specs.WellFormed.{IsWellFormed};
ghost use Rattle.changes.specs.Changes.{AreChangesOf, IsLean, change_in};
ghost use Rattle.changes.specs.Laws.{Changed, TwoChanged};

/// The run with the changes that values are is the run of the values.
pub fn values_run()
    ghost of: { Changed }
    requires well_formed { IsWellFormed of.design }
    requires changes { AreChangesOf of.design of.trace of.places of.values of.changes of.run }
    ensures { IsRun of.design of.trace of.places of.values of.run }
{}

/// And back: values that have a run are changes, and theirs is the same run.
pub fn run_changes()
    ghost of: { Changed }
    requires well_formed { IsWellFormed of.design }
    requires run { IsRun of.design of.trace of.places of.values of.run }
    ensures { AreChangesOf of.design of.trace of.places of.values (change_in of.design of.places of.values of.run) of.run }
{}

/// In a design whose drivers stand in an order values are one list of changes, with one run.
pub fn one_change_list()
    ghost of: { TwoChanged }
    requires well_formed { IsWellFormed of.one.design }
    requires order { IsOrder of.one.design of.one.order }
    requires one { AreChangesOf of.one.design of.one.trace of.one.places of.one.values of.one.changes of.one.run }
    requires other { AreChangesOf of.one.design of.one.trace of.one.places of.one.values of.changes of.run }
    ensures changes { of.one.changes ≡ of.changes }
    ensures run { of.one.run ≡ of.run }
{}

/// Values with no needless change make the trace right.
pub fn lean_meets()
    ghost of: { Changed }
    requires well_formed { IsWellFormed of.design }
    requires lean { IsLean of.design of.trace of.places of.values }
    ensures { Meets of.design of.trace of.places of.values }
{}
