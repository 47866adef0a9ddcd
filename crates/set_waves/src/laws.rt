//! Laws of the definitions. Each is the contract of a function that does nothing, over values that no code holds.
ghost use Rattle.std.specs.Prelude.{◌≡◌, ◌<◌, ◌^◌, ℕ};
ghost use Rattle.set_waves.specs.Laws.{TwoNames, WithSets};
ghost use Rattle.set_waves.specs.Names.{wave_name};
ghost use Rattle.set_waves.specs.Waved.{AreRuns, CanBeWaved, Runs};

/// There is a run for each set and each trace.
pub fn some_runs()
    ghost of: { WithSets }
    requires { CanBeWaved of.waved of.order }
    ensures { (runs : Runs) × AreRuns of.waved of.sets runs }
{}

/// Waves of different sets or traces have different names.
pub fn same_name()
    ghost of: { TwoNames }
    requires set { of.set < 2 ^ 64 }
    requires trace { of.trace < 2 ^ 64 }
    requires other_set { of.other_set < 2 ^ 64 }
    requires other_trace { of.other_trace < 2 ^ 64 }
    requires same { wave_name of.prefix of.set of.trace ≡ wave_name of.prefix of.other_set of.other_trace }
    ensures set { of.set ≡ of.other_set }
    ensures trace { of.trace ≡ of.other_trace }
{}
