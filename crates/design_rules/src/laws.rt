//! Laws of the definitions. Each is the contract of a function that does nothing, over values that no code holds.

ghost use Rattle.std.specs.Prelude.{ℕ};
ghost use Rattle.design_core.specs.declared.design.Design.{Design};
ghost use Rattle.design_core.specs.DrivenOnce.{IsDrivenOnce};
ghost use Rattle.design_core.specs.WellFormed.{IsWellFormed};
ghost use Rattle.design_rules.specs.OneDriver.{IsDrivenTwice};

/// In a well-formed design in which no bit has two drivers and no input one, each bit gets its value once.
pub fn one_driver_is_driven_once()
    ghost design: { Design }
    requires well_formed { IsWellFormed design }
    requires one { (s : ℕ) → ¬ IsDrivenTwice design s }
    ensures { IsDrivenOnce design }
{}
