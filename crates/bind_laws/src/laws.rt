//! Laws of the definitions. Each is the contract of a function that does nothing, over values that no code holds.
ghost use Rattle.std.specs.Prelude.{◌≡◌, ◌<◌, ◌^◌, length, Ok};
ghost use Rattle.design_core.specs.Given.{CanRun};
ghost use Rattle.design_core.specs.WellFormed.{IsWellFormed};
ghost use Rattle.v_binding.specs.Binding.{binding};
ghost use Rattle.v_binding.specs.Lefts.{target};
ghost use Rattle.v_binding.specs.Statements.{bound};
ghost use Rattle.v_binding.specs.Standing.{InstancesStand};
ghost use Rattle.bind_laws.specs.Fit.{AssignedLeft, BoundBody, LeftFits, NamesFit, StatementFits, StepsFit};
ghost use Rattle.bind_laws.specs.OfText.{OfText};
ghost use Rattle.bind_laws.specs.Whole.{BoundDesign, IsDesignOf};

/// A left side that isn't refused, whose names are of the design, is of parts of its signals, and as wide as they are together.
pub fn left_side_fits()
    ghost of: { AssignedLeft }
    requires names { NamesFit of.signals of.names }
    requires accepted { target of.names of.written ≡ Ok of.left }
    ensures { LeftFits of.signals of.left }
{}

/// A statement that isn't refused fits the signals of its names and the places that it makes, each of which stands in it once.
pub fn statement_fits()
    ghost of: { BoundBody }
    requires names { NamesFit of.signals of.names }
    requires text { StepsFit of.steps }
    requires accepted { bound of.home of.names of.steps of.before ≡ Ok of.result }
    ensures { StatementFits of.signals of.before of.result }
{}

/// What binding gives for the instances of a text is a well-formed design (IEEE 1364-2005, clauses 4 to 9 and 12.3).
pub fn binding_is_well_formed()
    ghost of: { BoundDesign }
    requires stands { InstancesStand of.instances }
    requires text { OfText of.instances }
    requires accepted { binding of.instances of.clock ≡ Ok of.binding }
    requires few { length of.binding.signals < 2 ^ 32 }
    requires design { IsDesignOf of.binding of.design }
    ensures { IsWellFormed of.design }
{}

/// It can be carried out.
pub fn binding_can_run()
    ghost of: { BoundDesign }
    requires stands { InstancesStand of.instances }
    requires text { OfText of.instances }
    requires accepted { binding of.instances of.clock ≡ Ok of.binding }
    requires few { length of.binding.signals < 2 ^ 32 }
    requires design { IsDesignOf of.binding of.design }
    ensures { CanRun of.design }
{}
