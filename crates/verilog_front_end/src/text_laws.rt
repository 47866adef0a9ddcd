//! What the grammar gives of the modules of every text, and that its design is well formed (IEEE 1364-2005, clauses 4 to 12 and
//! annex A). Each law is the contract of a function that does nothing, over values that no code holds.
ghost use Rattle.std.specs.Prelude.{◌≡◌, ◌<◌, ◌^◌, Bool, length, Ok, ℕ};
ghost use Rattle.design_core.specs.declared.trace.Trace.{Trace};
ghost use Rattle.design_core.specs.Given.{CanRun};
ghost use Rattle.design_core.specs.Reads.{IsOrder};
ghost use Rattle.design_core.specs.Run.{Choices};
ghost use Rattle.design_core.specs.WellFormed.{IsWellFormed};
ghost use Rattle.v_parser.specs.Modules.{IsSource};
ghost use Rattle.v_hierarchy.specs.Instances.{instances};
ghost use Rattle.v_binding.specs.Binding.{binding};
ghost use Rattle.design_rules.specs.OneDriver.{IsDrivenTwice};
ghost use Rattle.bind_laws.specs.Every.{Every};
ghost use Rattle.bind_laws.specs.Written.{WrittenModule};
ghost use Rattle.bind_laws.specs.Whole.{IsDesignOf};
ghost use Rattle.verilog_front_end.specs.Texts.{DesignOfText, HasOneRun, OrderedText, Text};

/// The modules that tokens are by the grammar have no array with a value, one default in a case at most, and words of its own at the
/// first port that a header declares.
pub fn text_is_written()
    ghost of: { Text }
    requires { IsSource of.tokens of.units }
    ensures { Every WrittenModule of.units }
{}

/// A design of what a text means is well formed, and can be carried out: no rule over the finished design is needed for it (IEEE
/// 1364-2005, clauses 4 to 9 and 12).
pub fn design_of_text_is_well_formed()
    ghost of: { DesignOfText }
    requires source { IsSource of.text.tokens of.text.units }
    requires list { instances of.text.units of.top ≡ Ok of.list }
    requires accepted { binding of.list of.clock ≡ Ok of.binding }
    requires few { length of.binding.signals < 2 ^ 32 }
    requires design { IsDesignOf of.binding of.design }
    ensures well_formed { IsWellFormed of.design }
    ensures runs { CanRun of.design }
{}

/// Where no bit of it has two drivers and no input one, and its drivers stand in an order, each trace has one run, whatever places are
/// freed and whatever values are chosen for them.
pub fn design_of_text_has_one_run()
    ghost with: { OrderedText }
    requires source { IsSource with.of.text.tokens with.of.text.units }
    requires list { instances with.of.text.units with.of.top ≡ Ok with.of.list }
    requires accepted { binding with.of.list with.of.clock ≡ Ok with.of.binding }
    requires few { length with.of.binding.signals < 2 ^ 32 }
    requires design { IsDesignOf with.of.binding with.of.design }
    requires one_driver { (s : ℕ) → ¬ IsDrivenTwice with.of.design s }
    requires ordered { IsOrder with.of.design with.order }
    ensures { (trace : Trace) (freed : ℕ → Bool) (c : Choices) → HasOneRun with.of.design trace freed c }
{}
