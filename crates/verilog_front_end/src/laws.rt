//! Laws of the definitions. Each is the contract of a function that does nothing.
ghost use Rattle.std.specs.Prelude.{ℕ, List, Option};
ghost use Rattle.design_core.specs.declared.design.Design.{Design};
ghost use Rattle.verilog_front_end.specs.declared.error.DesignErr.{DesignErr};
ghost use Rattle.verilog_front_end.specs.Laws.{AreAlike};
ghost use Rattle.verilog_front_end.specs.Meaning.{Means};
ghost use Rattle.verilog_front_end.specs.Refusals.{IsRefusal};

/// A text means one design at most: those that it means have the same lists.
pub fn one_design()
    ensures { (text top : List ℕ) (clock : Option (List ℕ)) (d e : Design)
        → Means text top clock d → Means text top clock e → AreAlike d e }
{}

/// A text that means a design is not refused.
pub fn no_refusal()
    ensures { (text top : List ℕ) (clock : Option (List ℕ)) (d : Design) (fault : DesignErr)
        → Means text top clock d → ¬ IsRefusal text top clock fault }
{}
