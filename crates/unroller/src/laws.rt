//! What the literals of a cycle mean. The law is the contract of a function that does nothing.

ghost use Rattle.std.specs.Prelude.{List};
ghost use Rattle.gate_base.specs.declared.literal.Literal.{Literal};
ghost use Rattle.gate_base.specs.Meaning.{Grown, Means};
ghost use Rattle.unroller.specs.Cycles.{held, translated, words_translated};
ghost use Rattle.unroller.specs.Meaning.{AreHeld, CycleGiven, FreesGrouped, cycle_made, cycle_value};

/// Where the literals of the states mean bits, and places outside the groups aren't free, each literal of the circuit, as it
/// stands in the cycle, means its value for the samples, states and choices of the cycle; so do those of the next states. The
/// definitions before stay, and operands stand before the definitions that use them.
pub fn cycle_means()
    ghost of: { CycleGiven }
    requires states { AreHeld of.source of.definitions of.frame.states of.state }
    requires frees { FreesGrouped of.source of.frame.grouped }
    ensures grown { Grown of.definitions (cycle_made of).nodes }
    ensures literals { (l : Literal) → Means of.source (cycle_made of).nodes (translated (cycle_made of).bits l) (cycle_value of l) }
    ensures next { (next : List (List Literal)) → AreHeld of.source (cycle_made of).nodes (words_translated (cycle_made of).bits next) (λ s b. cycle_value of (held next s b)) }
{}
