//! Laws of the definitions. Each is the contract of a function that does nothing, over values that no code holds.

ghost use Rattle.std.specs.Prelude.{◌≡◌, ◌++◌, false, List, true, ℕ};
ghost use Rattle.design_core.specs.Laws.{TwoLists};
ghost use Rattle.design_core.specs.WellFormed.{IsWellFormed};
ghost use Rattle.design_core.specs.Works.{Works};
ghost use Rattle.place_functions.specs.Functions.{IsFunctionFront, IsFunctionList, WorksByFunctions};
ghost use Rattle.place_functions.specs.Laws.{OneBit, OneSet};
ghost use Rattle.place_functions.specs.Operands.{is_bound, is_operand, is_own};

/// A set that works by functions works.
pub fn function_works()
    ghost of: { OneSet }
    requires { WorksByFunctions of.design of.traces of.groups of.set }
    ensures { Works of.design of.traces of.groups of.set }
{}

/// There is one list of the minimal sets that work by functions.
pub fn same_function_list()
    ghost of: { TwoLists }
    requires one { IsFunctionList of.design of.traces of.groups of.size of.one }
    requires other { IsFunctionList of.design of.traces of.groups of.size of.other }
    ensures { of.one ≡ of.other }
{}

/// A front of it is a prefix.
pub fn function_front_is_prefix()
    ghost of: { TwoLists }
    requires front { IsFunctionFront of.design of.traces of.groups of.size of.one }
    requires list { IsFunctionList of.design of.traces of.groups of.size of.other }
    ensures { (rest : List (List ℕ)) × (of.other ≡ of.one ++ rest) }
{}

/// What the right side of a bound place of a well-formed design reads is of no signal that the place's own block assigns by `=`.
pub fn bound_reads_nothing_own()
    ghost of: { OneBit }
    requires well_formed { IsWellFormed of.design }
    requires bound { is_bound of.design of.place ≡ true }
    requires read { is_operand of.design of.place of.signal of.position ≡ true }
    ensures { is_own of.design of.place of.signal ≡ false }
{}
