//! The laws.

ghost use Rattle.std.specs.Prelude.{length};
ghost use Rattle.card_counter.specs.InForm.{HasCounter};
ghost use Rattle.clause_base.specs.Literal.{AreWithin};
ghost use Rattle.form_laws.specs.Encodes.{unrolling_of};
ghost use Rattle.pair_form.specs.AllPairs.{function_clauses, function_variables};
ghost use Rattle.function_laws.specs.Encoded.{CanCompare, EncodesFunctions, OfFunctions};
ghost use Rattle.function_laws.specs.Watched.{AreUnchecked, OfFurther, WorkAlike};

/// For each size j of at most k and each set of at most j suspects: some assignment satisfies the form, the clauses of all pairs and the
/// bound at j, with the selectors of exactly that set true, exactly where the set works by functions in the design.
pub fn form_encodes_functions()
    ghost of: { OfFunctions }
    requires { CanCompare of }
    ensures { EncodesFunctions of }
{}

/// The form's first clauses count the suspects' selectors, and the others, those of the pairs among them, name none of the counters. The variables
/// of all clauses are from 1 to their number.
pub fn function_form_has_its_counter()
    ghost of: { OfFunctions }
    requires { CanCompare of }
    ensures counter { HasCounter (length of.form.asked.groups) of.form.asked.k (function_variables (unrolling_of of.form.asked) of.form.asked.groups of.compared) (function_clauses (unrolling_of of.form.asked) of.form.asked.groups of.form.asked.k of.compared) }
    ensures within { AreWithin (function_variables (unrolling_of of.form.asked) of.form.asked.groups of.compared) (function_clauses (unrolling_of of.form.asked) of.form.asked.groups of.form.asked.k of.compared) }
{}

/// A set works by functions in a design exactly where it does in the design with further outputs that no trace checks.
pub fn further_outputs_work_alike()
    ghost of: { OfFurther }
    requires { AreUnchecked of }
    ensures { WorkAlike of }
{}
