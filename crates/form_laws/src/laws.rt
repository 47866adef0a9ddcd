//! What the clauses of a form say of the circuit that was unrolled.

ghost use Rattle.std.specs.Prelude.{length};
ghost use Rattle.clause_base.specs.Literal.{AreWithin};
ghost use Rattle.card_counter.specs.InForm.{HasCounter};
ghost use Rattle.clause_form.specs.Clauses.{form_clauses};
ghost use Rattle.unroller.specs.Unrolls.{variables_of};
ghost use Rattle.form_laws.specs.Models.{HasOneColumnEach};
ghost use Rattle.form_laws.specs.Encodes.{Asked, CanBeAsked, EncodesSets, FewAreSelected, ModelMeets, unrolling_of};

/// The form's first clauses count the suspects' selectors, and the others name none of the counters.
pub fn form_has_its_counter()
    ghost of: { Asked }
    requires { CanBeAsked of }
    ensures { HasCounter (length of.groups) of.k (variables_of (unrolling_of of)) (form_clauses (unrolling_of of) of.groups of.k) }
{}

/// The variables of the clauses are from 1 to the number of the form's variables.
pub fn variables_are_within()
    ghost of: { Asked }
    requires { CanBeAsked of }
    ensures { AreWithin (variables_of (unrolling_of of)) (form_clauses (unrolling_of of) of.groups of.k) }
{}

/// For each size j of at most k and each set of at most j suspects: some assignment satisfies the form and the bound at j, with
/// the selectors of exactly that set true, exactly where the set works.
pub fn form_encodes_sets()
    ghost of: { Asked }
    requires { CanBeAsked of }
    ensures { EncodesSets of }
{}

/// No assignment that satisfies the form and the bound at j has more than j true selectors.
pub fn few_are_selected()
    ghost of: { Asked }
    requires { CanBeAsked of }
    ensures { FewAreSelected of }
{}

/// In a model of the form whose true selectors are a set's, the bits that the model gives to the literals of the set's places
/// make each trace right.
pub fn models_meet_traces()
    ghost of: { Asked }
    requires { CanBeAsked of }
    ensures { ModelMeets of }
{}

/// Each bit of a place has one column of literals in the form.
pub fn bits_have_one_column()
    ghost of: { Asked }
    requires { CanBeAsked of }
    ensures { HasOneColumnEach (unrolling_of of) }
{}
