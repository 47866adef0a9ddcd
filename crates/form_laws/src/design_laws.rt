//! What the clauses of a form say of the design whose circuit was unrolled, where the circuit has the design's cycles.

ghost use Rattle.form_laws.specs.Designs.{EncodesDesign, IsOfDesign, MeetsAlike, OfDesign};

/// For each size j of at most k and each set of at most j suspects: some assignment satisfies the form and the bound at j, with
/// the selectors of exactly that set true, exactly where the set works in the design.
pub fn form_encodes_design()
    ghost of: { OfDesign }
    requires { IsOfDesign of }
    ensures { EncodesDesign of }
{}

/// Numbers chosen for places make a trace right in the design exactly where their bits do in the circuit.
pub fn numbers_meet_as_bits()
    ghost of: { OfDesign }
    requires { IsOfDesign of }
    ensures { MeetsAlike of }
{}
