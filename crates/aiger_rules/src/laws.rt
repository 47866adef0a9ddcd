//! Laws of the definitions. Each is the contract of a function that does nothing.
ghost use Rattle.aiger_rules.specs.Laws.{NoMisnaming, NoRefusal, OneLine, OneName};

/// Where literals are used well, they are refused for want of memory alone.
#[tactic(auto, using(crate::proofs::LiteralLaws::no_refusal))]
pub fn no_refusal()
    ensures { NoRefusal }
{}

/// One line is refused at most.
#[tactic(auto, using(crate::proofs::LiteralLaws::one_line))]
pub fn one_line()
    ensures { OneLine }
{}

/// Where all lines name something rightly, names are refused for want of memory alone.
#[tactic(auto, using(crate::proofs::NamingLaws::no_misnaming))]
pub fn no_misnaming()
    ensures { NoMisnaming }
{}

/// One line is refused for its names at most.
#[tactic(auto, using(crate::proofs::NamingLaws::one_name))]
pub fn one_name()
    ensures { OneName }
{}
