//! Laws of the definitions. Each is the contract of a function that does nothing.
ghost use Rattle.aiger_text.specs.Laws.{OneContent, NoRefusal};

/// A text has one content at most.
#[tactic(auto, using(crate::proofs::ContentLaws::one_content))]
pub fn one_content()
    ensures { OneContent }
{}

/// A text that has a content, and isn't too long, is refused for want of memory alone.
#[tactic(auto, using(crate::proofs::RefusalLaws::no_refusal))]
pub fn no_refusal()
    ensures { NoRefusal }
{}
