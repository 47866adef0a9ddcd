//! What is known of the answers of a check.

ghost use Rattle.std.specs.Prelude.{◌≡◌, List, Option, map};
ghost use Rattle.clause_base.specs.declared.literal.Lit.{Lit};
ghost use Rattle.clause_base.specs.declared.log.Step.{Step};
ghost use Rattle.clause_base.specs.Literal.{AllDistinct};
ghost use Rattle.clause_base.specs.Acceptance.{Follows, IsAccepted};
ghost use Rattle.proof_check.specs.declared.claim.BadStep.{BadStep};
ghost use Rattle.proof_check.specs.Claims.{Answers};
ghost use Rattle.proof_check.specs.Named.{AgreeFor};

/// A log has one answer: what one check says of it, any other says.
pub fn one_answer()
    ensures { (form : List (List Lit)) (blocks : List (List Lit)) (log : List Step) (one : Option BadStep) (other : Option BadStep) → Answers form blocks log one → Answers form blocks log other → one ≡ other }
{}

/// Of a form an answer rests on the clauses that the log's chains name, and on their number, alone.
pub fn same_answer()
    ensures { (log : List Step) (one : List (List Lit)) (other : List (List Lit)) → AgreeFor log one other → (blocks : List (List Lit)) (answer : Option BadStep) → Answers one blocks log answer → Answers other blocks log answer }
{}

/// What a log that is accepted says follows from the form and the blocks, where the clauses that its chains name are of distinct
/// variables: those of the one form are, which agrees with the other.
pub fn named_follow()
    ensures { (log : List Step) (one : List (List Lit)) (other : List (List Lit)) → AgreeFor log one other → (blocks : List (List Lit)) → AllDistinct one → AllDistinct (map (λ step. step.clause) log) → IsAccepted other blocks log → Follows other blocks log }
{}
