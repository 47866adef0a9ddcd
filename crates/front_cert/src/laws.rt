//! What is known of the answers.

ghost use Rattle.std.specs.Prelude.{◌≡◌, ◌++◌, ℕ, List, Option};
ghost use Rattle.clause_base.specs.declared.log.Step.{Step};
ghost use Rattle.clause_base.specs.Acceptance.{IsAccepted};
ghost use Rattle.front_cert.specs.Certificates.{Certified, IsCertificate, IsFinished};
ghost use Rattle.front_cert.specs.Fronts.{Claimed, IsFrontOf, IsShown};
ghost use Rattle.front_cert.specs.Left.{IsLogged, Logged, NoneBefore};
ghost use Rattle.front_cert.specs.Unshown.{SaysMissing};

/// A front has one answer: what one check says of it, any other says.
pub fn one_answer()
    ensures { (n k : ℕ) (members : List ℕ) (log : List Step) (one other : Option ℕ) → SaysMissing n k members log one → SaysMissing n k members log other → one ≡ other }
{}

/// A log that shows a front says that no assignment of its form and its blocks selects a set before the front's last one.
pub fn shown_is_not_before()
    ghost of: { Logged }
    requires { IsLogged of }
    ensures { NoneBefore of }
{}

/// A list whose sets work, stand in order and hold none within another is a front where its log shows that none is missing before its last
/// set: no minimal set is missing before a listed one, and each listed one is minimal.
pub fn shown_is_front()
    ghost of: { Claimed }
    requires { IsShown of }
    ensures { IsFrontOf of }
{}

/// A certificate behind a log that is accepted, and may have grown since the certificate was made, leaves it accepted, and the log then shows
/// that no set is missing before the last one.
pub fn certificate_finishes()
    ghost of: { Certified }
    requires accepted { IsAccepted of.form of.blocks (of.log ++ of.more) }
    requires certificate { IsCertificate of.n of.k of.form of.members of.log of.steps }
    ensures { IsFinished of }
{}
