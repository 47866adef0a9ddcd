//! What a verdict says: the contracts of functions that do nothing.

ghost use Rattle.std.specs.Prelude.{◌≡◌, ◌⊎◌, map};
ghost use Rattle.clause_base.specs.Literal.{AllDistinct};
ghost use Rattle.debug_core.specs.Problems.{IsFormFor, IsProblem};
ghost use Rattle.list_verdict.specs.Verdicts.{Answered, IsFrontList, IsFrontShown, IsVerdict, IsWhole, IsWholeList, Judged};
ghost use Rattle.list_verdict.specs.declared.verdict.Verdict.TheVariants.{Front, Whole};

/// Where the problem is one that can be asked and the form is its form, a list for which all five conditions hold is the problem's
/// list: its members are exactly the minimal sets of at most k suspects, in order, and the values of each explain the traces. Each
/// clause of form and log is to be of distinct variables, as those of a `Form` and of a `Log` are.
pub fn whole_is_list()
    ghost of: { Judged }
    requires problem { IsProblem of.claim.problem }
    requires form { IsFormFor of.claim.problem of.vars of.claim.form }
    requires of_form { AllDistinct of.claim.form }
    requires of_log { AllDistinct (map (λ step. step.clause) of.claim.log) }
    requires whole { IsWhole of.claim }
    ensures { IsWholeList of.claim }
{}

/// Where all five conditions hold of a problem that can be asked, no other answer than `Whole` is one.
pub fn whole_is_judged()
    ghost of: { Answered }
    requires problem { IsProblem of.claim.problem }
    requires whole { IsWhole of.claim }
    requires verdict { IsVerdict of.claim of.verdict }
    ensures { of.verdict ≡ Whole }
{}

/// Where the first four conditions hold and the log shows that no set is missing before the last one, the list is a front of the problem's
/// list: its members are minimal sets, in order, none is missing before one that is there, and the values of each explain the traces.
pub fn shown_is_front_list()
    ghost of: { Judged }
    requires problem { IsProblem of.claim.problem }
    requires form { IsFormFor of.claim.problem of.vars of.claim.form }
    requires of_form { AllDistinct of.claim.form }
    requires of_log { AllDistinct (map (λ step. step.clause) of.claim.log) }
    requires shown { IsFrontShown of.claim }
    ensures { IsFrontList of.claim }
{}

/// Of such a list of a problem that can be asked no other answer is one than `Front`, and `Whole` where the log closes it.
pub fn shown_is_judged()
    ghost of: { Answered }
    requires problem { IsProblem of.claim.problem }
    requires shown { IsFrontShown of.claim }
    requires verdict { IsVerdict of.claim of.verdict }
    ensures { (of.verdict ≡ Whole) ⊎ (of.verdict ≡ Front) }
{}
