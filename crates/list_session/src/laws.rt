//! What is known of lists that a run can go on with: the contracts of functions that do nothing.
ghost use Rattle.std.specs.Prelude.{◌≡◌};
ghost use Rattle.set_enum.specs.EnumState.{AreChainless};
ghost use Rattle.debug_core.specs.Problems.{IsFormFor, IsProblem};
ghost use Rattle.debug_core.specs.Sessions.{IsSession};
ghost use Rattle.list_verdict.specs.Claims.{Claim};
ghost use Rattle.list_verdict.specs.Verdicts.{IsFrontShown, members_of};
ghost use Rattle.list_session.specs.Taken.{Asked, TwoForms};
ghost use Rattle.list_session.specs.Unfit.{IsUnfit};

/// A list for which the first four conditions hold, and whose log shows that no set is missing before the last one, is a session, where no
/// block of the log has a chain.
pub fn fit_is_session()
    ghost of: { Claim }
    requires fit { IsFrontShown of }
    requires chainless { AreChainless of.log }
    ensures { IsSession of.problem of.form (members_of of.sets) of.log }
{}

/// Nothing is unfit of such a list of a problem that can be asked.
pub fn fit_is_not_unfit()
    ghost of: { Asked }
    requires problem { IsProblem of.claim.problem }
    requires fit { IsFrontShown of.claim }
    ensures { ¬ IsUnfit of.claim of.unfit }
{}

/// A problem has one form: what is a session by the clauses that one call made for it is one by those of another.
pub fn one_form()
    ghost of: { TwoForms }
    requires form { IsFormFor of.problem of.vars of.form }
    requires other { IsFormFor of.problem of.other_vars of.other }
    ensures vars { of.vars ≡ of.other_vars }
    ensures clauses { of.form ≡ of.other }
{}
