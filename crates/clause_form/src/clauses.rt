//! The form.

ghost use Rattle.std.specs.Prelude.{◌≡◌, ◌<◌, ◌≤◌, IfErr, IfOk};
ghost use Rattle.unroller.specs.Unrolls.{base_of, variables_of};
ghost use Rattle.clause_form.specs.Clauses.{form_clauses, literals_in};
ghost use Rattle.clause_form.specs.Limits.{IsRefused};

use crate::beginning::Beginning;
use crate::error::FormErr;
use clause_base::Form;
use loc_base::Items;
use std::alloc::Global;
use suspect_map::Groups;
use unroller::Unrolled;

/// The clauses of an unrolled form, in which sets of at most k suspects are asked for. It is refused where they would have more
/// than 64,000,000 literals; that is known before any of a cycle is made.
pub fn form(alloc: Global, u: &Unrolled, groups: &Groups, k: u32) -> Result<Form, FormErr>
    requires { u.now.base ≡ base_of groups.now k }
    ensures variables { IfOk result (λ form. form.vars ≡ variables_of u.now) }
    ensures clauses { IfOk result (λ form. form.clauses ≡ form_clauses u.now groups.now k) }
    ensures within { IfOk result (λ form. literals_in form.clauses ≤ 64000000) }
    ensures err { IfErr result (λ e. IsRefused e (64000000 < literals_in (form_clauses u.now groups.now k))) }
{
    let vars = u.variables();
    let beginning = Beginning::new(alloc, groups, k)?;
    beginning.check(alloc, u)?;
    let clauses = beginning.clauses(alloc, u, Items::new(alloc))?;
    Ok(Form { vars, clauses })
}
