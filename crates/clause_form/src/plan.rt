//! A form whose clauses are made once it is known which of them are wanted.

ghost use Rattle.std.specs.Prelude.{◌≡◌, ◌<◌, ◌≤◌, IfErr, IfOk, length};
ghost use Rattle.unroller.specs.Unrolls.{base_of, variables_of};
ghost use Rattle.clause_form.specs.Clauses.{form_clauses, literals_in};
ghost use Rattle.clause_form.specs.Limits.{IsRefused};
ghost use Rattle.clause_form.specs.Named.{only_named};

use crate::beginning::Beginning;
use crate::error::FormErr;
use clause_base::Form;
use loc_base::{Items, NoMemory};
use std::alloc::Global;
use std::marker::Model;
use suspect_map::Groups;
use unroller::Unrolled;

/// A form that isn't too large, and whose clauses aren't made yet. Contracts see it as the number of its variables and its
/// clauses.
#[derive(Drop)]
pub struct FormPlan {
    unrolled: Unrolled,
    beginning: Beginning,
}

impl Model for FormPlan {
    ghost use Rattle.clause_form.specs.Named.{Planned};
    ghost use Rattle.clause_form.specs.Fields.{IsPlan, planned};

    ghost Value = { Planned };

    ghost view = { λ p. planned p.unrolled p.beginning };

    ghost invariant = { λ p. IsPlan p.unrolled p.beginning };
}

impl FormPlan {
    /// The plan of the form of an unrolled form, in which sets of at most k suspects are asked for. It is refused where `form` refuses.
    pub fn new(
        alloc: Global,
        unrolled: Unrolled,
        groups: &Groups,
        k: u32,
    ) -> Result<FormPlan, FormErr>
        requires { unrolled.base ≡ base_of groups.now k }
        ensures variables { IfOk result (λ plan. plan.vars ≡ variables_of unrolled) }
        ensures clauses { IfOk result (λ plan. plan.clauses ≡ form_clauses unrolled groups.now k) }
        ensures within { IfOk result (λ plan. literals_in plan.clauses ≤ 64000000) }
        ensures err { IfErr result (λ e. IsRefused e (64000000 < literals_in (form_clauses unrolled groups.now k))) }
    {
        let _vars = unrolled.variables();
        let beginning = Beginning::new(alloc, groups, k)?;
        beginning.check(alloc, &unrolled)?;
        Ok(FormPlan {
            unrolled,
            beginning,
        })
    }

    /// A number that the clauses don't exceed: it is found without making or counting them.
    pub fn most_clauses(&self) -> u64
        ensures { length self.now.clauses ≤ result }
    {
        self.beginning.most_clauses(&self.unrolled)
    }

    /// The form in which each clause whose mark is false is empty. The marks are by the places of the clauses, from the first on; a
    /// clause without one is made.
    pub fn named(&self, alloc: Global, named: Items<bool>) -> Result<Form, NoMemory>
        ensures variables { IfOk result (λ form. form.vars ≡ self.now.vars) }
        ensures clauses { IfOk result (λ form. form.clauses ≡ only_named named self.now.clauses) }
    {
        let vars = self.unrolled.variables();
        match self.beginning.clauses(alloc, &self.unrolled, named) {
            Ok(clauses) => Ok(Form { vars, clauses }),
            Err(FormErr::Literals) => unreachable!(),
            Err(FormErr::NoMemory) => Err(NoMemory),
        }
    }
}
