ghost use Rattle.std.specs.Prelude.{◌≡◌, ◌+◌, ◌<◌, ◌≤◌, ◌^◌, ◌↔◌, length, take, IsTrue, MatchOption};
ghost use Rattle.clause_base.specs.Literal.{has_distinct_variables, AllDistinct};
ghost use Rattle.clause_base.specs.Steps.{step_at};
ghost use Rattle.clause_base.specs.Acceptance.{clauses_of, numbered, IsAcceptedChain};
ghost use Rattle.proof_check.specs.Marks.{AreStampedUpTo, AreInTable};
ghost use Rattle.proof_check.specs.Chain.{IsNumberOf, IsClauseOf};

use crate::marks::Mark;
use crate::resolve::resolve;
use crate::sets::{mark_all, strike_all};
use clause_base::{Clauses, Lit, Log};

/// The clause with that number, counted from 1 over the form and then the steps before `place`, where there is one.
fn numbered_clause<'a>(
    form: &'a Clauses,
    log: &'a Log,
    place: usize,
    number: u32,
) -> Option<&'a [Lit]>
    requires { place ≤ length log.now }
    ensures { MatchOption result (¬ (IsNumberOf (clauses_of form.now (take place log.now)) number)) (λ clause. IsClauseOf (clauses_of form.now (take place log.now)) number clause.now) }
{
    if number == 0 {
        return None;
    }
    let index = number as usize - 1;
    if index < form.len() {
        return Some(form.clause(index));
    }
    let step = index - form.len();
    if step < place {
        return Some(log.clause(step));
    }
    None
}

/// Whether the chain of the step at `place` gives its clause from the form and the steps before it.
pub(crate) fn is_given(marks: &mut [Mark], form: &Clauses, log: &Log, place: usize) -> bool
    requires place { place < length log.now }
    requires few { length log.now < 2 ^ 32 }
    requires stamps { AreStampedUpTo place marks.old }
    requires in_table { AreInTable marks.old (clauses_of form.now (take place log.now)) }
    ensures given { IsTrue result ↔ IsAcceptedChain (clauses_of form.now (take place log.now)) (step_at log.now place).chain (step_at log.now place).clause }
    ensures stamps { AreStampedUpTo (place + 1) marks.new }
{
    let stamp = place as u32 + 1;
    let Some((first, rest)) = log.chain(place).split_first() else {
        return false;
    };
    let Some(start) = numbered_clause(form, log, place, *first) else {
        return false;
    };
    let mut count = mark_all(marks, stamp, start);
    for number in rest {
        let Some(next) = numbered_clause(form, log, place, *number) else {
            return false;
        };
        let Some(left) = resolve(marks, stamp, count, next) else {
            return false;
        };
        count = left;
    }
    strike_all(marks, stamp, count, log.clause(place))
}
