ghost use Rattle.std.specs.Prelude.{◌≡◌, ℕ, ◌<◌, ◌&&◌, Bool, true, not, nat_eq, length, IsTrue, IsSome, IfSome, MatchOption};
ghost use Rattle.clause_base.specs.declared.literal.Lit.{Lit};
ghost use Rattle.clause_base.specs.Literal.{opposite, has, has_distinct_variables};
ghost use Rattle.clause_base.specs.Resolution.{IsOnlyClash, resolvent};
ghost use Rattle.proof_check.specs.Marks.{marked, held, AreStampedUpTo, IsInTable};
ghost use Rattle.proof_check.specs.Merging.{TakesIn, HasResolvent, HasNoResolvent};

use crate::marks::Mark;
use crate::sets::{insert, is_marked, remove};
use clause_base::Lit;

/// How far a clause has been taken into the set: how many literals the set has, and the literal of it that clashed.
#[derive(Clone, Copy)]
pub(crate) struct Merge {
    held: usize,
    clash: Option<u32>,
}

/// Takes one more literal of a clause into the set. `None` where it is the second one that clashes.
fn take_in(marks: &mut [Mark], stamp: u32, merge: Merge, literal: Lit) -> Option<Merge>
    requires in_table { literal.var < length marks.old }
    requires held { merge.held ≡ held stamp marks.old }
    ensures takes { MatchOption result (IsSome merge.clash × (marked stamp marks.old (opposite literal) ≡ true)) (λ next. TakesIn (marked stamp marks.old) merge.clash literal (marked stamp marks.new) next.clash) }
    ensures held { IfSome result (λ next. next.held ≡ held stamp marks.new) }
    ensures stamps { AreStampedUpTo stamp marks.old → AreStampedUpTo stamp marks.new }
{
    if is_marked(marks, stamp, literal.opposite()) {
        if merge.clash.is_some() {
            return None;
        }
        return Some(Merge {
            held: merge.held,
            clash: Some(literal.var),
        });
    }
    if is_marked(marks, stamp, literal) {
        return Some(merge);
    }
    insert(marks, stamp, literal);
    Some(Merge {
        held: merge.held + 1,
        clash: merge.clash,
    })
}

/// Resolves the set, which has `count` literals, with the clause, and answers how many literals it has then.
/// `None` where the two don't clash on exactly one variable.
pub(crate) fn resolve(marks: &mut [Mark], stamp: u32, count: usize, clause: &[Lit]) -> Option<usize>
    requires in_table { IsInTable marks.old clause.now }
    requires distinct { IsTrue (has_distinct_variables clause.now) }
    requires stamp { 0 < stamp }
    requires held { count ≡ held stamp marks.old }
    ensures resolves { MatchOption result (HasNoResolvent (marked stamp marks.old) clause.now) (λ _. HasResolvent (marked stamp marks.old) clause.now (marked stamp marks.new)) }
    ensures held { IfSome result (λ new_count. new_count ≡ held stamp marks.new) }
    ensures stamps { AreStampedUpTo stamp marks.old → AreStampedUpTo stamp marks.new }
{
    let mut merge = Merge {
        held: count,
        clash: None,
    };
    for literal in clause {
        merge = take_in(marks, stamp, merge, *literal)?;
    }
    let pivot = merge.clash?;
    remove(marks, stamp, pivot);
    Some(merge.held - 1)
}
