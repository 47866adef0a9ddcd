ghost use Rattle.std.specs.Prelude.{◌≡◌, ◌+◌, ◌-◌, ◌<◌, ◌↔◌, ◌&&◌, ◌||◌, Bool, true, false, not, nat_eq, length, IsTrue};
ghost use Rattle.clause_base.specs.Literal.{opposite, positive, negative, has, has_distinct_variables};
ghost use Rattle.clause_base.specs.declared.literal.Lit.{Lit};
ghost use Rattle.proof_check.specs.Marks.{marked, held, AreStampedUpTo, IsInTable};
ghost use Rattle.proof_check.specs.Merging.{Adds};

use crate::marks::{BLANK, Mark};
use clause_base::Lit;

/// Whether the literal is in the set with that stamp.
pub(crate) fn is_marked(marks: &[Mark], stamp: u32, literal: Lit) -> bool
    requires { literal.var < length marks.now }
    ensures { result ≡ marked stamp marks.now literal }
{
    let mark = marks[literal.var as usize];
    mark.stamp == stamp && mark.negated == literal.negated
}

/// The same for a literal whose variable may have no place in the table.
fn is_listed(marks: &[Mark], stamp: u32, literal: Lit) -> bool
    requires { 0 < stamp }
    ensures { result ≡ marked stamp marks.now literal }
{
    (literal.var as usize) < marks.len() && is_marked(marks, stamp, literal)
}

/// Puts a literal into the set, which has neither it nor its opposite.
pub(crate) fn insert(marks: &mut [Mark], stamp: u32, literal: Lit)
    requires in_table { literal.var < length marks.old }
    requires absent { marked stamp marks.old literal ≡ false }
    requires open { marked stamp marks.old (opposite literal) ≡ false }
    ensures adds { Adds (marked stamp marks.old) literal (marked stamp marks.new) }
    ensures held { held stamp marks.new ≡ held stamp marks.old + 1 }
    ensures stamps { AreStampedUpTo stamp marks.old → AreStampedUpTo stamp marks.new }
{
    marks[literal.var as usize] = Mark {
        stamp,
        negated: literal.negated,
    };
}

/// Takes a variable that is in the set, by itself or negated, out of it.
pub(crate) fn remove(marks: &mut [Mark], stamp: u32, var: u32)
    requires in_table { var < length marks.old }
    requires stamp { 0 < stamp }
    requires present { (marked stamp marks.old (positive var) || marked stamp marks.old (negative var)) ≡ true }
    ensures removes { (l : Lit) → marked stamp marks.new l ≡ (marked stamp marks.old l && not (nat_eq l.var var)) }
    ensures held { held stamp marks.new + 1 ≡ held stamp marks.old }
    ensures stamps { AreStampedUpTo stamp marks.old → AreStampedUpTo stamp marks.new }
{
    marks[var as usize] = BLANK;
}

/// Makes the set, which is empty, that of the clause, and answers how many literals it has.
pub(crate) fn mark_all(marks: &mut [Mark], stamp: u32, clause: &[Lit]) -> usize
    requires in_table { IsInTable marks.old clause.now }
    requires distinct { IsTrue (has_distinct_variables clause.now) }
    requires stamp { 0 < stamp }
    requires clear { AreStampedUpTo (stamp - 1) marks.old }
    ensures marks { (l : Lit) → marked stamp marks.new l ≡ has clause.now l }
    ensures held { result ≡ held stamp marks.new }
    ensures stamps { AreStampedUpTo stamp marks.new }
{
    for literal in clause {
        insert(marks, stamp, *literal);
    }
    clause.len()
}

/// Whether the set, which has `count` literals, has those of the clause and no others. What is left of it is not told.
pub(crate) fn strike_all(marks: &mut [Mark], stamp: u32, count: usize, clause: &[Lit]) -> bool
    requires distinct { IsTrue (has_distinct_variables clause.now) }
    requires stamp { 0 < stamp }
    requires held { count ≡ held stamp marks.old }
    ensures same { IsTrue result ↔ ((l : Lit) → marked stamp marks.old l ≡ has clause.now l) }
    ensures stamps { AreStampedUpTo stamp marks.old → AreStampedUpTo stamp marks.new }
{
    let mut left = count;
    for literal in clause {
        if !is_listed(marks, stamp, *literal) {
            return false;
        }
        remove(marks, stamp, literal.var);
        left -= 1;
    }
    left == 0
}
