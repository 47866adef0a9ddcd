//! How many literals and clauses a form has at most, by the number of its definitions.

ghost use Rattle.std.specs.Prelude.{[], ◌≡◌, ◌+◌, ◌*◌, ◌≤◌, IfSome, IsTrue, get_or, length, ℕ};
ghost use Rattle.unroller.specs.Reads.{IsUnrolled};
ghost use Rattle.clause_form.specs.Clauses.{literals_in};
ghost use Rattle.clause_form.specs.Fields.{CanBegin, whole_of};
ghost use Rattle.clause_form.specs.Variables.{bits_in};

use crate::beginning::Beginning;
use crate::sink::{GATE, LITERALS};
use clause_base::Lit;
use gate_base::Literal;
use loc_base::{Items, Rows};
use unroller::Unrolled;

/// How many clauses an AND has; no definition has more.
const CLAUSES: u64 = 3;

/// How many selectors the place with the most of them has.
fn longest(rows: &[Items<Lit>]) -> usize
    ensures { (place : ℕ) → length (get_or rows.now place []) ≤ result }
{
    let mut longest = 0;
    for i in 0..rows.len() {
        longest = rows[i].len().max(longest);
    }
    longest
}

/// How many bits words have, and `None` where they are more than the literals that a form may have.
#[tactic(auto, using(crate::proofs::MostSteps::bits))]
fn bits_in(words: &Rows<Literal>) -> Option<u64>
    ensures { IfSome result (λ bits. bits ≡ bits_in words.now) }
{
    let mut bits = 0;
    for i in 0..words.len() {
        let more = words.row(i).len() as u64;
        if more > LITERALS - bits {
            return None;
        }
        bits += more;
    }
    Some(bits)
}

impl Beginning {
    /// The literals of the counter, so many for each definition, and one for each bit of an output; `None` where they are too many.
    fn most(&self, u: &Unrolled, each: u64) -> Option<u64>
        ensures most { IfSome result (λ most. most ≡ self.now.count + length u.now.definitions * each + bits_in u.now.outputs) }
        ensures kept { IsUnrolled u.now }
    {
        let definitions = (u.definitions().len() as u64).checked_mul(each)?;
        let bits = bits_in(u.outputs())?;
        self.count.checked_add(definitions)?.checked_add(bits)
    }

    /// Whether the definitions are so few that the clauses can't have too many literals.
    pub(crate) fn is_small(&self, u: &Unrolled) -> bool
        requires { CanBegin u.now self.now }
        ensures { IsTrue result → literals_in (whole_of self.now u.now) ≤ 64000000 }
    {
        let longest = longest(&self.selectors) as u64;
        if longest > LITERALS {
            return false;
        }
        match self.most(u, (2 * longest + 4).max(GATE)) {
            Some(most) => most <= LITERALS,
            None => false,
        }
    }

    /// How many clauses there are at most, behind those of the counter.
    pub(crate) fn most_clauses(&self, u: &Unrolled) -> u64
        requires can { CanBegin u.now self.now }
        requires few { literals_in (whole_of self.now u.now) ≤ 64000000 }
        ensures { length (whole_of self.now u.now) ≤ result }
    {
        match self.most(u, CLAUSES) {
            Some(most) => most,
            None => LITERALS,
        }
    }
}
