//! One row of a counter after the other.
ghost use Rattle.std.specs.Prelude.{◌≡◌, ◌+◌, ◌<◌, ◌≤◌, ◌^◌, ◌++◌, OnOk};
ghost use Rattle.clause_base.specs.Literal.{negative, positive};
ghost use Rattle.card_counter.specs.Places.{starts, width};
ghost use Rattle.card_counter.specs.Counter.{pair, pairs};

use crate::place::{negative, positive, width_of};
use clause_base::{Clauses, Lit};
use loc_base::NoMemory;

/// The row that counts one more selector, and the row before it.
#[derive(Clone, Copy)]
pub(crate) struct Step {
    pub first: u32,
    pub k: u32,
    /// The number of selectors that the row before counts.
    pub counted: usize,
    /// The first counter of the row before.
    pub before: usize,
    /// The first counter of the row.
    pub here: usize,
    pub ghost before_is: { before ≡ first + starts k counted },
    pub ghost here_is: { here ≡ first + starts k (counted + 1) },
}

impl Step {
    /// Appends the clauses of the counter of that number, `selector` being the one more.
    fn push_pair(self, clauses: &mut Clauses, selector: Lit, number: usize) -> Result<(), NoMemory>
        requires selector { selector.var < self.first }
        requires number { 1 ≤ number }
        requires within { number ≤ width self.k (self.counted + 1) }
        requires variables_fit { self.here + number ≤ 2 ^ 32 }
        ensures { OnOk result (clauses.new ≡ clauses.old ++ pair self.first self.k self.counted selector number) }
    {
        let tells = positive(self.here + (number - 1));
        if number <= width_of(self.k, self.counted) {
            clauses.push(&[negative(self.before + (number - 1)), tells])?;
        }
        if number == 1 {
            clauses.push(&[selector.opposite(), tells])
        } else {
            clauses.push(&[
                selector.opposite(),
                negative(self.before + (number - 2)),
                tells,
            ])
        }
    }

    /// Appends the clauses of the row.
    pub(crate) fn push_row(self, clauses: &mut Clauses, selector: Lit) -> Result<(), NoMemory>
        requires selector { selector.var < self.first }
        requires counted { self.counted + 1 < 2 ^ 64 }
        requires variables_fit { self.here + width self.k (self.counted + 1) ≤ 2 ^ 32 }
        ensures { OnOk result (clauses.new ≡ clauses.old ++ pairs self.first self.k self.counted selector 1 (width self.k (self.counted + 1))) }
    {
        for done in 0..width_of(self.k, self.counted + 1) {
            self.push_pair(clauses, selector, done + 1)?;
        }
        Ok(())
    }
}
