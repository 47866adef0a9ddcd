ghost use Rattle.std.specs.Prelude.{◌≡◌, ◌+◌, ◌<◌, ◌≤◌, ◌^◌, length, IfOk};
ghost use Rattle.card_counter.specs.Places.{starts};
ghost use Rattle.card_counter.specs.Counter.{counter_clauses};
ghost use Rattle.card_counter.specs.Means.{AreBefore, IsCounter};

use crate::place::width_of;
use crate::step::Step;
use clause_base::{Clauses, Lit};
use loc_base::NoMemory;
use std::alloc::Global;

/// The clauses that count how many of the selectors are true, up to `k + 1`. Their variables are from `first` on.
pub fn counter(alloc: Global, selectors: &[Lit], k: u32, first: u32) -> Result<Clauses, NoMemory>
    requires before { AreBefore first selectors.now }
    requires variables_fit { first + starts k (length selectors.now + 1) ≤ 2 ^ 32 }
    ensures clauses { IfOk result (λ clauses. clauses ≡ counter_clauses selectors.now k first) }
    ensures counts { IfOk result (IsCounter first k selectors.now) }
{
    let mut clauses = Clauses::new(alloc);
    let mut before = first as usize;
    let mut here = first as usize;
    for counted in 0..selectors.len() {
        let step = Step {
            first,
            k,
            counted,
            before,
            here,
        };
        step.push_row(&mut clauses, selectors[counted])?;
        before = here;
        here += width_of(k, counted + 1);
    }
    Ok(clauses)
}
