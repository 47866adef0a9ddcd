//! Counters for the tests.
ghost use Rattle.std.specs.Prelude.{◌↔◌, IsTrue};
ghost use Rattle.card_counter.specs.Means.{AreBefore};

use card_counter::{counter, counters};
use clause_base::{Clauses, Lit};
use loc_base::NoMemory;
use std::alloc::Global;
use std::test::Fail;

fn are_before(selectors: &[Lit], first: u32) -> bool
    ensures { IsTrue result ↔ AreBefore first selectors.now }
{
    selectors.iter().all(|selector| selector.var < first)
}

/// The literals of the variables from 1 on, so many.
fn selectors(alloc: Global, count: u32) -> Result<Vec<Lit>, NoMemory> {
    let mut selectors = Vec::new(alloc);
    for before in 0..count {
        selectors.push(Lit {
            var: before + 1,
            negated: false,
        })?;
    }
    Ok(selectors)
}

/// The clauses that count the variables from 1 on, so many. The counters stand behind these.
pub fn made(alloc: Global, count: u32, k: u32) -> Result<Clauses, Fail> {
    if count > 5000 {
        return Err(Fail::new("too many selectors for a test"));
    }
    let selectors = selectors(alloc, count)?;
    let first = count + 1;
    if selectors.len() == count as usize
        && are_before(&selectors, first)
        && counters(count, k) < 1_000_000
    {
        Ok(counter(alloc, &selectors, k, first)?)
    } else {
        Err(Fail::new("no selectors for a test"))
    }
}
