//! The check of the whole log of a list.
ghost use Rattle.std.specs.Prelude.{◌≡◌, IfOk, IsTrue};
ghost use Rattle.clause_base.specs.Literal.{has_distinct_variables};
ghost use Rattle.set_enum.specs.Sets.{block_of};
ghost use Rattle.list_writer.specs.Checks.{AreSets, CanBeChecked, IsCheckOf, blocks_for};
ghost use Rattle.list_writer.specs.Jobs.{IsUpTo};

use crate::search::Search;
use crate::verdict::{Checked, check_search};
use clause_base::{Clause, Lit};
use design_core::SetWithValues;
use loc_base::{Gate, NoMemory, Workers};
use std::alloc::Global;
use std::thread::Threads;

/// The block of a set: the negations of its members.
fn block_of(alloc: Global, members: &[u32]) -> Result<Clause, NoMemory>
    requires { IsTrue (has_distinct_variables (block_of members.now)) }
    ensures { IfOk result (λ block. block ≡ block_of members.now) }
{
    let mut literals = Vec::new(alloc);
    for member in members {
        literals.push(Lit {
            var: *member,
            negated: true,
        })?;
    }
    Clause::new(alloc, &literals)
}

/// The blocks of the sets that were found.
fn blocks_of(alloc: Global, found: &[SetWithValues]) -> Result<Vec<Clause>, NoMemory>
    requires { AreSets found.now }
    ensures { IfOk result (λ blocks. blocks.items ≡ blocks_for found.now) }
{
    let mut blocks = Vec::new(alloc);
    for set in found {
        blocks.push(block_of(alloc, set.members.as_slice())?)?;
    }
    Ok(blocks)
}

/// Checks the log after the form, with the blocks of the sets that were found. It is accepted, so that else nothing but want of
/// memory is answered.
pub(crate) fn check_log<'a, R: Threads + Sync, G: Gate + Sync, D: Search>(
    alloc: Global,
    workers: &Workers<R, G>,
    search: &'a D,
    found: &[SetWithValues],
) -> Result<Checked<'a>, NoMemory>
    requires workers { IsUpTo 64 workers.now.count }
    requires can { CanBeChecked (D.state search.now) found.now }
    ensures { IfOk result (IsCheckOf (D.state search.now).form (D.state search.now).log) }
{
    let blocks = blocks_of(alloc, found)?;
    match check_search(alloc, workers, search, &blocks)? {
        Some(checked) => Ok(checked),
        None => unreachable!(),
    }
}
