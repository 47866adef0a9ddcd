//! A search in slices of its budget.
ghost use Rattle.std.specs.Prelude.{IfOk, OnErr};
ghost use Rattle.debug_core.specs.Debugging.{FindsNothing, HasRoom, IsDebugger, Searches};
ghost use Rattle.list_writer.specs.Going.{GivesInSlice};

use crate::search::Search;
use debug_core::Found;
use loc_base::NoMemory;
use sat_core::Budget;

/// The most units that a search is given at once. Between two slices it is told how far the search is.
const SLICE: u32 = 10_000;

/// The next set, that the list is whole, or that a slice of the units that are left is spent; the slice is taken from them, and what
/// is left of it is given back. After `NoMemory` no set is lost.
pub(crate) fn next_in_slice<D: Search>(search: &mut D, left: &mut u32) -> Result<Found, NoMemory>
    requires { HasRoom (D.state search.old) left.old }
    ensures holds { IsDebugger (D.state search.new) }
    ensures searches { Searches (D.state search.old) (D.state search.new) left.old left.new }
    ensures gives { IfOk result (GivesInSlice (D.state search.old) (D.state search.new) left.old left.new) }
    ensures err { OnErr result (FindsNothing (D.state search.old) (D.state search.new)) }
{
    let units = (*left).min(SLICE);
    let mut slice = Budget::new(units);
    let answer = search.next(&mut slice);
    *left = *left - units + slice.left();
    answer
}
