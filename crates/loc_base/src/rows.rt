ghost use Rattle.std.specs.Prelude.{◌≡◌, ◌-◌, ◌<◌, ◌↔◌, IsTrue, length, take, [], ◌∷◌, ◌++◌, slice_index, slice_index_or, OnOk, OnErr};

use crate::memory::NoMemory;
use std::alloc::Global;
use std::marker::Model;

/// A list of lists, kept one behind the other in one piece of memory. Contracts see it as the list of the lists.
#[derive(Debug)]
pub struct Rows<T> {
    items: Vec<T>,
    ends: Vec<usize>,
}

// A `drop` is written out, so that it is proved once, here: a derived one is proved again by each crate that lets a value go.
impl<T: Drop> Drop for Rows<T> {
    fn drop(self) {
        let Rows { items: _, ends: _ } = self;
    }
}

impl<T> Model for Rows<T> {
    ghost use Rattle.std.specs.Prelude.{List, length};
    ghost use Rattle.loc_base.specs.Rows.{cut, EndsAscend};

    ghost Value = { List (List T) };

    ghost view = { λ r. cut r.items.items 0 r.ends.items };

    ghost invariant = { λ r. EndsAscend 0 r.ends.items (length r.items.items) };
}

/// Where the row of that number begins, the ends of all rows being given.
fn start_of(ends: &[usize], number: usize) -> usize
    requires { number < length ends.now }
    ensures { result ≡ slice_index (0 ∷ ends.now) number }
{
    if number == 0 { 0 } else { ends[number - 1] }
}

#[tactic(auto, using(crate::proofs::Cut::cuts))]
impl<T: Copy> Rows<T> {
    /// No rows. It takes no memory.
    pub fn new(alloc: Global) -> Rows<T>
        ensures { result ≡ [] }
    {
        Rows {
            items: Vec::new(alloc),
            ends: Vec::new(alloc),
        }
    }

    /// The number of rows.
    pub fn len(&self) -> usize
        ensures { result ≡ length self.now }
    {
        self.ends.len()
    }

    /// Whether there is no row.
    pub fn is_empty(&self) -> bool
        ensures { IsTrue result ↔ (self.now ≡ []) }
    {
        self.len() == 0
    }

    /// The row of that number, counted from 0.
    pub fn row(&self, number: usize) -> &[T]
        requires { number < length self.now }
        ensures { result.now ≡ slice_index_or self.now number [] }
    {
        let from = start_of(&self.ends, number);
        let end = self.ends[number];
        &self.items.as_slice()[from..end]
    }

    /// Appends a row. Unchanged after `NoMemory`.
    pub fn push(&mut self, row: &[T]) -> Result<(), NoMemory>
        ensures ok { OnOk result (self.new ≡ self.old ++ row.now ∷ []) }
        ensures err { OnErr result (self.new ≡ self.old) }
    {
        self.ends.reserve(1)?;
        self.items.extend_from_slice(row)?;
        let end = self.items.len();
        self.ends.push(end).unwrap();
        Ok(())
    }

    /// Appends a row without elements. Unchanged after `NoMemory`.
    #[inline(always)]
    pub fn push_empty(&mut self) -> Result<(), NoMemory>
        ensures ok { OnOk result (self.new ≡ self.old ++ [] ∷ []) }
        ensures err { OnErr result (self.new ≡ self.old) }
    {
        let end = self.items.len();
        self.ends.push(end)?;
        Ok(())
    }

    /// Takes the last row off.
    pub fn pop(&mut self)
        requires { 0 < length self.old }
        ensures { self.new ≡ take (length self.old - 1) self.old }
    {
        let last = self.ends.len() - 1;
        let from = start_of(&self.ends, last);
        self.items.truncate(from);
        self.ends.truncate(last);
    }
}
