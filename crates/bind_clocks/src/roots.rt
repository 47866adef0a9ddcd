//! Which input of the top a signal is, or is connected to by plain names (IEEE 1364-2005, 12.3.9).
ghost use Rattle.std.specs.Prelude.{◌≡◌, ◌<◌, ◌≤◌, ℕ, All, [], ◌∷◌, ◌++◌, None, length, slice_index_or, IfOk, OnOk, OnErr};
ghost use Rattle.std.specs.List.{list_any};
ghost use Rattle.v_binding.specs.Clocks.{root_of};
ghost use Rattle.bind_clocks.specs.Rooted.{has_root};
ghost use Rattle.bind_clocks.specs.Tables.{with_root};

use loc_base::{Items, NoMemory};
use std::alloc::Global;
use std::marker::Model;
use v_binding::Root;

/// What the roots of one signal are: the input of the first one, and whether there is another.
#[derive(Clone, Copy)]
pub(crate) struct Entry {
    pub(crate) input: u32,
    pub(crate) again: bool,
}

/// The roots in their order. A signal that has one is found by one look into a table. Contracts see the list.
pub(crate) struct Roots {
    list: Items<Root>,
    /// By the number of the signal.
    table: Vec<Option<Entry>>,
}

impl Model for Roots {
    ghost use Rattle.std.specs.Prelude.{List};
    ghost use Rattle.v_binding.specs.Bound.{Root as Plain};

    ghost Value = { List Plain };

    ghost use Rattle.bind_clocks.specs.Tables.{AreRooted};

    ghost view = { λ r. r.list };

    ghost invariant = { λ r. AreRooted r.list r.table.items };
}

// A `drop` is written out, so that it is proved once, here.
impl Drop for Roots {
    fn drop(self) {
        let Roots { list: _, table: _ } = self;
    }
}

/// What a table has for a signal.
fn entry_of(table: &Vec<Option<Entry>>, signal: usize) -> Option<Entry>
    ensures { result ≡ slice_index_or table.now.items signal None }
{
    if signal < table.len() {
        table[signal]
    } else {
        None
    }
}

/// Makes a table so long.
#[tactic(auto, using(crate::proofs::EntryLaws::grown))]
fn fit(table: &mut Vec<Option<Entry>>, signals: usize) -> Result<(), NoMemory>
    ensures same { (s : ℕ) → slice_index_or table.new.items s None ≡ slice_index_or table.old.items s None }
    ensures no_less { length table.old.items ≤ length table.new.items }
    ensures long { OnOk result (signals ≤ length table.new.items) }
{
    while table.len() < signals {
        table.push(None)?;
    }
    Ok(())
}

/// The entry of a signal that has one root more.
fn with_root(entry: Option<Entry>, input: u32) -> Entry
    ensures { result ≡ with_root entry input }
{
    match entry {
        None => Entry {
            input,
            again: false,
        },
        Some(before) => Entry {
            input: before.input,
            again: true,
        },
    }
}

impl Roots {
    /// None. The table is for so many signals, and grows where that is too few.
    pub(crate) fn new(signals: usize, alloc: Global) -> Result<Roots, NoMemory>
        ensures { IfOk result (λ roots. roots ≡ []) }
    {
        Ok(Roots {
            list: Items::new(alloc),
            table: vec![in alloc; None; signals]?,
        })
    }

    pub(crate) fn list(&self) -> &[Root]
        ensures { result.now ≡ self.now }
    {
        self.list.as_slice()
    }

    /// A number above those of the signals that have a root.
    pub(crate) fn reach(&self) -> usize
        ensures { All (λ r. r.signal < result) self.now }
    {
        self.table.len()
    }

    /// Adds a root. Unchanged after `NoMemory`.
    pub(crate) fn push(&mut self, root: Root) -> Result<(), NoMemory>
        ensures ok { OnOk result (self.new ≡ self.old ++ root ∷ []) }
        ensures err { OnErr result (self.new ≡ self.old) }
    {
        let signal = root.signal() as usize;
        fit(&mut self.table, signal + 1)?;
        self.list.push(root)?;
        let entry = with_root(entry_of(&self.table, signal), root.input());
        self.table[signal] = Some(entry);
        Ok(())
    }

    /// The input that a signal is, or is connected to.
    pub(crate) fn input_of(&self, signal: u32) -> Option<u32>
        ensures { result ≡ root_of self.now signal }
    {
        match entry_of(&self.table, signal as usize) {
            Some(entry) => Some(entry.input),
            None => None,
        }
    }

    /// Whether some root has a signal and an input, by all of them.
    fn search(&self, signal: usize, input: u32) -> bool
        ensures { result ≡ list_any (has_root signal input) self.now }
    {
        for root in self.list.iter() {
            if root.signal() as usize == signal && input == root.input() {
                return true;
            }
        }
        false
    }

    /// Whether some root has a signal and an input.
    pub(crate) fn has(&self, signal: usize, input: u32) -> bool
        ensures { result ≡ list_any (has_root signal input) self.now }
    {
        match entry_of(&self.table, signal) {
            None => false,
            Some(entry) => {
                if entry.again {
                    self.search(signal, input)
                } else {
                    input == entry.input
                }
            }
        }
    }
}
