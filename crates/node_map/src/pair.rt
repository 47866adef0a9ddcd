ghost use Rattle.std.specs.Prelude.{◌≡◌, ◌<◌, ◌++◌, ℕ, length, All, Contains, IfOk, OnOk, OnErr};
ghost use Rattle.std.specs.List.Sorted.{IsStrictlyIncreasing};
ghost use Rattle.node_map.specs.Entries.{AreWithin, Covers, put, signals_of};
ghost use Rattle.node_map.specs.Pairs.{AreEntries, IsBeside};

use crate::distinct::ascending;
use crate::entry::{Entry, entries_at};
use crate::map::NodeMap;
use loc_base::{Items, NoMemory};
use std::alloc::Global;

/// Entries of the map that is read, and of that of later updates.
pub struct Kept {
    pub current: Items<Entry>,
    pub later: Items<Entry>,
}

impl Drop for Kept {
    fn drop(self) {
        let Kept {
            current: _,
            later: _,
        } = self;
    }
}

/// The node of each signal as it is read, and as it is updated later.
pub struct Pair {
    pub current: NodeMap,
    pub later: NodeMap,
}

impl Drop for Pair {
    fn drop(self) {
        let Pair {
            current: _,
            later: _,
        } = self;
    }
}

/// Adds the signals of entries.
#[tactic(auto, using(crate::proofs::PairSteps::add_steps))]
fn add_signals(entries: &[Entry], signals: &mut Vec<u32>) -> Result<(), NoMemory>
    ensures { OnOk result (signals.new.items ≡ signals.old.items ++ signals_of entries.now) }
{
    for i in 0..entries.len() {
        signals.push(entries[i].signal)?;
    }
    Ok(())
}

impl Pair {
    /// Both maps with the same nodes.
    pub fn new(alloc: Global, nodes: &[u32]) -> Result<Pair, NoMemory>
        ensures { IfOk result (λ maps. maps ≡ record {
          current = record { now = nodes.now; base = nodes.now };
          later = record { now = nodes.now; base = nodes.now };
        }) }
    {
        Ok(Pair {
            current: NodeMap::new(alloc, nodes)?,
            later: NodeMap::new(alloc, nodes)?,
        })
    }

    /// The nodes of both as they are now.
    pub fn into_both(self) -> (Items<u32>, Items<u32>)
        ensures { result ≡ (self.current.now, self.later.now) }
    {
        let Pair { current, later } = self;
        (current.into_nodes(), later.into_nodes())
    }

    /// Both go back to what they were when the branch began.
    pub fn undo(&mut self)
        ensures new { self.new ≡ record {
          current = record { now = self.old.current.base; base = self.old.current.base };
          later = record { now = self.old.later.base; base = self.old.later.base };
        } }
        ensures long { length self.old.current.base ≡ length self.old.current.now }
        ensures long_later { length self.old.later.base ≡ length self.old.later.now }
    {
        self.current.undo();
        self.later.undo();
    }

    /// Begins a branch, and gives what `end` needs to go on with the one before.
    pub fn begin(&mut self, alloc: Global) -> Kept
        ensures new { self.new ≡ record {
          current = record { now = self.old.current.now; base = self.old.current.now };
          later = record { now = self.old.later.now; base = self.old.later.now };
        } }
        ensures current { put result.current self.old.current.now ≡ self.old.current.base }
        ensures later { put result.later self.old.later.now ≡ self.old.later.base }
        ensures within_current { AreWithin (length self.old.current.now) result.current }
        ensures within_later { AreWithin (length self.old.later.now) result.later }
    {
        Kept {
            current: self.current.begin(alloc),
            later: self.later.begin(alloc),
        }
    }

    /// Ends a branch: the one before goes on.
    pub fn end(&mut self, outer: Kept) -> Result<(), NoMemory>
        requires current { AreWithin (length self.old.current.now) outer.current }
        requires later { AreWithin (length self.old.later.now) outer.later }
        ensures ok { OnOk result (self.new ≡ record {
          current = record { now = self.old.current.now; base = put outer.current self.old.current.base };
          later = record { now = self.old.later.now; base = put outer.later self.old.later.base };
        }) }
        ensures long { length self.new.current.now ≡ length self.old.current.now }
        ensures long_later { length self.new.later.now ≡ length self.old.later.now }
    {
        let (current, later) = outer.into_both();
        self.current.end(current)?;
        self.later.end(later)
    }

    /// Puts entries into both.
    fn put(&mut self, kept: &Kept) -> Result<(), NoMemory>
        requires current { AreWithin (length self.old.current.now) kept.now.current }
        requires later { AreWithin (length self.old.later.now) kept.now.later }
        ensures current { OnOk result (self.new.current ≡ record { now = put kept.now.current self.old.current.now; base = self.old.current.base }) }
        ensures later { OnOk result (self.new.later ≡ record { now = put kept.now.later self.old.later.now; base = self.old.later.base }) }
        ensures long { length self.new.current.now ≡ length self.old.current.now }
        ensures long_later { length self.new.later.now ≡ length self.old.later.now }
    {
        self.current.put(kept.current.as_slice())?;
        self.later.put(kept.later.as_slice())
    }

    /// What stands at some signals.
    fn entries(&self, alloc: Global, signals: &[u32]) -> Result<Kept, NoMemory>
        requires current { All (λ s. s < length self.now.current.now) signals.now }
        requires later { All (λ s. s < length self.now.later.now) signals.now }
        ensures { IfOk result (AreEntries self.now.current.now self.now.later.now signals.now) }
    {
        Ok(Kept {
            current: entries_at(alloc, self.current.as_slice(), signals)?,
            later: entries_at(alloc, self.later.as_slice(), signals)?,
        })
    }

    /// Signals in ascending order, among which are those that were stored since the branch began, and some more.
    fn changed(&self, more: Vec<u32>) -> Result<Items<u32>, NoMemory>
        requires alike { length self.now.later.now ≡ length self.now.current.now }
        requires within { All (λ s. s < length self.now.current.now) more.items }
        ensures rises { IfOk result IsStrictlyIncreasing }
        ensures current { IfOk result (λ signals. Covers signals self.now.current) }
        ensures later { IfOk result (λ signals. Covers signals self.now.later) }
        ensures keeps { IfOk result (λ signals. (s : ℕ) → Contains more.items s → Contains signals s) }
    {
        let mut signals = more;
        add_signals(self.current.replaced(), &mut signals)?;
        add_signals(self.later.replaced(), &mut signals)?;
        ascending(&mut signals);
        Ok(Items::from_vec(signals))
    }

    /// The branch ends where it is: the maps that are read and updated later are the same again, and what they were is
    /// forgotten.
    #[tactic(auto, using(crate::proofs::PairSteps::settle_steps))]
    pub fn settle(&mut self, alloc: Global) -> Result<(), NoMemory>
        requires alike { length self.old.later.now ≡ length self.old.current.now }
        requires began { self.old.later.base ≡ self.old.current.base }
        ensures { OnOk result (self.new ≡ record {
          current = record { now = self.old.current.now; base = self.old.current.now };
          later = record { now = self.old.current.now; base = self.old.current.now };
        }) }
    {
        let signals = self.changed(Vec::new(alloc))?;
        let entries = entries_at(alloc, self.current.as_slice(), signals.as_slice())?;
        self.later.put(entries.as_slice())?;
        self.begin(alloc);
        Ok(())
    }

    /// What the branch left; both go back to its beginning.
    #[tactic(auto, using(crate::proofs::PairSteps::take_steps))]
    pub fn take(&mut self, alloc: Global) -> Result<Kept, NoMemory>
        requires alike { length self.old.later.now ≡ length self.old.current.now }
        ensures current { IfOk result (λ kept. put kept.current self.old.current.base ≡ self.old.current.now) }
        ensures later { IfOk result (λ kept. put kept.later self.old.later.base ≡ self.old.later.now) }
        ensures within_current { IfOk result (λ kept. AreWithin (length self.old.current.now) kept.current) }
        ensures within_later { IfOk result (λ kept. AreWithin (length self.old.later.now) kept.later) }
        ensures new { OnOk result (self.new ≡ record {
          current = record { now = self.old.current.base; base = self.old.current.base };
          later = record { now = self.old.later.base; base = self.old.later.base };
        }) }
        ensures long { length self.new.current.now ≡ length self.old.current.now }
        ensures long_later { length self.new.later.now ≡ length self.old.later.now }
    {
        let signals = self.changed(Vec::new(alloc))?;
        let kept = self.entries(alloc, signals.as_slice())?;
        self.undo();
        Ok(kept)
    }

    /// What another arm of the same branch left, at signals among which are all in which it differs from this one. Both maps
    /// stay as they are.
    #[tactic(auto, using(crate::proofs::PairSteps::beside_steps))]
    pub fn beside(&mut self, alloc: Global, arm: &Kept) -> Result<Kept, NoMemory>
        requires alike { length self.old.later.now ≡ length self.old.current.now }
        requires current { AreWithin (length self.old.current.now) arm.now.current }
        requires later { AreWithin (length self.old.later.now) arm.now.later }
        ensures kept { IfOk result (IsBeside self.old.current self.old.later arm.now) }
        ensures same { OnOk result (self.new ≡ self.old) }
        ensures long { length self.new.current.now ≡ length self.old.current.now }
        ensures long_later { length self.new.later.now ≡ length self.old.later.now }
    {
        let mut more = Vec::new(alloc);
        add_signals(arm.current.as_slice(), &mut more)?;
        add_signals(arm.later.as_slice(), &mut more)?;
        let signals = self.changed(more)?;
        let own = self.entries(alloc, signals.as_slice())?;
        self.undo();
        self.put(arm)?;
        let kept = self.entries(alloc, signals.as_slice())?;
        self.put(&own)?;
        Ok(kept)
    }
}

impl Kept {
    /// The two lists.
    fn into_both(self) -> (Items<Entry>, Items<Entry>)
        ensures { result ≡ (self.current, self.later) }
    {
        let Kept { current, later } = self;
        (current, later)
    }
}
