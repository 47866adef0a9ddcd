ghost use Rattle.std.specs.Prelude.{◌≡◌, ◌<◌, length, set, IfOk, OnOk, OnErr};
ghost use Rattle.node_map.specs.Entries.{AreWithin, put};

use crate::entry::{Entry, nth};
use loc_base::{Items, NoMemory};
use std::alloc::Global;
use std::marker::Model;
use std::mem;

/// The node of each signal. Contracts see it as a `Tracked`: what it is now, and what it was when the present branch began.
pub struct NodeMap {
    nodes: Items<u32>,
    /// What stood at each signal that was stored, in the order of the stores.
    replaced: Items<Entry>,
}

// A `drop` is written out, so that it is proved once, here: a derived one is proved again by each crate that lets a value go.
impl Drop for NodeMap {
    fn drop(self) {
        let NodeMap {
            nodes: _,
            replaced: _,
        } = self;
    }
}

impl Model for NodeMap {
    ghost use Rattle.node_map.specs.Entries.{Tracked};
    ghost use Rattle.node_map.specs.Fields.{tracked_of, CanGoBack};

    ghost Value = { Tracked };

    ghost view = { tracked_of };

    ghost invariant = { CanGoBack };
}

impl NodeMap {
    /// The map with these nodes.
    #[tactic(auto, using(crate::proofs::MapSteps::map_steps))]
    pub fn new(alloc: Global, nodes: &[u32]) -> Result<NodeMap, NoMemory>
        ensures { IfOk result (λ map. map ≡ record { now = nodes.now; base = nodes.now }) }
    {
        Ok(NodeMap {
            nodes: Items::copy_of(alloc, nodes)?,
            replaced: Items::new(alloc),
        })
    }

    /// The nodes as they are now.
    #[tactic(auto, using(crate::proofs::MapSteps::long_steps))]
    pub fn as_slice(&self) -> &[u32]
        ensures nodes { result.now ≡ self.now.now }
        ensures long { length self.now.base ≡ length self.now.now }
    {
        self.nodes.as_slice()
    }

    /// The nodes as they are now.
    pub fn into_nodes(self) -> Items<u32>
        ensures { result ≡ self.now }
    {
        let NodeMap { nodes, replaced: _ } = self;
        nodes
    }

    /// A signal gets another node. Unchanged after `NoMemory`.
    #[tactic(auto, using(crate::proofs::MapSteps::set_steps))]
    pub fn set(&mut self, signal: u32, node: u32) -> Result<(), NoMemory>
        requires { signal < length self.old.now }
        ensures ok { OnOk result (self.new.now ≡ set self.old.now signal node) }
        ensures err { OnErr result (self.new.now ≡ self.old.now) }
        ensures base { self.new.base ≡ self.old.base }
    {
        let place = signal as usize;
        let before = Entry {
            signal,
            node: self.nodes.as_slice()[place],
        };
        self.replaced.push(before)?;
        self.nodes.set(place, node);
        Ok(())
    }

    /// Goes back to what it was when the branch began.
    #[tactic(auto, using(crate::proofs::MapSteps::undo_steps))]
    pub fn undo(&mut self)
        ensures new { self.new ≡ record { now = self.old.base; base = self.old.base } }
        ensures long { length self.old.base ≡ length self.old.now }
    {
        while let Some(entry) = self.replaced.pop() {
            self.nodes.set(entry.signal as usize, entry.node);
        }
    }

    /// Begins a branch, and gives what `end` needs to go on with the one before.
    #[tactic(auto, using(crate::proofs::MapSteps::map_steps))]
    pub fn begin(&mut self, alloc: Global) -> Items<Entry>
        ensures new { self.new ≡ record { now = self.old.now; base = self.old.now } }
        ensures outer { put result self.old.now ≡ self.old.base }
        ensures within { AreWithin (length self.old.now) result }
    {
        mem::replace(&mut self.replaced, Items::new(alloc))
    }

    /// Ends a branch: the one before goes on.
    #[tactic(auto, using(crate::proofs::MapSteps::end_steps))]
    pub fn end(&mut self, outer: Items<Entry>) -> Result<(), NoMemory>
        requires { AreWithin (length self.old.now) outer }
        ensures ok { OnOk result (self.new ≡ record { now = self.old.now; base = put outer self.old.base }) }
        ensures err { OnErr result (self.new ≡ self.old) }
    {
        let mut replaced = outer;
        replaced.append(self.replaced.as_slice())?;
        self.replaced = replaced;
        Ok(())
    }

    /// Puts entries, from the last one.
    #[tactic(auto, using(crate::proofs::MapSteps::put_steps))]
    pub fn put(&mut self, entries: &[Entry]) -> Result<(), NoMemory>
        requires { AreWithin (length self.old.now) entries.now }
        ensures ok { OnOk result (self.new.now ≡ put entries.now self.old.now) }
        ensures base { self.new.base ≡ self.old.base }
        ensures long { length self.new.now ≡ length self.old.now }
    {
        let mut left = entries.len();
        while left > 0 {
            left -= 1;
            let entry = nth(entries, left);
            self.set(entry.signal, entry.node)?;
        }
        Ok(())
    }

    /// What stood at each signal that was stored since the branch began.
    pub(crate) fn replaced(&self) -> &[Entry]
        ensures base { put result.now self.now.now ≡ self.now.base }
        ensures within { AreWithin (length self.now.now) result.now }
    {
        self.replaced.as_slice()
    }
}
