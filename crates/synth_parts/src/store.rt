//! Stores into a left side (IEEE 1364-2005, 6.1.1 and 9.2.1).
ghost use Rattle.std.specs.Prelude.{◌≡◌, ◌≤◌, ◌+◌, ◌^◌, ◌<◌, [], length, set, IfOk, IsTrue, OnOk};
ghost use Rattle.std.specs.List.{list_all};
ghost use Rattle.design_core.specs.WellFormed.{part_fits};
ghost use Rattle.design_core.specs.Valuation.{width_at};
ghost use Rattle.design_core.specs.Store.{part_width, parts_width};
ghost use Rattle.word_net.specs.Build.{made};
ghost use Rattle.synth_parts.specs.Expression.{signal_read};
ghost use Rattle.synth_parts.specs.Store.{index_made, indexes_made, nodes_made, part_stored, parts_stored, signal_set, word_stored, words_stored};

use crate::array_parts::{ArrayPart, is_word};
use crate::scene::{Nodes, Scene, push, unsigned};
use crate::typed::{expression, operand};
use design_core::{Part, Signal};
use loc_base::{Items, NoMemory};
use node_map::NodeMap;
use std::alloc::Global;
use word_net::{Operand, Operation};

/// What is stored: bits of a word from a position on.
#[derive(Clone, Copy, Debug)]
pub struct Stored {
    pub word: Operand,
    pub offset: u8,
}

/// The node of a part's index, where it has a variable one, and what is stored into the part.
#[derive(Clone, Copy)]
pub(crate) struct Spot {
    pub index: u32,
    pub stored: Stored,
}

/// The parts of a left side, and the nodes of their indexes.
#[derive(Clone, Copy, Drop)]
pub(crate) struct Sides<'a> {
    pub parts: &'a [Part],
    pub indexes: &'a [u32],
}

/// Bits of a word of an array, and what is stored into them.
#[derive(Clone, Copy)]
struct ArrayStore {
    array: ArrayPart,
    stored: Stored,
}

/// Where is stored: the signals.
#[derive(Clone, Copy)]
pub struct Left<'a> {
    pub alloc: Global,
    pub signals: &'a [Signal],
}

/// The node of the index of a part, where it has a variable one.
#[tactic(auto, unfolding(crate::specs::Store::index_made))]
fn index(at: &Scene, nodes: &mut Nodes, part: &Part) -> Result<u32, NoMemory>
    requires few { length at.now.signals.now < 2 ^ 32 }
    requires each { length at.now.nodes_of.now ≡ length at.now.signals.now }
    requires fits { IsTrue (part_fits at.now.signals.now part.now) }
    ensures { IfOk result (λ n. made nodes.new n ≡ index_made at.now.signals.now at.now.nodes_of.now nodes.old part.now) }
{
    match part {
        Part::Whole(_) => Ok(0),
        Part::Slice {
            signal: _,
            from: _,
            width: _,
        } => Ok(0),
        Part::Pick {
            signal: _,
            index,
            offsets: _,
        } => expression(at, nodes, index),
        Part::Word {
            first: _,
            count: _,
            low: _,
            index,
            from: _,
            width: _,
        } => expression(at, nodes, index),
    }
}

/// The indexes of all parts of a left side.
#[tactic(auto, using(crate::proofs::StoreSteps::indexes_steps))]
pub(crate) fn indexes(at: &Scene, nodes: &mut Nodes, parts: &[Part]) -> Result<Items<u32>, NoMemory>
    requires few { length at.now.signals.now < 2 ^ 32 }
    requires each { length at.now.nodes_of.now ≡ length at.now.signals.now }
    requires fits { IsTrue (list_all (part_fits at.now.signals.now) parts.now) }
    ensures { IfOk result (λ each. nodes_made nodes.new each ≡ indexes_made at.now.signals.now at.now.nodes_of.now nodes.old [] parts.now) }
{
    let mut all = Items::new(at.alloc);
    for i in 0..parts.len() {
        let node = index(at, nodes, &parts[i])?;
        all.push(node)?;
    }
    Ok(all)
}

impl Left<'_> {
    /// The width of a signal.
    #[tactic(auto, using(crate::proofs::Scenes::signals_at))]
    fn width(&self, signal: u32) -> u8
        requires { signal < length self.now.signals.now }
        ensures { result ≡ width_at self.now.signals.now signal }
    {
        self.signals[signal as usize].width
    }

    /// The node of a signal as it is read.
    fn read(&self, map: &[u32], signal: u32) -> Operand
        requires signal { signal < length self.now.signals.now }
        requires each { length map.now ≡ length self.now.signals.now }
        ensures { result ≡ signal_read self.now.signals.now map.now signal }
    {
        unsigned(map[signal as usize], self.width(signal))
    }

    /// A signal gets a new node.
    #[tactic(auto, unfolding(crate::specs::Store::signal_set))]
    fn set(
        &self,
        nodes: &mut Nodes,
        map: &mut NodeMap,
        signal: u32,
        operation: Operation,
    ) -> Result<(), NoMemory>
        requires signal { signal < length self.now.signals.now }
        requires each { length map.old.now ≡ length self.now.signals.now }
        ensures ok { OnOk result (nodes_made nodes.new map.new.now ≡ signal_set self.now.signals.now nodes.old map.old.now signal operation) }
        ensures each { length map.new.now ≡ length self.now.signals.now }
        ensures base { map.new.base ≡ map.old.base }
    {
        let node = push(nodes, self.width(signal), operation)?;
        map.set(signal, node)
    }

    /// A word of an array, with bits replaced where the address is its.
    #[tactic(auto, unfolding(crate::specs::Store::word_stored))]
    fn word(
        &self,
        nodes: &mut Nodes,
        map: &mut NodeMap,
        store: ArrayStore,
        place: u32,
    ) -> Result<(), NoMemory>
        requires few { length self.now.signals.now < 2 ^ 32 }
        requires within { store.array.first + place < length self.now.signals.now }
        requires each { length map.old.now ≡ length self.now.signals.now }
        ensures ok { OnOk result (nodes_made nodes.new map.new.now ≡ word_stored self.now.signals.now store.array store.stored nodes.old map.old.now place) }
        ensures each { length map.new.now ≡ length self.now.signals.now }
        ensures base { map.new.base ≡ map.old.base }
    {
        let ArrayStore { array, stored } = store;
        let signal = array.first + place;
        let old = self.read(map.as_slice(), signal);
        let is = is_word(nodes, array, place)?;
        let put = Operation::Put {
            old,
            from: array.from,
            size: array.width,
            word: stored.word,
            offset: stored.offset,
        };
        let width = self.width(signal);
        let put = push(nodes, width, put)?;
        let choose = Operation::Choose {
            cond: unsigned(is, 1),
            yes: unsigned(put, width),
            no: old,
        };
        self.set(nodes, map, signal, choose)
    }

    /// The words of an array, with bits replaced where the address is theirs.
    #[tactic(auto, using(crate::proofs::StoreSteps::words_steps))]
    fn words(
        &self,
        nodes: &mut Nodes,
        map: &mut NodeMap,
        store: ArrayStore,
        count: u32,
    ) -> Result<(), NoMemory>
        requires few { length self.now.signals.now < 2 ^ 32 }
        requires within { store.array.first + count ≤ length self.now.signals.now }
        requires each { length map.old.now ≡ length self.now.signals.now }
        ensures ok { OnOk result (nodes_made nodes.new map.new.now ≡ words_stored self.now.signals.now store.array store.stored nodes.old map.old.now 0 count) }
        ensures each { length map.new.now ≡ length self.now.signals.now }
        ensures base { map.new.base ≡ map.old.base }
    {
        for place in 0..count {
            self.word(nodes, map, store, place)?;
        }
        Ok(())
    }

    /// One part of a left side.
    #[tactic(auto, using(crate::proofs::StoreSteps::part_steps), unfolding(crate::specs::Store::part_stored))]
    fn part(
        &self,
        nodes: &mut Nodes,
        map: &mut NodeMap,
        part: &Part,
        spot: Spot,
    ) -> Result<(), NoMemory>
        requires few { length self.now.signals.now < 2 ^ 32 }
        requires each { length map.old.now ≡ length self.now.signals.now }
        requires fits { IsTrue (part_fits self.now.signals.now part.now) }
        ensures ok { OnOk result (nodes_made nodes.new map.new.now ≡ part_stored self.now.signals.now nodes.old map.old.now part.now spot.index spot.stored) }
        ensures each { length map.new.now ≡ length self.now.signals.now }
        ensures base { map.new.base ≡ map.old.base }
    {
        let stored = spot.stored;
        match part {
            Part::Whole(signal) => {
                let slice = Operation::Slice {
                    word: stored.word,
                    from: stored.offset,
                };
                self.set(nodes, map, *signal, slice)
            }
            Part::Slice {
                signal,
                from,
                width,
            } => {
                let put = Operation::Put {
                    old: self.read(map.as_slice(), *signal),
                    from: *from,
                    size: *width,
                    word: stored.word,
                    offset: stored.offset,
                };
                self.set(nodes, map, *signal, put)
            }
            Part::Pick {
                signal,
                index,
                offsets,
            } => {
                let scene = Scene {
                    alloc: self.alloc,
                    signals: self.signals,
                    nodes_of: map.as_slice(),
                };
                let old = scene.read(*signal);
                let at = operand(spot.index, index);
                let select = scene.select(*signal, at, offsets)?;
                let put = Operation::PutPick {
                    old,
                    select,
                    word: stored.word,
                    offset: stored.offset,
                };
                self.set(nodes, map, *signal, put)
            }
            Part::Word {
                first,
                count,
                low,
                index,
                from,
                width,
            } => {
                let array = ArrayPart {
                    first: *first,
                    low: *low,
                    index: operand(spot.index, index),
                    from: *from,
                    width: *width,
                };
                self.words(nodes, map, ArrayStore { array, stored }, *count)
            }
        }
    }

    /// The number of bits of a part.
    #[tactic(auto, using(crate::proofs::StoreSteps::width_steps))]
    fn part_width(&self, part: &Part) -> u8
        requires { IsTrue (part_fits self.now.signals.now part.now) }
        ensures { result ≡ part_width self.now.signals.now part.now }
    {
        match part {
            Part::Whole(signal) => self.width(*signal),
            Part::Slice {
                signal: _,
                from: _,
                width,
            } => *width,
            Part::Pick {
                signal: _,
                index: _,
                offsets,
            } => offsets.len() as u8,
            Part::Word {
                first: _,
                count: _,
                low: _,
                index: _,
                from: _,
                width,
            } => *width,
        }
    }

    /// The number of bits of a left side.
    #[tactic(auto, using(crate::proofs::StoreSteps::sum_steps))]
    pub(crate) fn parts_width(&self, parts: &[Part]) -> u8
        requires fits { IsTrue (list_all (part_fits self.now.signals.now) parts.now) }
        requires most { parts_width self.now.signals.now parts.now ≤ 128 }
        ensures { result ≡ parts_width self.now.signals.now parts.now }
    {
        let mut sum = 0;
        for i in 0..parts.len() {
            sum += self.part_width(&parts[i]);
        }
        sum
    }

    /// All parts of a left side, from the left; the leftmost takes the highest bits.
    #[tactic(auto, using(crate::proofs::StoreSteps::parts_steps))]
    pub(crate) fn parts(
        &self,
        nodes: &mut Nodes,
        map: &mut NodeMap,
        sides: &Sides,
        word: Operand,
    ) -> Result<(), NoMemory>
        requires few { length self.now.signals.now < 2 ^ 32 }
        requires each { length map.old.now ≡ length self.now.signals.now }
        requires fits { IsTrue (list_all (part_fits self.now.signals.now) sides.now.parts.now) }
        requires most { parts_width self.now.signals.now sides.now.parts.now ≤ 128 }
        requires indexes { length sides.now.indexes.now ≡ length sides.now.parts.now }
        ensures ok { OnOk result (nodes_made nodes.new map.new.now ≡ parts_stored self.now.signals.now nodes.old map.old.now sides.now.parts.now sides.now.indexes.now word) }
        ensures each { length map.new.now ≡ length self.now.signals.now }
        ensures base { map.new.base ≡ map.old.base }
    {
        let mut offset = self.parts_width(sides.parts);
        for i in 0..sides.parts.len() {
            offset -= self.part_width(&sides.parts[i]);
            let spot = Spot {
                index: sides.indexes[i],
                stored: Stored { word, offset },
            };
            self.part(nodes, map, &sides.parts[i], spot)?;
        }
        Ok(())
    }
}
