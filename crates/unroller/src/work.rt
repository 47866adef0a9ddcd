//! The definitions, and what is kept of each cycle, so far.

ghost use Rattle.std.specs.Prelude.{◌≡◌, ◌+◌, ◌<◌, ◌≤◌, ◌++◌, ◌∷◌, [], IfErr, IfOk, OnOk, length, map};
ghost use Rattle.gate_base.specs.Arena.{UnlessNoMemory};
ghost use Rattle.gate_base.specs.Nodes.{counted, sources_in};
ghost use Rattle.unroller.specs.Cycles.{free_bit, free_bits, translated, words_translated};
ghost use Rattle.unroller.specs.Reads.{AreKept};
ghost use Rattle.unroller.specs.Unrolls.{with_cycle};
ghost use Rattle.unroller.specs.Fields.{cycle_of, frame_of, unrolling_of};

use crate::frame::{Frame, translated};
use crate::free_bit::FreeBit;
use crate::nodes::nodes;
use crate::unrolled::Unrolled;
use bit_circuit::Circuit;
use design_core::Checked;
use gate_base::{Literal, MakeErr, Maker, Node};
use loc_base::{Items, NoMemory, Rows};
use std::alloc::Global;

/// The definitions and what is kept of each cycle, and where more is allocated.
pub(crate) struct Work {
    pub alloc: Global,
    pub base: u32,
    pub each: usize,
    pub bits: Items<FreeBit>,
    pub maker: Maker,
    pub ends: Items<u32>,
    pub outputs: Rows<Literal>,
    pub expected: Items<Checked>,
    pub frees: Rows<Literal>,
    pub firsts: Items<u32>,
}

impl Drop for Work {
    fn drop(self) {
        let Work {
            alloc: _,
            base: _,
            each: _,
            bits: _,
            maker: _,
            ends: _,
            outputs: _,
            expected: _,
            frees: _,
            firsts: _,
        } = self;
    }
}

/// The literals of a word of the circuit.
#[tactic(auto, using(crate::proofs::WorkSteps::words))]
fn word_translated(
    now: &[Literal],
    word: &[Literal],
    made: &mut Vec<Literal>,
) -> Result<(), NoMemory>
    ensures { OnOk result (made.new.items ≡ map (translated now.now) word.now) }
{
    made.clear();
    for i in 0..word.len() {
        made.push(translated(now, word[i]))?;
    }
    Ok(())
}

/// Appends those of words.
#[tactic(auto, using(crate::proofs::WorkSteps::rows))]
fn words_translated(
    alloc: Global,
    now: &[Literal],
    words: &Rows<Literal>,
    made: &mut Rows<Literal>,
) -> Result<(), NoMemory>
    ensures { OnOk result (made.new ≡ made.old ++ words_translated now.now words.now) }
{
    let mut word = Vec::new(alloc);
    for i in 0..words.len() {
        word_translated(now, words.row(i), &mut word)?;
        made.push(&word)?;
    }
    Ok(())
}

/// The bit of a place that a node is.
fn free_bit(node: Node) -> Option<FreeBit>
    ensures { result ≡ free_bit node }
{
    match node {
        Node::Free {
            moment: _,
            place,
            bit,
            computed: _,
        } => Some(FreeBit { place, bit }),
        Node::Input { input: _, bit: _ } | Node::State { state: _, bit: _ } => None,
        Node::And { left: _, right: _ } => None,
    }
}

/// The bits of places among some nodes.
#[tactic(auto, using(crate::proofs::WorkSteps::bits))]
pub(crate) fn free_bits(alloc: Global, nodes: &[Node]) -> Result<Items<FreeBit>, NoMemory>
    ensures { IfOk result (λ bits. bits ≡ free_bits nodes.now) }
{
    let mut bits = Items::new(alloc);
    for i in 0..nodes.len() {
        if let Some(bit) = free_bit(nodes[i]) {
            bits.push(bit)?;
        }
    }
    Ok(bits)
}

impl Work {
    /// Appends a cycle, and gives the literals of the next states.
    #[tactic(auto, using(crate::proofs::WorkSteps::cycles))]
    pub(crate) fn cycle(
        &mut self,
        circuit: &Circuit,
        frame: &Frame,
        expected: &[Checked],
    ) -> Result<Rows<Literal>, MakeErr>
        ensures ok { OnOk result (unrolling_of self.new ≡ with_cycle circuit.now (unrolling_of self.old) expected.now (cycle_of frame.now self.old.maker.nodes circuit.now).nodes (cycle_of frame.now self.old.maker.nodes circuit.now).bits) }
        ensures states { IfOk result (λ next. next ≡ words_translated (cycle_of frame.now self.old.maker.nodes circuit.now).bits circuit.now.next) }
        ensures err { IfErr result (λ e. UnlessNoMemory e (self.old.maker.limit < counted (cycle_of frame.now self.old.maker.nodes circuit.now).nodes)) }
        ensures limit { self.new.maker.limit ≡ self.old.maker.limit }
    {
        let literals = nodes(self.alloc, &mut self.maker, frame, circuit.nodes())?;
        let now = literals.now.as_slice();
        self.ends.push(self.maker.len())?;
        words_translated(self.alloc, now, circuit.outputs(), &mut self.outputs)?;
        self.expected.append(expected)?;
        self.frees.push(literals.frees.as_slice())?;
        let mut next = Rows::new(self.alloc);
        words_translated(self.alloc, now, circuit.next(), &mut next)?;
        Ok(next)
    }

    /// The form that was made, in the memory in which it was made.
    #[tactic(auto, using(gate_base::proofs::Counts::counts))]
    pub(crate) fn into_unrolled(self, hints: Items<usize>) -> Unrolled
        requires kept { AreKept (unrolling_of self) }
        requires some { 1 ≤ self.base }
        requires room { self.base + self.maker.limit ≤ 4000001 }
        requires definitions { sources_in self.maker.nodes ≡ 0 }
        ensures { result ≡ unrolling_of self }
    {
        let Work {
            alloc: _,
            base,
            each,
            bits,
            maker,
            ends,
            outputs,
            expected,
            frees,
            firsts,
        } = self;
        Unrolled {
            base,
            each,
            bits,
            hints,
            definitions: maker.into_nodes(),
            ends,
            outputs,
            expected,
            frees,
            firsts,
        }
    }
}
