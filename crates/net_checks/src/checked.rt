//! A net from its parts, where they make one.

ghost use Rattle.std.specs.Prelude.{◌≡◌, IfOk, IfSome, IsTrue, Some, false, map, slice_get};
ghost use Rattle.loc_base.specs.Bits.{width_of};
ghost use Rattle.word_net.specs.Fits.{widths_of};
ghost use Rattle.word_net.specs.Nets.{IsNet};
ghost use Rattle.net_checks.specs.Reads.{AreHeld, AreNumbers, FreeOnce, FreesNot, IsHeld, IsNext, place_of, state_of};

use crate::fits::all_fit;
use crate::widths::{has_few_sources, widths_of};
use loc_base::{Bits, NoMemory};
use std::alloc::Global;
use word_net::{Operation, WordNet, WordNode};

/// The nodes of a net, those of its outputs and of its next states, and the states before the first cycle.
pub struct Parts {
    pub nodes: Vec<WordNode>,
    pub outputs: Vec<u32>,
    pub next: Vec<u32>,
    pub start: Vec<Bits>,
}

impl Drop for Parts {
    fn drop(self) {
        let Parts {
            nodes: _,
            outputs: _,
            next: _,
            start: _,
        } = self;
    }
}

/// The state that a node reads.
fn state_of(node: &WordNode) -> Option<u32>
    ensures { result ≡ state_of node.now.operation }
{
    match &node.operation {
        Operation::State(state) => Some(*state),
        _ => None,
    }
}

/// The place that it frees.
fn place_of(node: &WordNode) -> Option<u32>
    ensures { result ≡ place_of node.now.operation }
{
    match &node.operation {
        Operation::Free { place, computed: _ } => Some(*place),
        _ => None,
    }
}

/// Whether all numbers are below a bound.
#[tactic(auto, using(crate::proofs::FitSteps::numbers))]
fn are_below(numbers: &[u32], bound: usize) -> bool
    ensures { IsTrue result → AreNumbers bound numbers.now }
{
    for number in numbers {
        if *number as usize >= bound {
            return false;
        }
    }
    true
}

/// Whether a state has a start of a width.
fn starts_with(start: &[Bits], state: u32, width: u8) -> bool
    ensures { IsTrue result → slice_get (map width_of start.now) state ≡ Some width }
{
    match start.get(state as usize) {
        Some(bits) => bits.width() == width,
        None => false,
    }
}

/// The next states and the widths of nodes.
#[derive(Clone, Copy)]
struct Next<'a> {
    nodes: &'a [u32],
    widths: &'a [u8],
}

/// Whether a state has a next state of a width.
fn goes_on_with(next: Next, state: u32, width: u8) -> bool
    ensures { IsTrue result → IsNext next.entry.nodes.now next.entry.widths.now state width }
{
    match next.nodes.get(state as usize) {
        Some(node) => match next.widths.get(*node as usize) {
            Some(wide) => *wide == width,
            None => false,
        },
        None => false,
    }
}

/// Whether the state that a node reads, if any, has a start and a next state of its width.
#[tactic(auto, using(crate::proofs::FitSteps::holds))]
fn is_held(start: &[Bits], next: Next, node: &WordNode) -> bool
    ensures { IsTrue result → IsHeld start.now next.entry.nodes.now next.entry.widths.now node.now }
{
    match state_of(node) {
        Some(state) => {
            starts_with(start, state, node.width) && goes_on_with(next, state, node.width)
        }
        None => true,
    }
}

/// Whether each state that a node reads has a start and a next state of its width.
#[tactic(auto, using(crate::proofs::FitSteps::members))]
fn are_held(start: &[Bits], next: Next, nodes: &[WordNode]) -> bool
    ensures { IsTrue result → AreHeld start.now next.entry.nodes.now next.entry.widths.now nodes.now }
{
    for i in 0..nodes.len() {
        if !is_held(start, next, &nodes[i]) {
            return false;
        }
    }
    true
}

/// Whether a node frees a place.
#[tactic(auto, using(crate::proofs::FitSteps::frees))]
fn frees(nodes: &[WordNode], place: u32) -> bool
    ensures { result ≡ false → FreesNot nodes.now place }
{
    for i in 0..nodes.len() {
        if place_of(&nodes[i]) == Some(place) {
            return true;
        }
    }
    false
}

/// Whether no two nodes free one place.
#[tactic(auto, using(crate::proofs::FitSteps::once))]
fn free_once(nodes: &[WordNode]) -> bool
    ensures { IsTrue result → FreeOnce nodes.now }
{
    for i in 0..nodes.len() {
        if let Some(place) = place_of(&nodes[i]) {
            if frees(&nodes[..i], place) {
                return false;
            }
        }
    }
    true
}

/// Whether nodes, outputs, next states and start values make a net; the widths given are those of the nodes.
#[tactic(auto, using(crate::proofs::FitSteps::whole))]
fn make_net(nodes: &[WordNode], outputs: &[u32], next: Next, start: &[Bits]) -> bool
    requires { next.widths.now ≡ widths_of nodes.now }
    ensures { IsTrue result → IsNet (record { nodes = nodes.now; outputs = outputs.now; next = next.entry.nodes.now; start = start.now }) }
{
    if !all_fit(next.widths, nodes) {
        return false;
    }
    if !are_below(outputs, nodes.len()) {
        return false;
    }
    if !are_below(next.nodes, nodes.len()) {
        return false;
    }
    if !are_held(start, next, nodes) {
        return false;
    }
    if !free_once(nodes) {
        return false;
    }
    has_few_sources(nodes)
}

impl Parts {
    /// The net of these parts, where they make one.
    pub fn into_net(self, alloc: Global) -> Result<Option<WordNet>, NoMemory>
        ensures { IfOk result (λ net. IfSome net (λ made. made ≡ record { nodes = self.nodes.items; outputs = self.outputs.items; next = self.next.items; start = self.start.items })) }
    {
        let widths = widths_of(alloc, &self.nodes)?;
        let next = Next {
            nodes: &self.next,
            widths: &widths,
        };
        if !make_net(&self.nodes, &self.outputs, next, &self.start) {
            return Ok(None);
        }
        let Parts {
            nodes,
            outputs,
            next,
            start,
        } = self;
        Ok(Some(WordNet::new(nodes, outputs, next, start)))
    }
}
