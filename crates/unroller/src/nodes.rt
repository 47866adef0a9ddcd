//! The nodes of the circuit in a cycle.

ghost use Rattle.std.specs.Prelude.{◌≡◌, ◌<◌, ◌++◌, [], IfErr, IfOk, OnOk};
ghost use Rattle.gate_base.specs.Arena.{UnlessNoMemory};
ghost use Rattle.gate_base.specs.Nodes.{counted, made, word};
ghost use Rattle.unroller.specs.Cycles.{frees_at, node_unrolled, nodes_unrolled};
ghost use Rattle.unroller.specs.Fields.{frame_of, free_literal, free_unrolled};

use crate::frame::{Frame, held, sampled, translated};
use crate::free_bit::FreeBit;
use gate_base::{Literal, MakeErr, Maker, Node};
use loc_base::{Items, NoMemory};
use std::alloc::Global;

/// The literals of a cycle: those of all nodes, and those of the bits of places among them.
pub(crate) struct Literals {
    pub now: Items<Literal>,
    pub frees: Items<Literal>,
}

impl Drop for Literals {
    fn drop(self) {
        let Literals { now: _, frees: _ } = self;
    }
}

/// The literal of a bit of a place: a new one where its place is in a group, else what is computed.
#[inline(never)]
#[tactic(auto, using(crate::proofs::Entries::reads))]
fn place_bit(
    maker: &mut Maker,
    frame: &Frame,
    free: FreeBit,
    computed: Literal,
) -> Result<Literal, MakeErr>
    ensures ok { IfOk result (λ l. made maker.new.nodes l ≡ free_unrolled (frame_of frame.now) maker.old.nodes free computed) }
    ensures err { IfErr result (λ e. UnlessNoMemory e (maker.old.limit < counted (free_unrolled (frame_of frame.now) maker.old.nodes free computed).nodes)) }
    ensures limit { maker.new.limit ≡ maker.old.limit }
{
    let grouped = match frame.grouped.get(free.place as usize) {
        Some(is) => *is,
        None => false,
    };
    if grouped {
        maker.free(frame.moment, free.place, free.bit, computed)
    } else {
        Ok(computed)
    }
}

/// The literal of a node in a cycle, those of the nodes before it being given.
#[inline(always)]
#[tactic(auto, unfolding(crate::specs::Cycles::node_unrolled))]
fn node(maker: &mut Maker, frame: &Frame, now: &[Literal], node: Node) -> Result<Literal, MakeErr>
    ensures ok { IfOk result (λ l. made maker.new.nodes l ≡ node_unrolled (frame_of frame.now) maker.old.nodes now.now node) }
    ensures err { IfErr result (λ e. UnlessNoMemory e (maker.old.limit < counted (node_unrolled (frame_of frame.now) maker.old.nodes now.now node).nodes)) }
    ensures limit { maker.new.limit ≡ maker.old.limit }
{
    match node {
        Node::And { left, right } => maker.and(translated(now, left), translated(now, right)),
        Node::Free {
            moment: _,
            place,
            bit,
            computed,
        } => place_bit(
            maker,
            frame,
            FreeBit { place, bit },
            translated(now, computed),
        ),
        Node::State { state, bit } => Ok(held(&frame.states, state, bit)),
        Node::Input { input, bit } => Ok(Literal::Known(sampled(
            frame.samples.as_slice(),
            input,
            bit,
        ))),
    }
}

/// Appends the literal of a node that is a bit of a place.
#[inline(always)]
#[tactic(auto, using(crate::proofs::NodeSteps::noted))]
fn note(frees: &mut Items<Literal>, node: Node, literal: Literal) -> Result<(), NoMemory>
    ensures { OnOk result (frees.new ≡ frees.old ++ free_literal node literal) }
{
    match node {
        Node::Free { .. } => frees.push(literal),
        Node::And { .. } | Node::Input { .. } | Node::State { .. } => Ok(()),
    }
}

/// The literals of all nodes in a cycle.
#[tactic(auto, using(crate::proofs::NodeSteps::nodes))]
pub(crate) fn nodes(
    alloc: Global,
    maker: &mut Maker,
    frame: &Frame,
    nodes: &[Node],
) -> Result<Literals, MakeErr>
    ensures ok { IfOk result (λ l. word maker.new.nodes l.now ≡ nodes_unrolled (frame_of frame.now) maker.old.nodes [] nodes.now) }
    ensures frees { IfOk result (λ l. l.frees ≡ frees_at nodes.now l.now) }
    ensures err { IfErr result (λ e. UnlessNoMemory e (maker.old.limit < counted (nodes_unrolled (frame_of frame.now) maker.old.nodes [] nodes.now).nodes)) }
    ensures limit { maker.new.limit ≡ maker.old.limit }
{
    let mut now = Items::new(alloc);
    let mut frees = Items::new(alloc);
    for i in 0..nodes.len() {
        let literal = node(maker, frame, now.as_slice(), nodes[i])?;
        note(&mut frees, nodes[i], literal)?;
        now.push(literal)?;
    }
    Ok(Literals { now, frees })
}
