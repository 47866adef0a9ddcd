//! The widths of nodes, and how many bits of inputs and states they are.

ghost use Rattle.std.specs.Prelude.{◌≡◌, ◌+◌, ◌≤◌, ◌^◌, IfOk, IsTrue, if◌then◌else◌};
ghost use Rattle.word_net.specs.Fits.{widths_of};
ghost use Rattle.word_net.specs.Nets.{is_source, source_bits};

use loc_base::NoMemory;
use std::alloc::Global;
use word_net::{Operation, WordNode};

/// The width of each node.
#[tactic(auto, using(crate::proofs::FitSteps::widths))]
pub(crate) fn widths_of(alloc: Global, nodes: &[WordNode]) -> Result<Vec<u8>, NoMemory>
    ensures { IfOk result (λ widths. widths.items ≡ widths_of nodes.now) }
{
    let mut widths = Vec::new(alloc);
    for node in nodes {
        widths.push(node.width)?;
    }
    Ok(widths)
}

/// The width of a node that is an input or a state, else 0.
fn source_width(node: &WordNode) -> u8
    ensures { result ≡ (if is_source node.now.operation then node.now.width else 0) }
{
    match &node.operation {
        Operation::Input(_) | Operation::State(_) => node.width,
        Operation::Const(_) | Operation::Resize(_) => 0,
        Operation::Free {
            place: _,
            computed: _,
        } => 0,
        Operation::Unary { op: _, arg: _ } => 0,
        Operation::Binary {
            op: _,
            left: _,
            right: _,
        } => 0,
        Operation::Choose {
            cond: _,
            yes: _,
            no: _,
        } => 0,
        Operation::Join { high: _, low: _ } => 0,
        Operation::Repeat { times: _, part: _ } => 0,
        Operation::Slice { word: _, from: _ } => 0,
        Operation::Pick { word: _, select: _ } => 0,
        Operation::Is {
            index: _,
            number: _,
        } => 0,
        Operation::Put {
            old: _,
            from: _,
            size: _,
            word: _,
            offset: _,
        } => 0,
        Operation::PutPick {
            old: _,
            select: _,
            word: _,
            offset: _,
        } => 0,
        Operation::Blend {
            mask: _,
            one: _,
            other: _,
        } => 0,
    }
}

/// Whether inputs and states have few bits together.
#[tactic(auto, using(crate::proofs::FitSteps::sources))]
pub(crate) fn has_few_sources(nodes: &[WordNode]) -> bool
    ensures { IsTrue result → source_bits nodes.now ≤ 2 ^ 31 }
{
    let mut bits = 0u32;
    for node in nodes {
        bits += u32::from(source_width(node));
        if bits > 1 << 31 {
            return false;
        }
    }
    true
}
