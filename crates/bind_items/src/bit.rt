//! Bit 0 of an expression: of a name with its selects that bit alone is read.
ghost use Rattle.std.specs.Prelude.{◌≡◌, option_map, IfOk};
ghost use Rattle.loc_base.specs.Bits.{value_of};
ghost use Rattle.v_syntax.specs.Tree.{tree_of};
ghost use Rattle.v_binding.specs.Gates.{is_named, first_offset, low_node, constant_in, constant_bit, cut, low_bit};
ghost use Rattle.bind_items.specs.Parts.{last_low};

use design_core::{Node, Typed};
use loc_base::{Bits, Items, NoMemory};
use std::alloc::Global;
use v_selects::leaf::word_node;
use v_selects::node::{sized, with_width};
use v_syntax::Expr;

/// Whether an expression is a name with its selects.
fn is_named(e: &Expr) -> bool
    ensures { result ≡ is_named (tree_of e.now) }
{
    match e {
        Expr::Name { .. } => true,
        _ => false,
    }
}

/// The offset of bit 0.
fn first_offset(alloc: Global, offsets: &[i32]) -> Result<Items<i32>, NoMemory>
    ensures { IfOk result (λ first. first ≡ first_offset offsets.now) }
{
    let mut first = Items::new(alloc);
    if !offsets.is_empty() {
        first.push(offsets[0])?;
    }
    Ok(first)
}

/// Bit 0 of what a name is.
#[cycle(bit)]
#[tactic(auto, using(crate::proofs::BitSteps::bit_steps))]
fn low_node(alloc: Global, node: Node) -> Result<Node, NoMemory>
    ensures { IfOk result (λ low. low ≡ low_node node) }
{
    match node {
        Node::Whole(signal) => Ok(Node::Slice {
            signal,
            from: 0,
            width: 1,
        }),
        Node::Slice {
            signal,
            from,
            width: _,
        } => Ok(Node::Slice {
            signal,
            from,
            width: 1,
        }),
        Node::Pick {
            signal,
            index,
            offsets,
        } => {
            let offsets = first_offset(alloc, offsets.as_slice())?;
            Ok(Node::Pick {
                signal,
                index,
                offsets,
            })
        }
        Node::Word {
            first,
            count,
            low,
            index,
            from,
            width: _,
        } => Ok(Node::Word {
            first,
            count,
            low,
            index,
            from,
            width: 1,
        }),
        Node::Join(parts) => low_last(alloc, parts),
        Node::Const(word) => Ok(word_node(1, word.value())),
        other => Ok(other),
    }
}

/// Bit 0 of the last part of a concatenation.
#[cycle(bit)]
#[tactic(auto, using(crate::proofs::BitSteps::last_steps))]
fn low_last(alloc: Global, parts: Items<Typed>) -> Result<Node, NoMemory>
    ensures { IfOk result (λ low. low ≡ last_low parts) }
{
    let mut parts = parts;
    match parts.pop() {
        Some(last) => low_node(alloc, last.node),
        None => Ok(word_node(1, 0)),
    }
}

/// The word of a constant.
pub(crate) fn constant_of(e: &Typed) -> Option<Bits>
    ensures { option_map value_of result ≡ constant_bit e.now }
{
    match &e.node {
        Node::Const(word) => Some(*word),
        _ => None,
    }
}

/// A constant of the lowest bit, else what is cut to it.
fn cut(alloc: Global, e: Typed) -> Result<Typed, NoMemory>
    ensures { IfOk result (λ bit. bit ≡ cut e) }
{
    match constant_of(&e) {
        Some(word) => Ok(sized(1, false, word_node(1, word.value()))),
        None => with_width(alloc, 1, e),
    }
}

/// Bit 0 of an expression, which `sized` is by itself.
pub fn low_bit(alloc: Global, e: &Expr, by_itself: Typed) -> Result<Typed, NoMemory>
    ensures { IfOk result (λ bit. bit ≡ low_bit (tree_of e.now) by_itself) }
{
    if is_named(e) {
        let node = low_node(alloc, by_itself.node)?;
        Ok(sized(1, false, node))
    } else {
        cut(alloc, by_itself)
    }
}
