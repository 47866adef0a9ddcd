//! The parts of a left side that a name has (IEEE 1364-2005, 5.2.1 and 6.1).
ghost use Rattle.std.specs.Prelude.{◌≡◌, true, Some, IfOk};
ghost use Rattle.v_sizes.specs.Sized.{constant};
ghost use Rattle.v_sizes.specs.Operations.{word_of, is_below_0, magnitude};
ghost use Rattle.v_binding.specs.declared.known.Use.TheVariants as use_kind;
ghost use Rattle.v_binding.specs.Lefts.{ranged_of, beyond_offset, beyond, part_of};

use design_core::{Node, Part, Typed};
use loc_base::{Items, NoMemory};
use std::alloc::Global;
use v_binding::{Ranged, Use};
use v_selects::leaf::word_node;
use v_selects::node::sized;
use v_sizes::Meaning;

/// A signal or an array with its range.
fn range_in(meaning: Meaning) -> Option<Ranged>
    ensures { result ≡ ranged_of (Some (use_kind.Stands meaning)) }
{
    match meaning {
        Meaning::Constant { .. } => None,
        Meaning::Signal {
            signal,
            width: _,
            signed: _,
            left,
            right,
        } => Some(Ranged {
            signal,
            left,
            right,
        }),
        Meaning::Array {
            first,
            count: _,
            low: _,
            width: _,
            signed: _,
            left,
            right,
        } => Some(Ranged {
            signal: first,
            left,
            right,
        }),
    }
}

/// The same of what a name stands for.
fn range_of(own: Use) -> Option<Ranged>
    ensures { result ≡ ranged_of (Some own) }
{
    match own {
        Use::Stands(meaning) => range_in(meaning),
        Use::AtTurn(_) | Use::Outside => None,
    }
}

/// The signal or array that a name stands for.
pub fn ranged_of(name: Option<Use>) -> Option<Ranged>
    ensures { result ≡ ranged_of name }
{
    match name {
        Some(own) => range_of(own),
        None => None,
    }
}

/// How far a bit beyond the leftmost one lies from it.
fn beyond_offset(down: bool, place: u8) -> i32
    ensures { result ≡ beyond_offset down place }
{
    let distance = i32::from(place) + 1;
    if down { distance } else { -distance }
}

/// The number of a whole number's word of 32 bits.
fn word_of(index: i32) -> u128
    ensures { result ≡ word_of 32 (is_below_0 index) (magnitude index) }
{
    if index < 0 {
        (1 << 32) - u128::from(index.unsigned_abs())
    } else {
        u128::from(index.unsigned_abs())
    }
}

/// A whole number of 32 bits.
fn index_of(index: i32) -> Typed
    ensures { result ≡ constant 32 true (word_of 32 (is_below_0 index) (magnitude index)) }
{
    sized(32, true, word_node(32, word_of(index)))
}

/// Bits that a signal doesn't have: those beyond its leftmost one.
#[tactic(auto, using(crate::proofs::Listed::listed))]
fn beyond(alloc: Global, own: Ranged, count: u8) -> Result<Part, NoMemory>
    ensures { IfOk result (λ part. part ≡ beyond own count) }
{
    let down = own.left >= own.right;
    let mut offsets = Items::new(alloc);
    for place in 0..count {
        offsets.push(beyond_offset(down, place))?;
    }
    Ok(Part::Pick {
        signal: own.signal,
        index: index_of(own.left),
        offsets,
    })
}

/// A part of what a name is as an expression.
#[tactic(auto, using(crate::proofs::NodeParts::node_parts))]
pub fn part_of(alloc: Global, own: Ranged, node: Node) -> Result<Part, NoMemory>
    ensures { IfOk result (λ part. part ≡ part_of own node) }
{
    match node {
        Node::Const(word) => beyond(alloc, own, word.width()),
        Node::Whole(signal) => Ok(Part::Whole(signal)),
        Node::Slice {
            signal,
            from,
            width,
        } => Ok(Part::Slice {
            signal,
            from,
            width,
        }),
        Node::Pick {
            signal,
            index,
            offsets,
        } => Ok(Part::Pick {
            signal,
            index: index.into_inner(),
            offsets,
        }),
        Node::Word {
            first,
            count,
            low,
            index,
            from,
            width,
        } => Ok(Part::Word {
            first,
            count,
            low,
            index: index.into_inner(),
            from,
            width,
        }),
        _ => beyond(alloc, own, 1),
    }
}
