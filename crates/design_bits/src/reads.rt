ghost use Rattle.std.specs.Prelude.{◌≡◌, ◌<◌, ◌&&◌, ℕ, not, length, OnOk};
ghost use Rattle.std.specs.List.{list_any};
ghost use Rattle.design_core.specs.Reads.{reads};
ghost use Rattle.design_bits.specs.Masks.{Adds, has};
ghost use Rattle.design_bits.specs.Operands.{own_reads, operands_read};
ghost use Rattle.design_bits.specs.Regions.{region_has};

use crate::mask::{ones, run};
use crate::pick::may_pick;
use crate::region::{Region, add_region};
use crate::set::BitSet;
use design_core::{Node, Signal, Typed};
use loc_base::NoMemory;

/// The bits that an expression's node reads itself.
fn own_bits(signals: &[Signal], read: &Typed) -> Region
    ensures { (s b : ℕ) → b < 128 → region_has result s b ≡ own_reads signals.now s b read.now.width read.now.node }
{
    match &read.node {
        Node::Whole(signal) => Region::of(*signal, ones(u16::from(read.width))),
        Node::Slice {
            signal,
            from,
            width,
        } => Region::of(*signal, run(*from, *width)),
        Node::Pick {
            signal,
            index,
            offsets,
        } => Region::of(*signal, may_pick(signals, *signal as usize, index, offsets)),
        Node::Word {
            first,
            count,
            from,
            width,
            ..
        } => Region {
            first: *first,
            count: *count,
            mask: run(*from, *width),
        },
        Node::Const(_)
        | Node::Unary { .. }
        | Node::Binary { .. }
        | Node::Choose { .. }
        | Node::Join(_)
        | Node::Repeat { .. }
        | Node::Resize(_) => Region::none(),
    }
}

/// Adds the bits that an expression reads, but for those of another set.
#[cycle(reads)]
pub(crate) fn add_reads(
    set: &mut BitSet,
    sure: &[u128],
    signals: &[Signal],
    read: &Typed,
) -> Result<(), NoMemory>
    requires { length sure.now ≡ length set.old }
    ensures { OnOk result (Adds set.old set.new (λ s b. reads signals.now s b read.now && not (has sure.now s b))) }
{
    add_region(set, sure, own_bits(signals, read))?;
    add_operands(set, sure, signals, &read.node)
}

/// Adds the bits that the operands of a node read, but for those of another set.
#[cycle(reads)]
fn add_operands(
    set: &mut BitSet,
    sure: &[u128],
    signals: &[Signal],
    node: &Node,
) -> Result<(), NoMemory>
    requires { length sure.now ≡ length set.old }
    ensures { OnOk result (Adds set.old set.new (λ s b. operands_read signals.now s b node.now && not (has sure.now s b))) }
{
    match node {
        Node::Const(_) | Node::Whole(_) | Node::Slice { .. } => Ok(()),
        Node::Pick { index, .. } => add_reads(set, sure, signals, index),
        Node::Word { index, .. } => add_reads(set, sure, signals, index),
        Node::Unary { arg, .. } => add_reads(set, sure, signals, arg),
        Node::Binary { left, right, .. } => {
            add_reads(set, sure, signals, left)?;
            add_reads(set, sure, signals, right)
        }
        Node::Choose { cond, yes, no } => {
            add_reads(set, sure, signals, cond)?;
            add_reads(set, sure, signals, yes)?;
            add_reads(set, sure, signals, no)
        }
        Node::Join(parts) => add_all_reads(set, sure, signals, parts),
        Node::Repeat { part, .. } => add_reads(set, sure, signals, part),
        Node::Resize(arg) => add_reads(set, sure, signals, arg),
    }
}

/// Adds the bits that some expressions read, but for those of another set.
#[cycle(reads)]
fn add_all_reads(
    set: &mut BitSet,
    sure: &[u128],
    signals: &[Signal],
    parts: &[Typed],
) -> Result<(), NoMemory>
    requires { length sure.now ≡ length set.old }
    ensures { OnOk result (Adds set.old set.new (λ s b. list_any (reads signals.now s b) parts.now && not (has sure.now s b))) }
{
    for part in parts {
        add_reads(set, sure, signals, part)?;
    }
    Ok(())
}
