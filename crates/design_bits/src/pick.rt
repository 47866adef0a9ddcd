ghost use Rattle.std.specs.Prelude.{◌≡◌, ◌<◌, ◌+ℤ◌, ℕ, ℤ, IfSome, option_map};
ghost use Rattle.std.specs.List.{list_any};
ghost use Rattle.loc_base.specs.Bits.{width_of, value_of};
ghost use Rattle.design_core.specs.Constant.{constant_of};
ghost use Rattle.design_core.specs.Operator.{integer_of};
ghost use Rattle.design_core.specs.Pick.{is_at, has_bit, may_pick, must_pick};
ghost use Rattle.design_core.specs.Valuation.{bit, position_at, position_of};

use crate::mask::{ones, run};
use design_core::{Node, Signal, Typed};
use loc_base::Bits;
use plain_values::{position_from, width_at};

/// The word of an index that is a constant.
fn constant_of(index: &Typed) -> Option<Bits>
    ensures value { option_map value_of result ≡ constant_of index.now.width index.now.node }
    ensures width { IfSome result (λ word. width_of word ≡ index.now.width) }
{
    match &index.node {
        Node::Const(word) if word.width() == index.width => Some(*word),
        _ => None,
    }
}

/// The bit at a position, where there is one below 128.
#[tactic(auto, using(crate::proofs::Picks::at_bits))]
fn bit_at(position: Option<u32>) -> u128
    ensures { (b : ℕ) → b < 128 → bit result b ≡ is_at b position }
{
    match position {
        Some(place) => { if place < 128 { run(place as u8, 1) } else { 0 } }
        None => 0,
    }
}

/// The bit of a signal that has an index and an offset.
fn bit_from(signals: &[Signal], signal: usize, at: Bits, signed: bool, offset: i32) -> u128
    ensures { (b : ℕ) → b < 128 → bit result b ≡ is_at b (position_at signals.now signal (integer_of signed (width_of at) (value_of at) +ℤ offset)) }
{
    match signals.get(signal) {
        Some(declared) => bit_at(position_from(declared, at, signed, offset)),
        None => 0,
    }
}

/// The bits of a signal that have an index and one of the offsets.
fn bits_from(signals: &[Signal], signal: usize, at: Bits, signed: bool, offsets: &[i32]) -> u128
    ensures { (b : ℕ) → b < 128 → bit result b ≡ has_bit signals.now signal (integer_of signed (width_of at) (value_of at)) offsets.now b }
{
    let mut mask = 0;
    for offset in offsets {
        mask |= bit_from(signals, signal, at, signed, *offset);
    }
    mask
}

/// The bits that a part of a signal by an index may have (IEEE 1364-2005, 5.2.1).
pub(crate) fn may_pick(signals: &[Signal], signal: usize, index: &Typed, offsets: &[i32]) -> u128
    ensures { (b : ℕ) → b < 128 → bit result b ≡ may_pick signals.now signal index.now.width index.now.signed index.now.node offsets.now b }
{
    match constant_of(index) {
        Some(at) => bits_from(signals, signal, at, index.signed, offsets),
        None => ones(u16::from(width_at(signals, signal))),
    }
}

/// The bits of a signal that a part by an index surely has: none where the index is no constant.
pub(crate) fn must_pick(signals: &[Signal], signal: usize, index: &Typed, offsets: &[i32]) -> u128
    ensures { (b : ℕ) → b < 128 → bit result b ≡ must_pick signals.now signal index.now.width index.now.signed index.now.node offsets.now b }
{
    match constant_of(index) {
        Some(at) => bits_from(signals, signal, at, index.signed, offsets),
        None => 0,
    }
}
