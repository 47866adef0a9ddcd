//! The bits of registers: those that fill the words of their signals, apart from the others.

ghost use Rattle.std.specs.Prelude.{◌≡◌, ◌<◌, ◌^◌, ◌↔◌, All, IsTrue, IsSome, IfSome, OnOk, length, map};
ghost use Rattle.loc_base.specs.Bits.{width_of};
ghost use Rattle.design_core.specs.Words.{valuation_of};
ghost use Rattle.plain_sim.specs.EvaluateCycle.{blended};
ghost use Rattle.cycle_sim.specs.Masks.{IsFull, is_among};
ghost use Rattle.cycle_sim.specs.Planned.{Splits};

use crate::mask::{Mask, copy_bits, mask_at};
use loc_base::{Bits, NoMemory};
use std::alloc::Global;

/// The bits of registers.
#[derive(Drop)]
pub(crate) struct Registers {
    /// All of them.
    pub(crate) masks: Vec<Mask>,
    /// The signals whose words are whole registers.
    pub(crate) whole: Vec<u32>,
    /// The bits in the words of other signals.
    pub(crate) parts: Vec<Mask>,
}

/// Whether each bit of a word is 1.
fn is_full(bits: Bits) -> bool
    ensures { IsTrue result ↔ IsFull bits }
{
    bits.not().value() == 0
}

/// The signal of a mask that has each bit of it.
fn whole_word(mask: Mask) -> Option<u32>
    ensures some { IsSome result ↔ (IsFull mask.bits × (mask.signal < 2 ^ 32)) }
    ensures signal { IfSome result (λ signal. signal ≡ mask.signal) }
{
    if !is_full(mask.bits) {
        return None;
    }
    u32::try_from(mask.signal).ok()
}

/// Appends a mask as a whole word where it is one, else to the parts.
fn split_mask(mask: Mask, whole: &mut Vec<u32>, parts: &mut Vec<Mask>) -> Result<(), NoMemory>
    ensures { OnOk result (Splits mask whole.old.items parts.old.items whole.new.items parts.new.items) }
{
    match whole_word(mask) {
        Some(signal) => {
            whole.push(signal)?;
            Ok(())
        }
        None => {
            parts.push(mask)?;
            Ok(())
        }
    }
}

/// Puts the words of some signals at other ones.
fn copy_words(signals: &[u32], to: &mut [Bits], from: &[Bits])
    requires within { All (λ k. k < length to.old) signals.now }
    requires from { map width_of from.now ≡ map width_of to.old }
    ensures widths { map width_of to.new ≡ map width_of to.old }
    ensures value { valuation_of to.new ≡ blended (λ s b. is_among signals.now s) (valuation_of from.now) (valuation_of to.old) }
{
    for signal in signals {
        let signal = *signal as usize;
        to[signal].take(from[signal]);
    }
}

impl Registers {
    ghost use Rattle.std.specs.Prelude.{◌≡◌, ℕ, List, IfOk, map};
    ghost use Rattle.loc_base.specs.Bits.{width_of};
    ghost use Rattle.design_core.specs.Words.{valuation_of};
    ghost use Rattle.plain_sim.specs.EvaluateCycle.{blended};
    ghost use Rattle.cycle_sim.specs.Masks.{AreMasksOf, AreSplit, covers};

    /// The bits of some masks: whole words, and parts of others.
    pub(crate) fn new(alloc: Global, masks: Vec<Mask>) -> Result<Registers, NoMemory>
        ensures masks { IfOk result (λ registers. registers.masks ≡ masks) }
        ensures split { IfOk result (λ registers. (widths : List ℕ) → AreMasksOf widths masks.items → AreSplit widths registers) }
    {
        let mut whole = Vec::new(alloc);
        let mut parts = Vec::new(alloc);
        for k in 0..masks.len() {
            split_mask(mask_at(&masks, k), &mut whole, &mut parts)?;
        }
        Ok(Registers {
            masks,
            whole,
            parts,
        })
    }

    /// Puts the bits of registers at those of other words.
    pub(crate) fn load(&self, to: &mut [Bits], from: &[Bits])
        requires split { AreSplit (map width_of to.old) self.now }
        requires from { map width_of from.now ≡ map width_of to.old }
        ensures widths { map width_of to.new ≡ map width_of to.old }
        ensures value { valuation_of to.new ≡ blended (covers self.now.masks.items) (valuation_of from.now) (valuation_of to.old) }
    {
        copy_words(&self.whole, to, from);
        copy_bits(&self.parts, to, from);
    }
}
