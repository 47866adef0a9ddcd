//! Which bits of each signal are registers.
ghost use Rattle.std.specs.Prelude.{◌≡◌, ◌≤◌, ◌<◌, ◌&&◌, ℕ, Bool, true, false, not, bit_and, length, replicate, slice_index, IfOk, IsTrue};
ghost use Rattle.std.specs.List.{list_all};
ghost use Rattle.design_core.specs.Valuation.{bit, number};
ghost use Rattle.design_core.specs.Drives.{block_assigns_later, is_driven, is_reg};
ghost use Rattle.design_core.specs.WellFormed.{signal_fits};
ghost use Rattle.design_bits.specs.Masks.{Adds};
ghost use Rattle.v_synth.specs.Clocked.{register_mask};
ghost use Rattle.v_synth.specs.Owned.{AreOwn};
ghost use Rattle.v_synth.specs.Rows.{IsRow, Marked};

use design_bits::{BitSet, add_driver};
use design_core::{Design, Signal, SignalKind};
use loc_base::{Bits, Items, NoMemory};
use std::alloc::Global;

/// The bits that drivers drive.
#[tactic(auto, using(crate::proofs::RowSteps::driven_steps))]
fn driven(alloc: Global, design: &Design) -> Result<BitSet, NoMemory>
    ensures { IfOk result (λ set. Adds (replicate (length design.now.signals.items) 0) set (is_driven design.now)) }
{
    let mut set = BitSet::new(alloc, design.signals.len())?;
    for i in 0..design.drivers.len() {
        add_driver(&mut set, design.signals.as_slice(), &design.drivers[i])?;
    }
    Ok(set)
}

/// The bits of a signal that are registers, where drivers drive those of a mask.
#[tactic(auto, using(crate::proofs::RowSteps::kind_steps))]
fn registers_of(signal: &Signal, driven: u128) -> u128
    requires least { 1 ≤ signal.now.width }
    requires most { signal.now.width ≤ 128 }
    ensures { (f : ℕ → Bool) → ((b : ℕ) → b < 128 → bit driven b ≡ f b)
        → result ≡ number signal.now.width (λ b. is_reg signal.now.kind && not (f b)) }
{
    match signal.kind {
        SignalKind::Input | SignalKind::Net => 0,
        SignalKind::Reg => Bits::zero(signal.width).not().value() & !driven,
    }
}

/// For each signal which of its bits are registers.
#[tactic(auto, using(crate::proofs::RowSteps::registers_steps))]
pub(crate) fn registers(alloc: Global, design: &Design) -> Result<Items<u128>, NoMemory>
    requires { IsTrue (list_all signal_fits design.now.signals.items) }
    ensures { IfOk result (IsRow (register_mask design.now) (length design.now.signals.items)) }
{
    let driven = driven(alloc, design)?;
    let mut row = Items::new(alloc);
    for s in 0..design.signals.len() {
        row.push(registers_of(&design.signals[s], driven.mask(s)))?;
    }
    Ok(row)
}

/// A design, and for each signal which of its bits are registers.
#[derive(Clone, Copy, Drop)]
pub(crate) struct Blocks<'a> {
    pub alloc: Global,
    pub design: &'a Design,
    pub registers: &'a [u128],
}
