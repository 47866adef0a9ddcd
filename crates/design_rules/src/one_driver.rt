ghost use Rattle.std.specs.Prelude.{◌≡◌, ◌≢◌, ◌<◌, ◌^◌, ◌&&◌, ℕ, length, slice_index, IfOk, IfNone, IfSome};
ghost use Rattle.design_core.specs.Valuation.{bit};
ghost use Rattle.design_core.specs.Given.{CanRun};
ghost use Rattle.design_core.specs.WellFormed.{is_input};
ghost use Rattle.design_bits.specs.Masks.{Adds, has};
ghost use Rattle.design_rules.specs.First.{IsFirst};
ghost use Rattle.design_rules.specs.OneDriver.{IsDrivenTwice};
ghost use Rattle.design_rules.specs.Tallies.{AreInputs, AreTooOften};

use crate::tally::{join, join_common};
use design_bits::{BitSet, add_block, add_driver};
use design_core::{Design, Signal, SignalKind};
use loc_base::NoMemory;
use std::alloc::Global;

/// All bits where a signal is an input, else none.
#[tactic(auto, using(crate::proofs::TallyLaws::input_bits))]
fn input_mask(kind: SignalKind) -> u128
    ensures { (b : ℕ) → b < 128 → bit result b ≡ is_input kind }
{
    match kind {
        SignalKind::Input => u128::MAX,
        SignalKind::Net | SignalKind::Reg => 0,
    }
}

/// All bits of the inputs.
fn input_masks(alloc: Global, signals: &[Signal]) -> Result<Vec<u128>, NoMemory>
    ensures { IfOk result (λ masks. AreInputs signals.now masks.items) }
{
    let mut masks = Vec::new(alloc);
    for signal in signals {
        masks.push(input_mask(signal.kind))?;
    }
    Ok(masks)
}

/// The first place that is not 0.
fn first_set(masks: &[u128]) -> Option<usize>
    ensures none { IfNone result ((k : ℕ) → slice_index masks.now k ≡ 0) }
    ensures within { IfSome result (λ s. s < length masks.now) }
    ensures some { IfSome result (λ s. slice_index masks.now s ≢ 0) }
    ensures small { IfSome result (λ s. slice_index masks.now s < 2 ^ 128) }
    ensures first { IfSome result (λ s. (k : ℕ) → k < s → slice_index masks.now k ≡ 0) }
{
    for (place, mask) in masks.iter().enumerate() {
        if *mask != 0 {
            return Some(place);
        }
    }
    None
}

/// Counts the bits that one entry drives.
fn count(once: &mut Vec<u128>, twice: &mut Vec<u128>, own: &BitSet)
    requires once_long { length once.old.items ≡ length own.now }
    requires twice_long { length twice.old.items ≡ length own.now }
    ensures twice { Adds twice.old.items twice.new.items (λ s b. has once.old.items s b && has own.now s b) }
    ensures once { Adds once.old.items once.new.items (λ s b. has own.now s b) }
{
    join_common(twice, once, own);
    join(once, own);
}

/// The bits that are driven too often: twice, or once where they are of an input.
fn driven_too_often(alloc: Global, design: &Design) -> Result<Vec<u128>, NoMemory>
    ensures { IfOk result (λ twice. AreTooOften design.now twice.items) }
{
    let mut once = input_masks(alloc, &design.signals)?;
    let mut twice = vec![in alloc; 0; design.signals.len()]?;
    let mut own = BitSet::new(alloc, design.signals.len())?;
    for driver in &design.drivers {
        own.clear();
        add_driver(&mut own, &design.signals, driver)?;
        count(&mut once, &mut twice, &own);
    }
    for block in &design.clocked {
        own.clear();
        add_block(&mut own, &design.signals, block)?;
        count(&mut once, &mut twice, &own);
    }
    Ok(twice)
}

/// The first signal with a bit that has two drivers, or one where the signal is an input of the top; `None` where there is none.
/// Drivers are continuous assignments, outputs of gates, port connections, combinational blocks and clocked blocks.
pub fn first_driven_twice(alloc: Global, design: &Design) -> Result<Option<usize>, NoMemory>
    requires { CanRun design.now }
    ensures { IfOk result (IsFirst (IsDrivenTwice design.now)) }
{
    let twice = driven_too_often(alloc, design)?;
    Ok(first_set(&twice))
}
