ghost use Rattle.std.specs.Prelude.{◌<◌, ◌↔◌, ℕ, IsTrue, IfOk, length};
ghost use Rattle.design_core.specs.Words.{valuation_of, AreWordsOf, choice_of};
ghost use Rattle.design_core.specs.Cycle.{before};
ghost use Rattle.plain_sim.specs.EvaluateCycle.{DriverHolds, ResetHolds, BodyHolds, BlockHolds};
ghost use Rattle.design_core.specs.Given.{AreChosen, CanRun};

use crate::cycle::agree::agree;
use crate::cycle::region::{Region, is_active};
use crate::cycle::results::{driven_by, left_by};
use design_core::Design;
use loc_base::{Bits, NoMemory};
use std::alloc::Global;

/// Whether the equation of the driver of a number holds.
fn driver_holds(
    alloc: Global,
    design: &Design,
    freed: &[bool],
    chosen: &[Bits],
    now: &[Bits],
    i: usize,
) -> Result<bool, NoMemory>
    requires design { CanRun design.now }
    requires now { AreWordsOf design.now.signals.items now.now }
    requires chosen { AreChosen design.now freed.now chosen.now }
    requires number { i < length design.now.drivers.items }
    ensures { IfOk result (λ answer. IsTrue answer ↔ DriverHolds design.now (choice_of freed.now chosen.now) (valuation_of now.now) i) }
{
    let driven = driven_by(alloc, design, freed, chosen, now, i)?;
    Ok(agree(design, now, Region::Driver(i), now, &driven))
}

/// Whether the equation of each driver holds.
pub(crate) fn drivers_hold(
    alloc: Global,
    design: &Design,
    freed: &[bool],
    chosen: &[Bits],
    now: &[Bits],
) -> Result<bool, NoMemory>
    requires design { CanRun design.now }
    requires now { AreWordsOf design.now.signals.items now.now }
    requires chosen { AreChosen design.now freed.now chosen.now }
    ensures { IfOk result (λ answer. IsTrue answer
        ↔ ((i : ℕ) → i < length design.now.drivers.items → DriverHolds design.now (choice_of freed.now chosen.now) (valuation_of now.now) i)) }
{
    for i in 0..design.drivers.len() {
        if !driver_holds(alloc, design, freed, chosen, now, i)? {
            return Ok(false);
        }
    }
    Ok(true)
}

/// Whether the registers of the clocked block of a number have their reset values where its reset is active. `before`
/// has the words before anything is computed.
fn reset_holds(
    alloc: Global,
    design: &Design,
    freed: &[bool],
    chosen: &[Bits],
    before: &[Bits],
    now: &[Bits],
    i: usize,
) -> Result<bool, NoMemory>
    requires design { CanRun design.now }
    requires before { AreWordsOf design.now.signals.items before.now }
    requires now { AreWordsOf design.now.signals.items now.now }
    requires chosen { AreChosen design.now freed.now chosen.now }
    requires number { i < length design.now.clocked.items }
    ensures { IfOk result (λ answer. IsTrue answer
        ↔ ResetHolds design.now (choice_of freed.now chosen.now) (valuation_of before.now) (valuation_of now.now) i) }
{
    let block = &design.clocked[i];
    if !is_active(now, block) {
        return Ok(true);
    }
    match &block.reset {
        Some(reset) => {
            let left = left_by(alloc, design, freed, chosen, before, i, &reset.values)?;
            Ok(agree(design, now, Region::Block(i), now, &left))
        }
        None => Ok(true),
    }
}

/// Whether the next states of the registers of the clocked block of a number are what its body leaves, where no reset
/// of it is active.
fn body_holds(
    alloc: Global,
    design: &Design,
    freed: &[bool],
    chosen: &[Bits],
    now: &[Bits],
    next: &[Bits],
    i: usize,
) -> Result<bool, NoMemory>
    requires design { CanRun design.now }
    requires now { AreWordsOf design.now.signals.items now.now }
    requires next { AreWordsOf design.now.signals.items next.now }
    requires chosen { AreChosen design.now freed.now chosen.now }
    requires number { i < length design.now.clocked.items }
    ensures { IfOk result (λ answer. IsTrue answer
        ↔ BodyHolds design.now (choice_of freed.now chosen.now) (valuation_of now.now) (valuation_of next.now) i) }
{
    let block = &design.clocked[i];
    if is_active(now, block) {
        return Ok(true);
    }
    let left = left_by(alloc, design, freed, chosen, now, i, &block.body)?;
    Ok(agree(design, now, Region::Block(i), next, &left))
}

/// Whether both equations of the clocked block of a number hold.
fn block_holds(
    alloc: Global,
    design: &Design,
    freed: &[bool],
    chosen: &[Bits],
    before: &[Bits],
    now: &[Bits],
    next: &[Bits],
    i: usize,
) -> Result<bool, NoMemory>
    requires design { CanRun design.now }
    requires before { AreWordsOf design.now.signals.items before.now }
    requires now { AreWordsOf design.now.signals.items now.now }
    requires next { AreWordsOf design.now.signals.items next.now }
    requires chosen { AreChosen design.now freed.now chosen.now }
    requires number { i < length design.now.clocked.items }
    ensures { IfOk result (λ answer. IsTrue answer
        ↔ BlockHolds design.now (choice_of freed.now chosen.now) (valuation_of before.now) (valuation_of now.now) (valuation_of next.now) i) }
{
    if !reset_holds(alloc, design, freed, chosen, before, now, i)? {
        return Ok(false);
    }
    body_holds(alloc, design, freed, chosen, now, next, i)
}

/// Whether the equations of each clocked block hold.
pub(crate) fn blocks_hold(
    alloc: Global,
    design: &Design,
    freed: &[bool],
    chosen: &[Bits],
    before: &[Bits],
    now: &[Bits],
    next: &[Bits],
) -> Result<bool, NoMemory>
    requires design { CanRun design.now }
    requires before { AreWordsOf design.now.signals.items before.now }
    requires now { AreWordsOf design.now.signals.items now.now }
    requires next { AreWordsOf design.now.signals.items next.now }
    requires chosen { AreChosen design.now freed.now chosen.now }
    ensures { IfOk result (λ answer. IsTrue answer ↔ ((i : ℕ) → i < length design.now.clocked.items
        → BlockHolds design.now (choice_of freed.now chosen.now) (valuation_of before.now) (valuation_of now.now) (valuation_of next.now) i)) }
{
    for i in 0..design.clocked.len() {
        if !block_holds(alloc, design, freed, chosen, before, now, next, i)? {
            return Ok(false);
        }
    }
    Ok(true)
}
