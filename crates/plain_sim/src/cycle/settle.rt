ghost use Rattle.std.specs.Prelude.{◌≡◌, ◌<◌, length, slice_get, Some, OnOk};
ghost use Rattle.design_core.specs.declared.driver.Clocked.{Clocked};
ghost use Rattle.design_core.specs.Words.{valuation_of, AreWordsOf, choice_of};
ghost use Rattle.design_core.specs.Steps.{with_reset, with_resets, with_driver, with_drivers};
ghost use Rattle.design_core.specs.Given.{AreChosen, CanRun};

use crate::cycle::region::{Region, is_active};
use crate::cycle::results::{driven_by, left_by};
use crate::cycle::take::take;
use design_core::Design;
use loc_base::{Bits, NoMemory};
use std::alloc::Global;

/// Puts the registers of the clocked block of a number at their reset values, where its reset is active. `before` has
/// the words before anything is computed.
fn reset_block(
    alloc: Global,
    design: &Design,
    freed: &[bool],
    chosen: &[Bits],
    before: &[Bits],
    i: usize,
    now: &mut [Bits],
) -> Result<(), NoMemory>
    requires design { CanRun design.now }
    requires before { AreWordsOf design.now.signals.items before.now }
    requires now { AreWordsOf design.now.signals.items now.old }
    requires chosen { AreChosen design.now freed.now chosen.now }
    requires number { i < length design.now.clocked.items }
    ensures words { AreWordsOf design.now.signals.items now.new }
    ensures value { OnOk result ((block : Clocked) → slice_get design.now.clocked.items i ≡ Some block
        → valuation_of now.new ≡ with_reset design.now (choice_of freed.now chosen.now) (valuation_of before.now) block (valuation_of now.old)) }
{
    let block = &design.clocked[i];
    if !is_active(before, block) {
        return Ok(());
    }
    if let Some(reset) = &block.reset {
        let left = left_by(alloc, design, freed, chosen, before, i, &reset.values)?;
        take(design, &[], Region::Block(i), now, &left);
    }
    Ok(())
}

/// Puts all registers whose block's reset is active at their reset values.
pub(crate) fn reset_blocks(
    alloc: Global,
    design: &Design,
    freed: &[bool],
    chosen: &[Bits],
    before: &[Bits],
    now: &mut [Bits],
) -> Result<(), NoMemory>
    requires design { CanRun design.now }
    requires before { AreWordsOf design.now.signals.items before.now }
    requires now { AreWordsOf design.now.signals.items now.old }
    requires chosen { AreChosen design.now freed.now chosen.now }
    ensures words { AreWordsOf design.now.signals.items now.new }
    ensures value { OnOk result (valuation_of now.new
        ≡ with_resets design.now (choice_of freed.now chosen.now) (valuation_of before.now) design.now.clocked.items (valuation_of now.old)) }
{
    for i in 0..design.clocked.len() {
        reset_block(alloc, design, freed, chosen, before, i, now)?;
    }
    Ok(())
}

/// Carries out the driver of a number, where there is one.
fn settle_driver(
    alloc: Global,
    design: &Design,
    freed: &[bool],
    chosen: &[Bits],
    i: usize,
    now: &mut [Bits],
) -> Result<(), NoMemory>
    requires design { CanRun design.now }
    requires now { AreWordsOf design.now.signals.items now.old }
    requires chosen { AreChosen design.now freed.now chosen.now }
    ensures words { AreWordsOf design.now.signals.items now.new }
    ensures value { OnOk result (valuation_of now.new ≡ with_driver design.now (choice_of freed.now chosen.now) i (valuation_of now.old)) }
{
    if i >= design.drivers.len() {
        return Ok(());
    }
    let driven = driven_by(alloc, design, freed, chosen, now, i)?;
    take(design, &[], Region::Driver(i), now, &driven);
    Ok(())
}

/// Carries out the drivers in an order.
pub(crate) fn settle_drivers(
    alloc: Global,
    design: &Design,
    order: &[u32],
    freed: &[bool],
    chosen: &[Bits],
    now: &mut [Bits],
) -> Result<(), NoMemory>
    requires design { CanRun design.now }
    requires now { AreWordsOf design.now.signals.items now.old }
    requires chosen { AreChosen design.now freed.now chosen.now }
    ensures words { AreWordsOf design.now.signals.items now.new }
    ensures value { OnOk result (valuation_of now.new ≡ with_drivers design.now (choice_of freed.now chosen.now) order.now (valuation_of now.old)) }
{
    for i in order {
        settle_driver(alloc, design, freed, chosen, *i as usize, now)?;
    }
    Ok(())
}
