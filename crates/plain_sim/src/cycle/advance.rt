ghost use Rattle.std.specs.Prelude.{◌≡◌, ◌<◌, length, slice_get, Some, OnOk, IfOk};
ghost use Rattle.design_core.specs.declared.driver.Clocked.{Clocked};
ghost use Rattle.design_core.specs.Constant.{zeros};
ghost use Rattle.design_core.specs.Words.{valuation_of, AreWordsOf, choice_of};
ghost use Rattle.design_core.specs.Steps.{with_body, with_bodies, computed_next};
ghost use Rattle.design_core.specs.Given.{AreChosen, CanRun};

use crate::cycle::copies::zeros_like;
use crate::cycle::region::{Region, is_active};
use crate::cycle::results::left_by;
use crate::cycle::take::take;
use design_core::Design;
use loc_base::{Bits, NoMemory};
use std::alloc::Global;

/// Gives the registers of the clocked block of a number the next states that its body leaves, where its reset is not
/// active.
fn run_body(
    alloc: Global,
    design: &Design,
    freed: &[bool],
    chosen: &[Bits],
    now: &[Bits],
    i: usize,
    next: &mut [Bits],
) -> Result<(), NoMemory>
    requires design { CanRun design.now }
    requires now { AreWordsOf design.now.signals.items now.now }
    requires next { AreWordsOf design.now.signals.items next.old }
    requires chosen { AreChosen design.now freed.now chosen.now }
    requires number { i < length design.now.clocked.items }
    ensures words { AreWordsOf design.now.signals.items next.new }
    ensures value { OnOk result ((block : Clocked) → slice_get design.now.clocked.items i ≡ Some block
        → valuation_of next.new ≡ with_body design.now (choice_of freed.now chosen.now) (valuation_of now.now) block (valuation_of next.old)) }
{
    let block = &design.clocked[i];
    if is_active(now, block) {
        return Ok(());
    }
    let left = left_by(alloc, design, freed, chosen, now, i, &block.body)?;
    take(design, &[], Region::Block(i), next, &left);
    Ok(())
}

/// Gives the registers of all clocked blocks their next states.
fn run_bodies(
    alloc: Global,
    design: &Design,
    freed: &[bool],
    chosen: &[Bits],
    now: &[Bits],
    next: &mut [Bits],
) -> Result<(), NoMemory>
    requires design { CanRun design.now }
    requires now { AreWordsOf design.now.signals.items now.now }
    requires next { AreWordsOf design.now.signals.items next.old }
    requires chosen { AreChosen design.now freed.now chosen.now }
    ensures words { AreWordsOf design.now.signals.items next.new }
    ensures value { OnOk result (valuation_of next.new
        ≡ with_bodies design.now (choice_of freed.now chosen.now) (valuation_of now.now) design.now.clocked.items (valuation_of next.old)) }
{
    for i in 0..design.clocked.len() {
        run_body(alloc, design, freed, chosen, now, i, next)?;
    }
    Ok(())
}

/// Computes the next states into words that are 0.
fn advance(
    alloc: Global,
    design: &Design,
    freed: &[bool],
    chosen: &[Bits],
    state: &[Bits],
    now: &[Bits],
    next: &mut [Bits],
) -> Result<(), NoMemory>
    requires design { CanRun design.now }
    requires state { AreWordsOf design.now.signals.items state.now }
    requires now { AreWordsOf design.now.signals.items now.now }
    requires next { AreWordsOf design.now.signals.items next.old }
    requires zeros { valuation_of next.old ≡ zeros }
    requires chosen { AreChosen design.now freed.now chosen.now }
    ensures words { AreWordsOf design.now.signals.items next.new }
    ensures value { OnOk result (valuation_of next.new
        ≡ computed_next design.now (valuation_of state.now) (choice_of freed.now chosen.now) (valuation_of now.now)) }
{
    take(design, &[], Region::Registers, next, state);
    run_bodies(alloc, design, freed, chosen, now, next)?;
    take(design, now, Region::Reset, next, now);
    Ok(())
}

/// The next states of the registers, computed from the values of a cycle.
pub(crate) fn next_words(
    alloc: Global,
    design: &Design,
    freed: &[bool],
    chosen: &[Bits],
    state: &[Bits],
    now: &[Bits],
) -> Result<Vec<Bits>, NoMemory>
    requires design { CanRun design.now }
    requires state { AreWordsOf design.now.signals.items state.now }
    requires now { AreWordsOf design.now.signals.items now.now }
    requires chosen { AreChosen design.now freed.now chosen.now }
    ensures words { IfOk result (λ next. AreWordsOf design.now.signals.items next.items) }
    ensures value { IfOk result (λ next. valuation_of next.items
        ≡ computed_next design.now (valuation_of state.now) (choice_of freed.now chosen.now) (valuation_of now.now)) }
{
    let mut next = zeros_like(alloc, design, state)?;
    advance(alloc, design, freed, chosen, state, now, &mut next)?;
    Ok(next)
}
