ghost use Rattle.std.specs.Prelude.{◌≡◌, IsTrue, OnOk, IfOk, IfSome, IfNone};
ghost use Rattle.design_core.specs.Valuation.{Valuation};
ghost use Rattle.design_core.specs.WellFormed.{IsWellFormed};
ghost use Rattle.design_core.specs.Reads.{IsOrder};
ghost use Rattle.design_core.specs.DrivenOnce.{IsDrivenOnce};
ghost use Rattle.design_core.specs.Words.{valuation_of, AreWordsOf, choice_of};
ghost use Rattle.design_core.specs.TraceFits.{samples_fit};
ghost use Rattle.design_core.specs.Cycle.{Cycle, before};
ghost use Rattle.design_core.specs.Steps.{computed_now, with_drivers, with_resets};
ghost use Rattle.design_core.specs.Given.{AreChosen, CanRun};

use crate::cycle::advance::next_words;
use crate::cycle::check::is_cycle;
use crate::cycle::copies::copy_of;
use crate::cycle::samples::words_before;
use crate::cycle::settle::{reset_blocks, settle_drivers};
use design_core::Design;
use loc_base::{Bits, NoMemory};
use std::alloc::Global;

/// A cycle in words, one for each signal.
#[derive(Drop)]
pub struct CycleWords {
    /// The values of all bits.
    pub now: Vec<Bits>,
    /// The next states of the registers, and 0 in all other bits.
    pub next: Vec<Bits>,
}

/// Computes the values of a cycle into words that are as before anything is computed: registers that are reset first,
/// then the drivers in the order.
fn settle(
    alloc: Global,
    design: &Design,
    order: &[u32],
    freed: &[bool],
    chosen: &[Bits],
    before: &[Bits],
    now: &mut [Bits],
) -> Result<(), NoMemory>
    requires design { CanRun design.now }
    requires before { AreWordsOf design.now.signals.items before.now }
    requires now { now.old ≡ before.now }
    requires chosen { AreChosen design.now freed.now chosen.now }
    ensures words { AreWordsOf design.now.signals.items now.new }
    ensures value { OnOk result (valuation_of now.new ≡ with_drivers design.now (choice_of freed.now chosen.now) order.now
        (with_resets design.now (choice_of freed.now chosen.now) (valuation_of before.now) design.now.clocked.items (valuation_of before.now))) }
{
    reset_blocks(alloc, design, freed, chosen, before, now)?;
    settle_drivers(alloc, design, order, freed, chosen, now)
}

/// The values of a cycle, computed in an order of the drivers.
fn now_words(
    alloc: Global,
    design: &Design,
    order: &[u32],
    samples: &[Bits],
    state: &[Bits],
    freed: &[bool],
    chosen: &[Bits],
) -> Result<Vec<Bits>, NoMemory>
    requires design { CanRun design.now }
    requires samples { IsTrue (samples_fit design.now.signals.items design.now.inputs.items samples.now) }
    requires state { AreWordsOf design.now.signals.items state.now }
    requires chosen { AreChosen design.now freed.now chosen.now }
    ensures words { IfOk result (λ now. AreWordsOf design.now.signals.items now.items) }
    ensures value { IfOk result (λ now. valuation_of now.items
        ≡ computed_now design.now order.now samples.now (valuation_of state.now) (choice_of freed.now chosen.now)) }
{
    let before = words_before(alloc, design, samples, state)?;
    let mut now = copy_of(alloc, &before)?;
    settle(alloc, design, order, freed, chosen, &before, &mut now)?;
    Ok(now)
}

/// The cycle for these samples of the inputs and states of the registers, the drivers being computed in an order.
/// `state` has one word for each signal; `freed` and `chosen` have one entry for each place of the design: whether it is
/// freed, and the value that it then takes. `None` where what is computed does not fulfil each equation of a cycle: in a
/// well-formed design whose drivers stand in that order there is then no cycle. Where each bit gets its value once as
/// well, there always is one.
pub fn compute_cycle(
    alloc: Global,
    design: &Design,
    order: &[u32],
    samples: &[Bits],
    state: &[Bits],
    freed: &[bool],
    chosen: &[Bits],
) -> Result<Option<CycleWords>, NoMemory>
    requires design { CanRun design.now }
    requires samples { IsTrue (samples_fit design.now.signals.items design.now.inputs.items samples.now) }
    requires state { AreWordsOf design.now.signals.items state.now }
    requires chosen { AreChosen design.now freed.now chosen.now }
    ensures words { IfOk result (λ found. IfSome found (λ words. AreWordsOf design.now.signals.items words.now.items)) }
    ensures next_words { IfOk result (λ found. IfSome found (λ words. AreWordsOf design.now.signals.items words.next.items)) }
    ensures some { IfOk result (λ found. IfSome found (λ words.
        Cycle design.now samples.now (valuation_of state.now) (choice_of freed.now chosen.now) (valuation_of words.now.items) (valuation_of words.next.items))) }
    ensures none { IfOk result (λ found. IfNone found (IsWellFormed design.now → IsOrder design.now order.now → (V next : Valuation)
        → ¬ Cycle design.now samples.now (valuation_of state.now) (choice_of freed.now chosen.now) V next)) }
    ensures always { IfOk result (λ found. IfNone found (IsWellFormed design.now → IsDrivenOnce design.now → ¬ IsOrder design.now order.now)) }
{
    let now = now_words(alloc, design, order, samples, state, freed, chosen)?;
    let next = next_words(alloc, design, freed, chosen, state, &now)?;
    if is_cycle(alloc, design, samples, state, freed, chosen, &now, &next)? {
        Ok(Some(CycleWords { now, next }))
    } else {
        Ok(None)
    }
}
