ghost use Rattle.std.specs.Prelude.{◌↔◌, IsTrue, IfOk};
ghost use Rattle.design_core.specs.Words.{valuation_of, AreWordsOf, choice_of};
ghost use Rattle.design_core.specs.Constant.{zeros};
ghost use Rattle.design_core.specs.TraceFits.{samples_fit};
ghost use Rattle.design_core.specs.Reads.{AgreeOn};
ghost use Rattle.design_core.specs.Cycle.{Cycle, sampled};
ghost use Rattle.plain_sim.specs.EvaluateCycle.{is_in};
ghost use Rattle.design_core.specs.Given.{AreChosen, CanRun};
ghost use Rattle.plain_sim.specs.declared.cycle.region.Region.TheVariants as region;

use crate::cycle::agree::agree;
use crate::cycle::copies::zeros_like;
use crate::cycle::holds::{blocks_hold, drivers_hold};
use crate::cycle::region::Region;
use crate::cycle::samples::{sample_words, words_before};
use design_core::Design;
use loc_base::{Bits, NoMemory};
use std::alloc::Global;

/// Whether inputs have their samples, registers that are not reset their states, and bits that nothing drives 0.
fn values_hold(
    design: &Design,
    samples: &[Bits],
    state: &[Bits],
    zeros: &[Bits],
    now: &[Bits],
) -> bool
    requires samples { AreWordsOf design.now.signals.items samples.now }
    requires state { AreWordsOf design.now.signals.items state.now }
    requires zeros { AreWordsOf design.now.signals.items zeros.now }
    requires now { AreWordsOf design.now.signals.items now.now }
    ensures { IsTrue result ↔ (AgreeOn (is_in design.now (valuation_of now.now) region.Listed) (valuation_of now.now) (valuation_of samples.now)
        × AgreeOn (is_in design.now (valuation_of now.now) region.Held) (valuation_of now.now) (valuation_of state.now)
        × AgreeOn (is_in design.now (valuation_of now.now) region.Undriven) (valuation_of now.now) (valuation_of zeros.now)) }
{
    agree(design, now, Region::Listed, now, samples)
        && agree(design, now, Region::Held, now, state)
        && agree(design, now, Region::Undriven, now, zeros)
}

/// Whether registers that are reset and those that no block drives have their next states, and other bits 0.
fn next_holds(design: &Design, state: &[Bits], zeros: &[Bits], now: &[Bits], next: &[Bits]) -> bool
    requires state { AreWordsOf design.now.signals.items state.now }
    requires zeros { AreWordsOf design.now.signals.items zeros.now }
    requires now { AreWordsOf design.now.signals.items now.now }
    requires next { AreWordsOf design.now.signals.items next.now }
    ensures { IsTrue result ↔ (AgreeOn (is_in design.now (valuation_of now.now) region.Reset) (valuation_of next.now) (valuation_of now.now)
        × AgreeOn (is_in design.now (valuation_of now.now) region.Unclocked) (valuation_of next.now) (valuation_of state.now)
        × AgreeOn (is_in design.now (valuation_of now.now) region.NoRegister) (valuation_of next.now) (valuation_of zeros.now)) }
{
    agree(design, now, Region::Reset, next, now)
        && agree(design, now, Region::Unclocked, next, state)
        && agree(design, now, Region::NoRegister, next, zeros)
}

/// Whether `now` and `next` are the values and the next states of a cycle, for these samples of the inputs and states
/// of the registers. `state`, `now` and `next` have one word for each signal; `freed` and `chosen` have one entry for
/// each place of the design: whether it is freed, and the value that it then takes.
pub fn is_cycle(
    alloc: Global,
    design: &Design,
    samples: &[Bits],
    state: &[Bits],
    freed: &[bool],
    chosen: &[Bits],
    now: &[Bits],
    next: &[Bits],
) -> Result<bool, NoMemory>
    requires design { CanRun design.now }
    requires samples { IsTrue (samples_fit design.now.signals.items design.now.inputs.items samples.now) }
    requires state { AreWordsOf design.now.signals.items state.now }
    requires chosen { AreChosen design.now freed.now chosen.now }
    requires now { AreWordsOf design.now.signals.items now.now }
    requires next { AreWordsOf design.now.signals.items next.now }
    ensures { IfOk result (λ answer. IsTrue answer
        ↔ Cycle design.now samples.now (valuation_of state.now) (choice_of freed.now chosen.now) (valuation_of now.now) (valuation_of next.now)) }
{
    let zeros = zeros_like(alloc, design, state)?;
    let sampled = sample_words(alloc, design, samples, state)?;
    if !values_hold(design, &sampled, state, &zeros, now) {
        return Ok(false);
    }
    if !next_holds(design, state, &zeros, now, next) {
        return Ok(false);
    }
    let before = words_before(alloc, design, samples, state)?;
    if !blocks_hold(alloc, design, freed, chosen, &before, now, next)? {
        return Ok(false);
    }
    drivers_hold(alloc, design, freed, chosen, now)
}
