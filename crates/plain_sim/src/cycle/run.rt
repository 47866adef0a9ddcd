ghost use Rattle.std.specs.Prelude.{◌+◌, ◌<◌, IsTrue, IfOk, IfSome, IfNone};
ghost use Rattle.design_core.specs.Words.{valuation_of, AreWordsOf};
ghost use Rattle.design_core.specs.WellFormed.{IsWellFormed};
ghost use Rattle.design_core.specs.TraceFits.{IsTraceOf};
ghost use Rattle.design_core.specs.Reads.{IsOrder};
ghost use Rattle.design_core.specs.Run.{Meets};
ghost use Rattle.plain_sim.specs.EvaluateCycle.{MeetsFrom};
ghost use Rattle.design_core.specs.Given.{CanRun, AreChosenThroughout, freed_of, choices_of};

use crate::cycle::compute::{CycleWords, compute_cycle};
use crate::cycle::outputs::are_right;
use crate::cycle::start::start_words;
use design_core::{Design, Trace};
use loc_base::{Bits, NoMemory};
use plain_values::row;
use std::alloc::Global;

/// The state after a cycle whose outputs are right; none where there is no such cycle.
fn step(
    alloc: Global,
    design: &Design,
    order: &[u32],
    trace: &Trace,
    freed: &[bool],
    chosen: &[Bits],
    t: u32,
    state: &[Bits],
) -> Result<Option<Vec<Bits>>, NoMemory>
    requires design { CanRun design.now }
    requires trace { IsTraceOf design.now trace.now }
    requires chosen { AreChosenThroughout design.now trace.now freed.now chosen.now }
    requires time { t < trace.now.cycles }
    requires state { AreWordsOf design.now.signals.items state.now }
    ensures words { IfOk result (λ found. IfSome found (λ next. AreWordsOf design.now.signals.items next.items)) }
    ensures right { IfOk result (λ found. IfSome found (λ next.
        MeetsFrom design.now trace.now (freed_of freed.now) (choices_of design.now chosen.now) (t + 1) (valuation_of next.items)
        → MeetsFrom design.now trace.now (freed_of freed.now) (choices_of design.now chosen.now) t (valuation_of state.now))) }
    ensures only { IfOk result (λ found. IfSome found (λ next. IsWellFormed design.now → IsOrder design.now order.now
        → MeetsFrom design.now trace.now (freed_of freed.now) (choices_of design.now chosen.now) t (valuation_of state.now)
        → MeetsFrom design.now trace.now (freed_of freed.now) (choices_of design.now chosen.now) (t + 1) (valuation_of next.items))) }
    ensures none { IfOk result (λ found. IfNone found (IsWellFormed design.now → IsOrder design.now order.now
        → ¬ MeetsFrom design.now trace.now (freed_of freed.now) (choices_of design.now chosen.now) t (valuation_of state.now))) }
{
    let samples = row(&trace.inputs, design.inputs.len(), t as usize);
    let expected = row(&trace.expected, design.outputs.len(), t as usize);
    let values = row(chosen, design.places.len(), t as usize);
    match compute_cycle(alloc, design, order, samples, state, freed, values)? {
        Some(CycleWords { now, next }) => {
            if are_right(design, expected, &now) {
                Ok(Some(next))
            } else {
                Ok(None)
            }
        }
        None => Ok(None),
    }
}

/// Whether the values chosen make the trace right, the drivers being computed in an order. `freed` has one entry for each
/// place of the design, whether it is freed; `chosen` has one word for each place in each cycle, the value that it then
/// takes: first all of cycle 0.
pub fn meets(
    alloc: Global,
    design: &Design,
    order: &[u32],
    trace: &Trace,
    freed: &[bool],
    chosen: &[Bits],
) -> Result<bool, NoMemory>
    requires design { CanRun design.now }
    requires trace { IsTraceOf design.now trace.now }
    requires chosen { AreChosenThroughout design.now trace.now freed.now chosen.now }
    ensures right { IfOk result (λ answer. IsTrue answer → Meets design.now trace.now (freed_of freed.now) (choices_of design.now chosen.now)) }
    ensures exact { IfOk result (λ answer. IsWellFormed design.now → IsOrder design.now order.now
        → Meets design.now trace.now (freed_of freed.now) (choices_of design.now chosen.now) → IsTrue answer) }
{
    let mut state = start_words(alloc, design)?;
    for t in 0..trace.cycles {
        match step(alloc, design, order, trace, freed, chosen, t, &state)? {
            Some(next) => state = next,
            None => return Ok(false),
        }
    }
    Ok(true)
}
