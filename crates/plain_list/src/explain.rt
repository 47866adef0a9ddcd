ghost use Rattle.std.specs.Prelude.{◌≡◌, ◌≤◌, ◌<◌, ◌+◌, List, ℕ, All, length, Ok, true, false};
ghost use Rattle.design_core.specs.Words.{AreWordsOf};
ghost use Rattle.design_core.specs.TraceFits.{IsTraceOf};
ghost use Rattle.design_core.specs.Run.{Choices, Meets, samples_at, expected_at};
ghost use Rattle.design_core.specs.Works.{AreOfWidth};
ghost use Rattle.plain_list.specs.Network.{IsNetwork};
ghost use Rattle.plain_list.specs.Trial.{AreNumbersFor};
ghost use Rattle.design_core.specs.Explained.{is_one_of};
ghost use Rattle.plain_list.specs.Rightness.{AreRight};
ghost use Rattle.plain_list.specs.Rows.{AreAdded};
ghost use Rattle.design_core.specs.Explained.{AreRows};

use crate::rows::{expected_of, row_for, samples_of};
use crate::trial::try_values;
use design_core::{Design, Trace};
use loc_base::{Bits, NoMemory};
use std::alloc::Global;

/// Puts every number at 0.
fn zero_all(d: &Design, places: &[u32], numbers: &mut [u128])
    requires { AreNumbersFor d.now places.now numbers.old }
    ensures { AreNumbersFor d.now places.now numbers.new }
{
    for i in 0..numbers.len() {
        numbers[i] = 0;
    }
}

/// Looks for numbers for the places, from 0 on, that make a cycle right.
fn explain_cycle(
    d: &Design,
    order: &[u32],
    trace: &Trace,
    cycle: u32,
    places: &[u32],
    numbers: &mut [u128],
    words: &mut [Bits],
) -> bool
    requires network { IsNetwork d.now order.now }
    requires trace { IsTraceOf d.now trace.now }
    requires cycle { cycle < trace.now.cycles }
    requires places { All (λ p. p < length d.now.places.items) places.now }
    requires numbers { AreNumbersFor d.now places.now numbers.old }
    requires words { AreWordsOf d.now.signals.items words.old }
    ensures words { AreWordsOf d.now.signals.items words.new }
    ensures numbers { AreNumbersFor d.now places.now numbers.new }
    ensures right { result ≡ true → AreRight d.now order.now (samples_at d.now trace.now cycle) (expected_at d.now trace.now cycle) places.now numbers.new }
    ensures none { result ≡ false → (tried : List ℕ) → AreNumbersFor d.now places.now tried
        → ¬ AreRight d.now order.now (samples_at d.now trace.now cycle) (expected_at d.now trace.now cycle) places.now tried }
{
    zero_all(d, places, numbers);
    let samples = samples_of(d, trace, cycle);
    let expected = expected_of(d, trace, cycle);
    try_values(d, order, samples, expected, places, numbers, 0, words)
}

/// Appends to the rows one for each cycle of a trace, so that they make the trace right: true where it could, false
/// where no values of the places make it right. The rows don't matter then.
pub(crate) fn explain(
    alloc: Global,
    d: &Design,
    order: &[u32],
    trace: &Trace,
    places: &[u32],
    numbers: &mut [u128],
    words: &mut [Bits],
    rows: &mut Vec<Bits>,
) -> Result<bool, NoMemory>
    requires network { IsNetwork d.now order.now }
    requires trace { IsTraceOf d.now trace.now }
    requires places { All (λ p. p < length d.now.places.items) places.now }
    requires numbers { AreNumbersFor d.now places.now numbers.old }
    requires words { AreWordsOf d.now.signals.items words.old }
    ensures words { AreWordsOf d.now.signals.items words.new }
    ensures numbers { AreNumbersFor d.now places.now numbers.new }
    ensures right { result ≡ Ok true → (first : ℕ) → AreRows d.now places.now rows.old.items first
        → AreAdded d.now order.now trace.now places.now rows.old.items rows.new.items first trace.now.cycles }
    ensures none { result ≡ Ok false → (c : Choices) → AreOfWidth d.now (is_one_of places.now) c → ¬ Meets d.now trace.now (is_one_of places.now) c }
{
    for cycle in 0..trace.cycles {
        if !explain_cycle(d, order, trace, cycle, places, numbers, words) {
            return Ok(false);
        }
        let row = row_for(alloc, d, places, numbers)?;
        rows.extend_from_slice(&row)?;
    }
    Ok(true)
}
