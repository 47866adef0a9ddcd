ghost use Rattle.std.specs.Prelude.{◌≡◌, ◌≤◌, ◌<◌, ◌^◌, ℕ, List, All, IsTrue, IfOk, IfSome, length, map, slice_index, Ok, Some, None};
ghost use Rattle.std.specs.List.{list_all};
ghost use Rattle.loc_base.specs.Bits.{width_of, value_of};
ghost use Rattle.design_core.specs.Words.{AreWordsOf};
ghost use Rattle.design_core.specs.WellFormed.{IsWellFormed, signal_fits};
ghost use Rattle.design_core.specs.TraceFits.{IsTraceOf};
ghost use Rattle.design_core.specs.Works.{IsSet, Works};
ghost use Rattle.plain_list.specs.Network.{IsNetwork};
ghost use Rattle.plain_list.specs.Trial.{AreNumbersFor};
ghost use Rattle.design_core.specs.Explained.{Explains, is_one_of, place_width};
ghost use Rattle.plain_list.specs.Groups.{groups_of, places_in};
ghost use Rattle.plain_list.specs.Rows.{AreExplained, CanBeRight};
ghost use Rattle.design_core.specs.Explained.{AreValuesOf};

use crate::explain::explain;
use design_core::{Design, Signal, Trace, Values};
use loc_base::{Bits, NoMemory};
use std::alloc::Global;

/// A word of 0 for each signal.
fn blank_words(alloc: Global, signals: &[Signal]) -> Result<Vec<Bits>, NoMemory>
    requires { IsTrue (list_all signal_fits signals.now) }
    ensures { IfOk result (λ words. AreWordsOf signals.now words.items) }
{
    let mut words = Vec::new(alloc);
    for signal in signals {
        words.push(Bits::new(signal.width, 0).unwrap())?;
    }
    Ok(words)
}

/// The number 0 for each place.
fn zeros(alloc: Global, d: &Design, places: &[u32]) -> Result<Vec<u128>, NoMemory>
    ensures { IfOk result (λ numbers. AreNumbersFor d.now places.now numbers.items) }
{
    let mut numbers = Vec::new(alloc);
    for _place in places {
        numbers.push(0)?;
    }
    Ok(numbers)
}

/// The places of a set of suspects.
fn places_in(alloc: Global, members: &[u32]) -> Result<Vec<u32>, NoMemory>
    requires { All (λ suspect. 1 ≤ suspect) members.now }
    ensures { IfOk result (λ places. places.items ≡ places_in members.now) }
{
    let mut places = Vec::new(alloc);
    for i in 0..members.len() {
        places.push(members[i] - 1)?;
    }
    Ok(places)
}

/// Rows of values of the places, one for each cycle of the traces, that make every trace right, and `None` where some
/// trace has no such values.
fn explain_all(
    alloc: Global,
    d: &Design,
    order: &[u32],
    traces: &[Trace],
    places: &[u32],
    numbers: &mut [u128],
    words: &mut [Bits],
) -> Result<Option<Vec<Bits>>, NoMemory>
    requires network { IsNetwork d.now order.now }
    requires traces { All (IsTraceOf d.now) traces.now }
    requires places { All (λ p. p < length d.now.places.items) places.now }
    requires numbers { AreNumbersFor d.now places.now numbers.old }
    requires words { AreWordsOf d.now.signals.items words.old }
    ensures some { IfOk result (λ answer. IfSome answer (λ rows. AreExplained d.now order.now traces.now places.now rows.items (length traces.now))) }
    ensures none { result ≡ Ok None → ¬ CanBeRight d.now traces.now (is_one_of places.now) }
{
    let mut rows = Vec::new(alloc);
    for trace in traces {
        if !explain(alloc, d, order, trace, places, numbers, words, &mut rows)? {
            return Ok(None);
        }
    }
    Ok(Some(rows))
}

/// Whether a set of suspects works: values of its places that make every trace right, and `None` where there are none.
pub(crate) fn works(
    alloc: Global,
    d: &Design,
    order: &[u32],
    traces: &[Trace],
    members: &[u32],
) -> Result<Option<Values>, NoMemory>
    requires network { IsNetwork d.now order.now }
    requires traces { All (IsTraceOf d.now) traces.now }
    requires set { IsSet (groups_of d.now) members.now }
    ensures some { IfOk result (λ answer. IfSome answer (λ values. Explains d.now traces.now (groups_of d.now) members.now values)) }
    ensures shape { IfOk result (λ answer. IfSome answer (λ values. AreValuesOf d.now traces.now (groups_of d.now) members.now values)) }
    ensures none { result ≡ Ok None → ¬ Works d.now traces.now (groups_of d.now) members.now }
{
    let places = places_in(alloc, members)?;
    let mut numbers = zeros(alloc, d, &places)?;
    let mut words = blank_words(alloc, &d.signals)?;
    match explain_all(alloc, d, order, traces, &places, &mut numbers, &mut words)? {
        Some(rows) => Ok(Some(Values { places, rows })),
        None => Ok(None),
    }
}
