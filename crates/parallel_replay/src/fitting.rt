//! Whether values fit a design and the traces that they are chosen for.

ghost use Rattle.std.specs.Prelude.{◌≡◌, ◌↔◌, ◌+◌, ◌*◌, ◌^◌, ◌<◌, ◌≤◌, ℕ, All, IsTrue, Some, length, nat_lt, slice_get};
ghost use Rattle.std.specs.List.{list_all};
ghost use Rattle.design_core.specs.Explained.{cycles_before, place_width, row_of, IsRow};
ghost use Rattle.cycle_sim.specs.Misses.{AreValuesFor};
ghost use Rattle.parallel_replay.specs.Fitting.{AreRowsBefore, row_fits};

use design_core::{Design, Trace, Values};
use loc_base::Bits;
use plain_values::row;

/// Whether each number of a list is below a count.
fn are_below(numbers: &[u32], count: usize) -> bool
    ensures { IsTrue result ↔ All (λ p. p < count) numbers.now }
{
    are_less(numbers, count)
}

/// The same, as a test of the list.
fn are_less(numbers: &[u32], count: usize) -> bool
    ensures { result ≡ list_all (λ i. nat_lt i count) numbers.now }
{
    numbers.iter().all(|number| (*number as usize) < count)
}

/// The width of a place, 0 where there is none of that number.
fn place_width(design: &Design, place: usize) -> u8
    ensures { result ≡ place_width design.now place }
{
    match design.places.get(place) {
        Some(place) => place.width,
        None => 0,
    }
}

/// Whether there is a word for each of some places, of the place's width.
fn row_fits(design: &Design, places: &[u32], words: &[Bits]) -> bool
    ensures { result ≡ row_fits design.now places.now words.now }
{
    match places.split_first() {
        Some((place, places)) => match words.split_first() {
            Some((word, words)) => {
                word.width() == place_width(design, *place as usize)
                    && row_fits(design, places, words)
            }
            None => false,
        },
        None => words.is_empty(),
    }
}

/// The trace of a number.
#[tactic(auto, using(plain_values::proofs::EvaluateWords::slice_get_at))]
fn trace_at(traces: &[Trace], j: usize) -> &Trace
    requires { j < length traces.now }
    ensures { slice_get traces.now j ≡ Some result.now }
{
    &traces[j]
}

/// The number of cycles of a trace.
fn cycle_count(trace: &Trace) -> usize
    ensures value { result ≡ trace.now.cycles }
    ensures few { result < 2 ^ 32 }
{
    trace.cycles as usize
}

/// The number of cycles of some traces.
#[tactic(auto, using(crate::proofs::FittingLaws::cycles_rules))]
fn all_cycles(traces: &[Trace]) -> usize
    requires { length traces.now < 2 ^ 32 }
    ensures { result ≡ cycles_before traces.now (length traces.now) }
{
    let mut cycles = 0;
    for j in 0..traces.len() {
        cycles += cycle_count(trace_at(traces, j));
    }
    cycles
}

/// Whether so many words are so many rows of a width.
fn has_rows(words: usize, rows: usize, width: usize) -> bool
    ensures { IsTrue result ↔ (words ≡ rows * width) }
{
    words as u128 == rows as u128 * width as u128
}

/// Whether the row of a number fits.
#[tactic(auto, using(crate::proofs::FittingLaws::fitting_rules))]
fn fits_at(design: &Design, values: &Values, r: usize) -> bool
    requires { r * length values.now.places.items + length values.now.places.items ≤ length values.now.rows.items }
    ensures { IsTrue result ↔ IsRow design.now values.now.places.items (row_of values.now.places.items values.now.rows.items r) }
{
    let words = row(&values.rows, values.places.len(), r);
    row_fits(design, &values.places, words)
}

/// Whether each of so many rows fits.
#[tactic(auto, using(crate::proofs::FittingLaws::rows_rules))]
fn rows_fit(design: &Design, values: &Values, rows: usize) -> bool
    requires { rows * length values.now.places.items ≤ length values.now.rows.items }
    ensures { IsTrue result ↔ AreRowsBefore design.now values.now rows }
{
    for r in 0..rows {
        if !fits_at(design, values, r) {
            return false;
        }
    }
    true
}

/// Whether values are of places of a design, a word of its width for each of them in each cycle of some traces: what
/// `replay` asks of its values.
#[tactic(auto, using(crate::proofs::FittingLaws::values_rules))]
pub fn are_values_for(design: &Design, traces: &[Trace], values: &Values) -> bool
    requires { length traces.now < 2 ^ 32 }
    ensures { IsTrue result ↔ AreValuesFor design.now traces.now values.now }
{
    if !are_below(&values.places, design.places.len()) {
        return false;
    }
    let cycles = all_cycles(traces);
    if !has_rows(values.rows.len(), cycles, values.places.len()) {
        return false;
    }
    if values.places.is_empty() {
        return true;
    }
    rows_fit(design, values, cycles)
}
