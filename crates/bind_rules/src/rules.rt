//! The first rule that a bound design breaks, and where.
ghost use Rattle.std.specs.Prelude.{◌≡◌, true, option_map, if◌then◌else◌, IfOk, IfSome};
ghost use Rattle.design_core.specs.Given.{CanRun};
ghost use Rattle.design_rules.specs.First.{IsFirst};
ghost use Rattle.bind_rules.specs.Lower.{is_this};
ghost use Rattle.bind_rules.specs.Rules.{span_at, initial_span, is_mixed, mixed_span, Races, Assigns, Clocks, Latches, Undriven, Driven, IsFirstBroken};
ghost use Rattle.bind_rules.specs.Views.{beside_of};

use crate::beside::Beside;
use crate::initial::{first_set, initial_span, lower_of};
use crate::spans::{driver_span, span_at};
use assign_rules::{first_misassigned, first_race};
use design_core::Design;
use design_rules::{first_driven_twice, first_latch, first_undriven, is_too_large};
use loc_base::{NoMemory, Span};
use std::alloc::Global;
use v_binding::BindErr;

/// What a clocked block assigns by `=` is used elsewhere.
fn races(alloc: Global, design: &Design, beside: Beside<'_>) -> Result<Option<BindErr>, NoMemory>
    requires { CanRun design.now }
    ensures { IfOk result (Races design.now (beside_of beside.entry)) }
{
    match first_race(alloc, design, beside.homes)? {
        Some(signal) => Ok(Some(BindErr::RaceRead(span_at(beside.spans, signal)))),
        None => Ok(None),
    }
}

/// Whether a number is the one that there is.
fn is_this(found: Option<usize>, number: usize) -> bool
    ensures { result ≡ is_this found number }
{
    match found {
        Some(own) => own == number,
        None => false,
    }
}

/// Where a signal is shown that is assigned in two ways, or in one that it can't be.
fn shown(beside: Beside<'_>, misassigned: Option<usize>, signal: usize) -> Span
    ensures { result ≡ (if is_this misassigned signal then span_at beside.entry.spans.now signal else initial_span signal beside.entry.initial.now) }
{
    if is_this(misassigned, signal) {
        span_at(beside.spans, signal)
    } else {
        initial_span(signal, beside.initial)
    }
}

/// A signal that is assigned in two ways, or in one that it can't be, and where that is shown.
#[derive(Clone, Copy)]
struct Mixed {
    signal: usize,
    span: Span,
}

/// The first such signal.
fn first_mixed(
    alloc: Global,
    design: &Design,
    beside: Beside<'_>,
) -> Result<Option<Mixed>, NoMemory>
    ensures first { IfOk result (λ found. IsFirst (λ s. is_mixed design.now (beside_of beside.entry) s ≡ true) (option_map (λ m. m.signal) found)) }
    ensures span { IfOk result (λ found. IfSome found (λ m. m.span ≡ mixed_span design.now (beside_of beside.entry) m.signal)) }
{
    let misassigned = first_misassigned(alloc, design, beside.homes)?;
    match lower_of(misassigned, first_set(design, beside)) {
        Some(signal) => Ok(Some(Mixed {
            signal,
            span: shown(beside, misassigned, signal),
        })),
        None => Ok(None),
    }
}

/// A signal is assigned in two ways, or in one that it can't be.
fn assigns(alloc: Global, design: &Design, beside: Beside<'_>) -> Result<Option<BindErr>, NoMemory>
    requires { CanRun design.now }
    ensures { IfOk result (Assigns design.now (beside_of beside.entry)) }
{
    match first_mixed(alloc, design, beside)? {
        Some(mixed) => Ok(Some(BindErr::MixedAssign(mixed.span))),
        None => races(alloc, design, beside),
    }
}

/// The clock.
fn clocks(alloc: Global, design: &Design, beside: Beside<'_>) -> Result<Option<BindErr>, NoMemory>
    requires { CanRun design.now }
    ensures { IfOk result (Clocks design.now (beside_of beside.entry)) }
{
    match beside.clock_fault {
        Some(span) => Ok(Some(BindErr::Clock(span))),
        None => assigns(alloc, design, beside),
    }
}

/// A combinational block holds a bit.
fn latches(alloc: Global, design: &Design, beside: Beside<'_>) -> Result<Option<BindErr>, NoMemory>
    requires { CanRun design.now }
    ensures { IfOk result (Latches design.now (beside_of beside.entry)) }
{
    match first_latch(alloc, design)? {
        Some(number) => Ok(Some(BindErr::Latch(driver_span(design, number)))),
        None => clocks(alloc, design, beside),
    }
}

/// A bit of a net that is used has no driver.
fn undriven(alloc: Global, design: &Design, beside: Beside<'_>) -> Result<Option<BindErr>, NoMemory>
    requires { CanRun design.now }
    ensures { IfOk result (Undriven design.now (beside_of beside.entry)) }
{
    match first_undriven(alloc, design)? {
        Some(signal) => Ok(Some(BindErr::Undriven(span_at(beside.spans, signal)))),
        None => latches(alloc, design, beside),
    }
}

/// A bit has two drivers.
fn driven(alloc: Global, design: &Design, beside: Beside<'_>) -> Result<Option<BindErr>, NoMemory>
    requires { CanRun design.now }
    ensures { IfOk result (Driven design.now (beside_of beside.entry)) }
{
    match first_driven_twice(alloc, design)? {
        Some(signal) => Ok(Some(BindErr::MultiDriver(span_at(beside.spans, signal)))),
        None => undriven(alloc, design, beside),
    }
}

/// The first rule that a design breaks, with the first signal or block that breaks it, in this order: its size; one driver a bit, and
/// none for an input; no used bit without a driver; no combinational block that holds a value; the clock; each signal assigned in one
/// way; no race. `None` where it breaks none.
pub fn first_broken(
    alloc: Global,
    design: &Design,
    beside: Beside<'_>,
) -> Result<Option<BindErr>, NoMemory>
    requires { CanRun design.now }
    ensures { IfOk result (IsFirstBroken design.now (beside_of beside.entry)) }
{
    if is_too_large(design) {
        Ok(Some(BindErr::Places))
    } else {
        driven(alloc, design, beside)
    }
}
