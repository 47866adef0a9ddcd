//! Initial blocks, which assign variables alone (IEEE 1364-2005, 9.9.1).
ghost use Rattle.std.specs.Prelude.{◌≡◌, Some, true, if◌then◌else◌};
ghost use Rattle.design_rules.specs.First.{IsFirst};
ghost use Rattle.bind_rules.specs.Lower.{lower_of};
ghost use Rattle.bind_rules.specs.Rules.{is_set_first, initial_span};
ghost use Rattle.bind_rules.specs.Views.{beside_of};

use crate::beside::Beside;
use crate::spans::no_span;
use assign_rules::is_variable;
use design_core::Design;
use loc_base::Span;
use v_binding::Initial;

/// The name in the first initial block that assigns a signal.
pub(crate) fn initial_span(signal: usize, starts: &[Initial]) -> Span
    ensures { result ≡ initial_span signal starts.now }
{
    for start in starts {
        if start.start().signal() as usize == signal {
            return start.span();
        }
    }
    no_span()
}

/// The lower of two numbers, where there are two.
pub(crate) fn lower_of(one: Option<usize>, other: Option<usize>) -> Option<usize>
    ensures { result ≡ lower_of one other }
{
    match (one, other) {
        (Some(number), Some(second)) => Some(number.min(second)),
        (Some(number), None) => Some(number),
        (None, other) => other,
    }
}

/// The lower of a number, if there is one, and a signal that is no variable.
fn with_set(found: Option<usize>, signal: usize, variable: bool) -> Option<usize>
    ensures { result ≡ (if variable then found else lower_of found (Some signal)) }
{
    if variable {
        found
    } else {
        lower_of(found, Some(signal))
    }
}

/// The first signal that an initial block assigns though it is no variable.
pub(crate) fn first_set(design: &Design, beside: Beside<'_>) -> Option<usize>
    ensures { IsFirst (λ s. is_set_first design.now (beside_of beside.entry) s ≡ true) result }
{
    let mut found = None;
    for start in beside.initial {
        let signal = start.start().signal() as usize;
        let variable = is_variable(&design.signals, signal);
        found = with_set(found, signal, variable);
    }
    found
}
