//! Where a broken rule is shown.
ghost use Rattle.std.specs.Prelude.{◌≡◌};
ghost use Rattle.bind_rules.specs.Beside.{no_span};
ghost use Rattle.bind_rules.specs.Rules.{span_at, span_of, driver_span};

use design_core::{Design, Driver};
use loc_base::Span;

/// No place in a text.
pub(crate) fn no_span() -> Span
    ensures { result ≡ no_span }
{
    Span { from: 0, to: 0 }
}

/// The span at a place of a list.
pub(crate) fn span_at(spans: &[Span], place: usize) -> Span
    ensures { result ≡ span_at spans.now place }
{
    match spans.get(place) {
        Some(span) => *span,
        None => no_span(),
    }
}

/// The text of a driver.
fn span_of(driver: &Driver) -> Span
    ensures { result ≡ span_of driver.now }
{
    match driver {
        Driver::Cont { span, .. } | Driver::Comb { span, .. } => *span,
    }
}

/// The text of the driver of that number.
pub(crate) fn driver_span(design: &Design, number: usize) -> Span
    ensures { result ≡ driver_span design.now number }
{
    match design.drivers.get(number) {
        Some(driver) => span_of(driver),
        None => no_span(),
    }
}
