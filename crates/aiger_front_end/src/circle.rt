//! Where a circle of drivers is shown.
ghost use Rattle.std.specs.Prelude.{◌≡◌, ◌≤◌, ◌<◌, All, Contains, length};
ghost use Rattle.design_order.specs.Circle.{IsCircle};
ghost use Rattle.aiger_front_end.specs.Refusals.{span_of, ShowsCircle};

use design_core::{Design, Driver};
use loc_base::Span;

/// The least of some numbers.
fn least_of(numbers: &[u32]) -> u32
    requires { 0 < length numbers.now }
    ensures stands { Contains numbers.now result }
    ensures least { All (λ i. result ≤ i) numbers.now }
{
    numbers.iter().copied().min().unwrap()
}

/// The span of a driver.
fn span_of(driver: &Driver) -> Span
    ensures { result ≡ span_of driver.now }
{
    match driver {
        Driver::Cont { span, .. } | Driver::Comb { span, .. } => *span,
    }
}

/// The span of the least driver of a circle.
pub(crate) fn circle_span(design: &Design, drivers: &[u32]) -> Span
    requires { IsCircle design.now drivers.now }
    ensures { ShowsCircle design.now result }
{
    let least = least_of(drivers);
    span_of(&design.drivers[least as usize])
}
