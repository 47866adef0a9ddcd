//! What the rules want to know beside a design.
ghost use Rattle.std.specs.Prelude.{◌≡◌};
ghost use Rattle.bind_rules.specs.Beside.{clock_fault};

use loc_base::Span;
use v_binding::Initial;

/// What the rules want to know beside a design: for each signal the first word of its array, and the signal itself where it is no word
/// of one, and the name that declares it; the start values of initial blocks; and where the rule of the clock is broken.
#[derive(Clone, Copy)]
pub struct Beside<'a> {
    pub homes: &'a [u32],
    pub spans: &'a [Span],
    pub initial: &'a [Initial],
    pub clock_fault: Option<Span>,
}

/// Where the rule of the clock is broken: it is named and no 1-bit input, or a block waits for another edge or has a reset of another
/// form, or a driver or block reads it.
pub fn clock_fault(
    misnamed: bool,
    misclocked: Option<Span>,
    clock_read: Option<Span>,
) -> Option<Span>
    ensures { result ≡ clock_fault misnamed misclocked clock_read }
{
    if misnamed {
        Some(Span { from: 0, to: 0 })
    } else {
        misclocked.or(clock_read)
    }
}
