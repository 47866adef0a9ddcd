//! Clocked blocks (IEEE 1364.1-2002, 5.2.2).
ghost use Rattle.std.specs.Prelude.{◌≡◌, true, false, IfOk};
ghost use Rattle.std.specs.Option.{option_map_or};
ghost use Rattle.design_core.specs.WellFormed.{is_reset_values};
ghost use Rattle.v_hierarchy.specs.Views.{steps_of};
ghost use Rattle.v_binding.specs.Clocks.{with_reset, without_reset, arms_of, clocked_of};
ghost use Rattle.v_binding.specs.Seen.{names_in};
ghost use Rattle.bind_statements.specs.Parted.{arms_in, judged_in, parted};
ghost use Rattle.bind_clocks.specs.Waits.{resetting_of, wait_of};

use crate::arms::{Arms, arms_of, has_values};
use crate::condition::is_reset;
use bind_clocks::{Resetting, Wait};
use design_core::{Clocked, Reset, Stmt};
use loc_base::NoMemory;
use v_binding::Names;
use v_hierarchy::Steps;

/// A clocked block, and whether it breaks the rule of the clock.
#[derive(Drop)]
pub(crate) struct Judged {
    pub block: Clocked,
    pub breaks: bool,
}

/// A block with its reset.
fn with_reset(reset: Resetting<'_>, arms: Arms) -> Clocked
    ensures { result ≡ with_reset (resetting_of reset.entry) (arms_in arms) }
{
    let Arms { values, body } = arms;
    Clocked {
        reset: Some(Reset {
            signal: reset.input,
            level: reset.level,
            values,
        }),
        body,
    }
}

/// A block as it stands.
fn without_reset(body: Stmt, breaks: bool) -> Judged
    ensures block { result.block ≡ without_reset body }
    ensures breaks { result.breaks ≡ breaks }
{
    Judged {
        block: Clocked { reset: None, body },
        breaks,
    }
}

/// A block with two arms, of which the first has the values of a reset.
fn in_arms(reset: Resetting<'_>, body: Stmt) -> Judged
    requires { option_map_or (λ arms. is_reset_values arms.values) (arms_of body) false ≡ true }
    ensures { judged_in result ≡ parted (resetting_of reset.entry) true body }
{
    let arms = arms_of(body).unwrap();
    Judged {
        block: with_reset(reset, arms),
        breaks: false,
    }
}

/// A block that waits for the clock and a reset, and begins with the condition that the reset is active where `begins` says so.
fn parted(reset: Resetting<'_>, begins: bool, body: Stmt) -> Judged
    ensures { judged_in result ≡ parted (resetting_of reset.entry) begins body }
{
    if begins && has_values(&body) {
        in_arms(reset, body)
    } else {
        without_reset(body, true)
    }
}

/// A clocked block by what it waits for, and whether it breaks the rule of the clock. One that does has its body as it stands.
pub(crate) fn clocked_of(
    names: &Names<'_>,
    wait: Wait<'_>,
    steps: &Steps<'_>,
    body: Stmt,
) -> Result<Judged, NoMemory>
    ensures { IfOk result (λ judged. judged_in judged ≡ clocked_of (names_in names.now) (wait_of wait.entry) (steps_of steps.now) body) }
{
    match wait {
        Wait::Clock => Ok(without_reset(body, false)),
        Wait::Others => Ok(without_reset(body, true)),
        Wait::ClockAnd(reset) => {
            let begins = is_reset(names, reset, steps)?;
            Ok(parted(reset, begins, body))
        }
    }
}
