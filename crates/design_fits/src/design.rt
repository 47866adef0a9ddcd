ghost use Rattle.std.specs.Prelude.{◌≡◌, ◌↔◌, IsTrue};
ghost use Rattle.std.specs.List.{list_all};
ghost use Rattle.design_core.specs.WellFormed.{signal_fits, driver_fits, reset_fits, clocked_fits};
ghost use Rattle.design_core.specs.Given.{CanRun};

use crate::parts::set_fits;
use crate::reset::is_reset_values;
use crate::statement::statement_fits;
use crate::widths::signal_fits;
use design_core::{Clocked, Design, Driver, Reset};
use plain_values::{is_listed, width_at};

/// Whether the expressions and assignments of a driver fit.
fn driver_fits(design: &Design, driver: &Driver) -> bool
    ensures { result ≡ driver_fits design.now.signals.items design.now.places.items driver.now }
{
    match driver {
        Driver::Cont {
            target,
            value,
            place,
            ..
        } => set_fits(
            &design.signals,
            &design.places,
            *place,
            &target.parts,
            value,
        ),
        Driver::Comb { body, .. } => statement_fits(&design.signals, &design.places, body),
    }
}

/// Whether a reset's signal is a 1-bit input that traces give, and its values are constants.
fn reset_fits(design: &Design, reset: &Reset) -> bool
    ensures { result ≡ reset_fits design.now reset.now }
{
    is_listed(design, reset.signal as usize)
        && width_at(&design.signals, reset.signal as usize) == 1
        && is_reset_values(&reset.values)
        && statement_fits(&design.signals, &design.places, &reset.values)
}

/// Whether the statements of a clocked block fit.
fn clocked_fits(design: &Design, block: &Clocked) -> bool
    ensures { result ≡ clocked_fits design.now block.now }
{
    statement_fits(&design.signals, &design.places, &block.body)
        && match &block.reset {
            Some(reset) => reset_fits(design, reset),
            None => true,
        }
}

/// Whether all signals fit.
fn signals_fit(design: &Design) -> bool
    ensures { result ≡ list_all signal_fits design.now.signals.items }
{
    design.signals.iter().all(|signal| signal_fits(signal))
}

/// Whether all drivers fit.
fn drivers_fit(design: &Design) -> bool
    ensures { result ≡ list_all (driver_fits design.now.signals.items design.now.places.items) design.now.drivers.items }
{
    design
        .drivers
        .iter()
        .all(|driver| driver_fits(design, driver))
}

/// Whether all clocked blocks fit.
fn blocks_fit(design: &Design) -> bool
    ensures { result ≡ list_all (clocked_fits design.now) design.now.clocked.items }
{
    design
        .clocked
        .iter()
        .all(|block| clocked_fits(design, block))
}

/// Whether the signals and assignments of a design fit: whether it can be carried out. A well-formed design can.
pub fn can_run(design: &Design) -> bool
    ensures { IsTrue result ↔ CanRun design.now }
{
    signals_fit(design) && drivers_fit(design) && blocks_fit(design)
}
