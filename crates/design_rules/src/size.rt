ghost use Rattle.std.specs.Prelude.{◌≡◌};
ghost use Rattle.design_rules.specs.Size.{is_too_large};

use design_core::Design;

/// Whether a design has more than 65,536 places, 1,048,576 signals, or 1,048,576 drivers and clocked blocks together.
pub fn is_too_large(design: &Design) -> bool
    ensures { result ≡ is_too_large design.now }
{
    design.places.len() > 65_536
        || design.signals.len() > 1_048_576
        || design.drivers.len() + design.clocked.len() > 1_048_576
}
