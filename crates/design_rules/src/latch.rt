ghost use Rattle.std.specs.Prelude.{◌≡◌, ◌<◌, ℕ, true, false, length, IfOk, OnOk};
ghost use Rattle.design_core.specs.Given.{CanRun};
ghost use Rattle.design_bits.specs.Masks.{Adds};
ghost use Rattle.design_rules.specs.First.{IsFirst};
ghost use Rattle.design_rules.specs.Held.{HasMore, comb_drives};
ghost use Rattle.design_rules.specs.Latches.{IsLatch};

use design_bits::{BitSet, DriverBits, add_driver, exceeds};
use design_core::{Design, Driver, Signal};
use loc_base::NoMemory;
use std::alloc::Global;

/// Adds the bits that a combinational block drives.
fn add_comb(set: &mut BitSet, signals: &[Signal], driver: &Driver) -> Result<(), NoMemory>
    ensures { OnOk result (Adds set.old set.new (λ s b. comb_drives signals.now s b driver.now)) }
{
    match driver {
        Driver::Cont { .. } => Ok(()),
        Driver::Comb { .. } => add_driver(set, signals, driver),
    }
}

/// Whether a set has a bit that another lacks.
fn has_more(own: &BitSet, sure: &BitSet) -> bool
    requires { length own.now ≡ length sure.now }
    ensures yes { result ≡ true → HasMore own.now sure.now }
    ensures no { result ≡ false → ¬ HasMore own.now sure.now }
{
    for signal in own.signals() {
        if exceeds(own.mask(*signal), sure.mask(*signal)) {
            return true;
        }
    }
    false
}

/// The first driver that is a combinational block which drives a bit that some path through it does not assign; `None` where there is
/// none. A `case` has a path with no item unless it has a default, or takes an item for each value of at most 8 bits.
pub fn first_latch(alloc: Global, design: &Design) -> Result<Option<usize>, NoMemory>
    requires { CanRun design.now }
    ensures { IfOk result (IsFirst (IsLatch design.now)) }
{
    let mut own = BitSet::new(alloc, design.signals.len())?;
    let mut sure = DriverBits::new(alloc, design.signals.len())?;
    for (number, driver) in design.drivers.iter().enumerate() {
        own.clear();
        add_comb(&mut own, &design.signals, driver)?;
        sure = sure.assigns_of(design, driver)?;
        if has_more(&own, sure.bits()) {
            return Ok(Some(number));
        }
    }
    Ok(None)
}
