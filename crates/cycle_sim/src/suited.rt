//! Whether a design can be simulated in an order of its drivers.

ghost use Rattle.std.specs.Prelude.{◌≡◌, ◌↔◌, IsTrue, nat_lt};
ghost use Rattle.std.specs.List.{list_all};
ghost use Rattle.cycle_sim.specs.Simulated.{CanSimulate};

use design_core::Design;
use design_core::types::Order;
use design_fits::can_run;

/// Whether each number of a list is below a count.
fn are_below(numbers: &[u32], count: usize) -> bool
    ensures { result ≡ list_all (λ i. nat_lt i count) numbers.now }
{
    match numbers.split_first() {
        Some((first, rest)) => (*first as usize) < count && are_below(rest, count),
        None => true,
    }
}

/// Whether `Sim::new` takes a design with these numbers of its drivers: the parts of the design fit, and there are drivers
/// of these numbers.
pub fn can_simulate(design: &Design, order: &Order) -> bool
    ensures { IsTrue result ↔ CanSimulate design.now order.now }
{
    can_run(design) && are_below(order, design.drivers.len())
}
