ghost use Rattle.std.specs.Prelude.{◌<◌, ◌^◌, length, IfOk, IfErr};
ghost use Rattle.design_core.specs.Given.{CanRun};
ghost use Rattle.design_order.specs.DriverOrder.{IsTheOrder};
ghost use Rattle.design_order.specs.Refusal.{IsRefusal};

use crate::error::OrderErr;
use crate::least::least_order;
use crate::needs::needs_of;
use design_core::Design;
use design_core::types::Order;
use loc_base::Items;
use std::alloc::Global;

/// The order in which the drivers of a design are carried out: again and again the least one all of whose dependencies were taken.
/// `Circle` where drivers depend on each other in a circle, and then such a circle.
pub fn order(alloc: Global, design: &Design) -> Result<Order, OrderErr>
    requires fits { CanRun design.now }
    requires few { length design.now.drivers.items < 2 ^ 32 }
    ensures ordered { IfOk result (IsTheOrder design.now) }
    ensures refused { IfErr result (IsRefusal design.now) }
{
    let needs = needs_of(alloc, design)?;
    match least_order(alloc, &needs) {
        Ok(order) => Ok(Items::from_vec(order)),
        Err(error) => Err(error),
    }
}
