//! A design with the order of its drivers.
ghost use Rattle.std.specs.Prelude.{◌≡◌, ◌<◌, ◌^◌, ℕ, List, Option, IfOk, IfErr, length};
ghost use Rattle.design_core.specs.WellFormed.{IsWellFormed};
ghost use Rattle.design_order.specs.DriverOrder.{IsTheOrder};
ghost use Rattle.aiger_design.specs.Means.{IsFile};
ghost use Rattle.aiger_front_end.specs.Errors.{Refuses};
ghost use Rattle.aiger_front_end.specs.Refusals.{IsRefusal};

use crate::circle::circle_span;
use crate::error::GraphErr;
use aiger_design::AigerErr;
use design_core::Design;
use design_order::{OrderErr, order};
use front_end::Ordered;
use std::alloc::Global;

/// A design with the order in which its drivers are carried out.
pub(crate) fn ordered(alloc: Global, design: Design) -> Result<Ordered, GraphErr>
    requires well_formed { IsWellFormed design }
    requires few { length design.drivers.items < 2 ^ 32 }
    ensures same { IfOk result (λ o. o.design ≡ design) }
    ensures ok { IfOk result (λ o. IsTheOrder design o.order) }
    ensures err { (text top : List ℕ) (clock : Option (List ℕ)) → IsFile text top clock design
        → IfErr result (Refuses (IsRefusal text top clock)) }
{
    match order(alloc, &design) {
        Ok(order) => Ok(Ordered { design, order }),
        Err(OrderErr::NoMemory) => Err(GraphErr::Text(AigerErr::NoMemory)),
        Err(OrderErr::Circle { drivers }) => {
            Err(GraphErr::Circle(circle_span(&design, drivers.as_slice())))
        }
    }
}
