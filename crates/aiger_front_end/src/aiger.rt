//! The front end for and-inverter graphs.
ghost use Rattle.std.specs.Prelude.{IfOk, IfErr};
ghost use Rattle.front_end.specs.By.{by_of};
ghost use Rattle.front_end.specs.Means.{IsReady};
ghost use Rattle.aiger_design.specs.Means.{IsFile};
ghost use Rattle.aiger_front_end.specs.Errors.{IsCodeOf, Refuses};
ghost use Rattle.aiger_front_end.specs.FrontEnd.{HasError, means_by};
ghost use Rattle.aiger_front_end.specs.Meaning.{Means};
ghost use Rattle.aiger_front_end.specs.Refusals.{IsRefusal};

use crate::codes::graph_code;
use crate::error::GraphErr;
use crate::laws::no_refusal;
use crate::order::ordered;
use aiger_design::{aiger, file_is_driven_once, file_is_not_too_large, file_is_well_formed};
use front_end::{FrontEnd, Ordered, ReadBy};
use refusal::Refusal;
use std::alloc::Global;

/// The front end for and-inverter graphs in ASCII AIGER.
#[derive(Clone, Copy, Debug)]
pub struct Aiger;

/// The design that a text means, with the order of its drivers.
fn read_text(alloc: Global, text: &[u8], by: &ReadBy<'_>) -> Result<Ordered, GraphErr>
    ensures means { IfOk result (λ o. means_by text.now (by_of by.now) o.design) }
    ensures ready { IfOk result (λ o. IsReady o.design o.order) }
    ensures refused { IfErr result (Refuses (IsRefusal text.now by.now.top.now (by_of by.now).clock)) }
{
    let design = aiger(alloc, text, by.top, by.clock)?;
    file_is_well_formed();
    file_is_driven_once();
    file_is_not_too_large();
    ordered(alloc, design)
}

/// The refusal for an error.
fn refusal_of(fault: GraphErr) -> Refusal
    ensures { IsCodeOf fault result.code }
{
    Refusal::of(graph_code(fault), &fault)
}

impl FrontEnd for Aiger {
    ghost means = { means_by };

    ghost refuses = { HasError };

    fn read(&self, alloc: Global, text: &[u8], by: &ReadBy<'_>) -> Result<Ordered, Refusal> {
        no_refusal();
        match read_text(alloc, text, by) {
            Ok(ordered) => Ok(ordered),
            Err(fault) => Err(refusal_of(fault)),
        }
    }
}
