//! The front end for Verilog.
ghost use Rattle.std.specs.Prelude.{IfOk, IfErr};
ghost use Rattle.std.specs.Option.{option_copied};
ghost use Rattle.front_end.specs.Means.{IsReady};
ghost use Rattle.verilog_front_end.specs.Errors.{IsCodeOf, Refuses};
ghost use Rattle.verilog_front_end.specs.FrontEnd.{HasError, means_by};
ghost use Rattle.verilog_front_end.specs.Meaning.{Means};
ghost use Rattle.verilog_front_end.specs.Refusals.{IsRefusal};

use crate::codes::design_code;
use crate::design::design_of;
use crate::error::DesignErr;
use crate::order::ordered;
use front_end::{FrontEnd, Ordered, ReadBy};
use loc_base::Name;
use refusal::Refusal;
use std::alloc::Global;

/// The front end for Verilog.
#[derive(Clone, Copy, Debug)]
pub struct Verilog;

/// The design that a text means, with the order of its drivers.
fn read_text(
    alloc: Global,
    text: &[u8],
    top: &Name,
    clock: Option<&Name>,
) -> Result<Ordered, DesignErr>
    ensures means { IfOk result (λ o. Means text.now top.now (option_copied clock.entry) o.design) }
    ensures ready { IfOk result (λ o. IsReady o.design o.order) }
    ensures refused { IfErr result (Refuses (IsRefusal text.now top.now (option_copied clock.entry))) }
{
    let design = design_of(alloc, text, top, clock)?;
    ordered(alloc, design)
}

/// The refusal for an error.
fn refusal_of(fault: DesignErr) -> Refusal
    ensures { IsCodeOf fault result.code }
{
    Refusal::of(design_code(fault), &fault)
}

impl FrontEnd for Verilog {
    ghost means = { means_by };

    ghost refuses = { HasError };

    fn read(&self, alloc: Global, text: &[u8], by: &ReadBy<'_>) -> Result<Ordered, Refusal> {
        match read_text(alloc, text, by.top, by.clock) {
            Ok(ordered) => Ok(ordered),
            Err(fault) => Err(refusal_of(fault)),
        }
    }
}
