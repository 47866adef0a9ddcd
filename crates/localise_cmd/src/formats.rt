//! The front end for all formats of designs.
ghost use Rattle.localise_cmd.specs.Formats.{HasError, means_by};

use aiger_front_end::Aiger;
use front_end::{Format, FrontEnd, Ordered, ReadBy};
use refusal::Refusal;
use std::alloc::Global;
use verilog_front_end::Verilog;

/// The front end for texts in any format: each is read by the front end for its format.
#[derive(Clone, Copy, Debug)]
pub(crate) struct AnyFormat;

impl FrontEnd for AnyFormat {
    ghost means = { means_by };

    ghost refuses = { HasError };

    fn read(&self, alloc: Global, text: &[u8], by: &ReadBy<'_>) -> Result<Ordered, Refusal> {
        match by.format {
            Format::Verilog => Verilog.read(alloc, text, by),
            Format::Aiger => Aiger.read(alloc, text, by),
        }
    }
}
