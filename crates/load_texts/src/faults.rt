//! Why there is no design, or no trace.

ghost use Rattle.std.specs.Prelude.{◌≡◌};
ghost use Rattle.refusal.specs.Ends.{HasStatus, Says};
ghost use Rattle.load_texts.specs.Refusals.{design_fault_line, load_line, trace_fault_line};
ghost use Rattle.load_texts.specs.Refusals.{design_fault_status, load_status, trace_fault_status};

use crate::dumps::{dump_status, dump_text};
use design_core::Signal;
use refusal::{Code, LastLine, Refusal};
use std::alloc::Global;
use thiserror::Error;
use vcd_traces::VcdErr;

/// Why a text isn't handed over.
#[derive(Clone, Copy, Debug, Error)]
pub enum LoadFault {
    /// It has more bytes than are read.
    #[error("more than 1,073,741,824 bytes")]
    Size,
    /// The shelf failed.
    #[error("the file can't be read")]
    Fault,
    /// Memory was refused.
    #[error("out of memory")]
    NoMemory,
}

/// Why there is no design.
#[derive(Clone, Copy, Debug, Error)]
pub enum DesignFault {
    #[error(transparent)]
    Load(LoadFault),
    /// The text means none.
    #[error(transparent)]
    Text(Refusal),
}

/// Why there is no trace.
#[derive(Clone, Copy, Debug, Error)]
pub enum TraceFault {
    #[error(transparent)]
    Load(LoadFault),
    /// The text means none of the design.
    #[error(transparent)]
    Text(VcdErr),
}

/// What the line of a trace that is refused names: the number of the trace, from 1, the name of its text, and the signals of the design.
#[derive(Clone, Copy, Drop)]
pub(crate) struct TraceName<'a> {
    pub(crate) number: u32,
    pub(crate) name: &'a str,
    pub(crate) signals: &'a [Signal],
}

impl LoadFault {
    /// The line that ends a run; `name` is that of the text.
    pub fn last_line(self, alloc: Global, name: &str) -> LastLine
        ensures says { Says result (load_status self) (load_line name.now self) }
        ensures status { HasStatus result }
    {
        match self {
            LoadFault::Size => LastLine::of_code(alloc, Code::Limit("size")),
            LoadFault::Fault => LastLine::of_fault(alloc, name),
            LoadFault::NoMemory => LastLine::Memory,
        }
    }
}

impl DesignFault {
    /// The line that ends a run; `name` is that of the text.
    pub(crate) fn last_line(self, alloc: Global, name: &str) -> LastLine
        ensures says { Says result (design_fault_status self) (design_fault_line name.now self) }
        ensures status { HasStatus result }
    {
        match self {
            DesignFault::Load(fault) => fault.last_line(alloc, name),
            DesignFault::Text(refusal) => refusal.last_line(alloc),
        }
    }
}

impl TraceFault {
    /// The line that ends a run; the source is that of the text.
    pub(crate) fn last_line(self, alloc: Global, source: &TraceName) -> LastLine
        ensures says { Says result (trace_fault_status self)
            (trace_fault_line source.now.signals.now source.now.name.now source.now.number self) }
        ensures status { HasStatus result }
    {
        match self {
            TraceFault::Load(fault) => fault.last_line(alloc, source.name),
            TraceFault::Text(fault) => {
                LastLine::of_made(dump_status(fault), dump_text(alloc, source, fault))
            }
        }
    }
}
