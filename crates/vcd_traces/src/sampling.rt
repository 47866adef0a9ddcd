//! The public call (IEEE 1364-2005, clause 18).
ghost use Rattle.std.specs.Prelude.{◌≡◌, ◌≢◌, IfOk, IfErr};
ghost use Rattle.std.specs.Option.{option_copied};
ghost use Rattle.design_core.specs.declared.trace.Trace.{Trace as TheTrace};
ghost use Rattle.vcd_reading.specs.declared.error.VcdErr.{VcdErr as TheFault};
ghost use Rattle.vcd_reading.specs.declared.error.VcdErr.TheVariants.{NoMemory as OutOfMemory};
ghost use Rattle.vcd_traces.specs.Ports.{HasPorts};
ghost use Rattle.vcd_traces.specs.Samples.{HasSamples, IsRefused};
ghost use Rattle.vcd_traces.specs.Manner.{manner_of, path_bytes};
ghost use Rattle.vcd_traces.specs.Answers.{Answers, IsOnly, IsOnlyFault};
ghost use Rattle.design_core.specs.TraceFits.{IsTraceOf};

use crate::dump::Dump;
use design_core::{Design, Trace};
use loc_base::Name;
use std::alloc::Global;
use vcd_reading::{VcdErr, read_header, top_ports};

/// What a dump is read by.
#[derive(Clone, Copy, Drop)]
pub struct SampleBy<'a> {
    /// The design whose ports are sampled.
    pub design: &'a Design,
    /// The input that is the clock.
    pub clock: Option<&'a Name>,
    /// The path of the scope in which the ports stand: the names of scopes from the outermost on, joined by dots. Without
    /// it that is the first scope that declares every port.
    pub scope: Option<&'a Name>,
    /// Whether unknown bits of inputs are read as 0; else they are refused.
    pub zero_inputs: bool,
}

impl SampleBy<'_> {
    /// The path of the scope.
    pub fn path(&self) -> Option<&[u8]>
        ensures { path_bytes result ≡ option_copied self.now.scope }
    {
        match self.scope {
            None => None,
            Some(path) => Some(path.as_bytes()),
        }
    }
}

/// Reads the header of a dump, and then the rest.
fn answer(alloc: Global, text: &[u8], by: &SampleBy<'_>) -> Result<Trace, VcdErr>
    requires { HasPorts by.now.design.now }
    ensures { Answers text.now by.now.design.now (manner_of by.now) result }
{
    let dump = Dump {
        text,
        front: read_header(alloc, text)?,
    };
    let ports = top_ports(alloc, by.design, by.clock)?;
    dump.trace(alloc, by, ports.as_slice())
}

/// The trace that the text of a dump holds of a design's ports: with a clock their values before each of its rising
/// edges, without one those after each stamp.
///
/// Of several refusals the first counts in the order `Syntax`, `MissingPort`, `PortWidth`, `NoCycle`, `Cycles`,
/// `UnknownInput`.
pub fn samples(alloc: Global, text: &[u8], by: &SampleBy<'_>) -> Result<Trace, VcdErr>
    requires { HasPorts by.now.design.now }
    ensures samples { IfOk result (λ trace. HasSamples text.now by.now.design.now (manner_of by.now) trace) }
    ensures fits { IfOk result (λ trace. IsTraceOf by.now.design.now trace) }
    ensures refused { IfErr result (λ fault. fault ≢ OutOfMemory → IsRefused text.now by.now.design.now (manner_of by.now) fault) }
    ensures only { (trace : TheTrace) → HasSamples text.now by.now.design.now (manner_of by.now) trace → IsOnly trace result }
    ensures only_refused { (fault : TheFault) → IsRefused text.now by.now.design.now (manner_of by.now) fault → IsOnlyFault fault result }
{
    answer(alloc, text, by)
}
