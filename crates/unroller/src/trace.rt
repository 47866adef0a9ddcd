//! The cycles of a trace.

ghost use Rattle.std.specs.Prelude.{◌≡◌, ◌+◌, ◌*◌, ◌<◌, ◌≤◌, ◌^◌, IfErr, IfOk, OnOk, false, get_or, length};
ghost use Rattle.gate_base.specs.Arena.{UnlessNoMemory};
ghost use Rattle.gate_base.specs.Nodes.{counted};
ghost use Rattle.unroller.specs.Unrolls.{cycles_unrolled, inputs_in, samples_in};
ghost use Rattle.unroller.specs.Fields.{frame_of, unrolling_of};

use crate::frame::Frame;
use crate::work::Work;
use bit_circuit::Circuit;
use design_core::Trace;
use gate_base::MakeErr;
use loc_base::{Bits, Items, NoMemory};
use plain_values::row;
use std::alloc::Global;

/// The words of the inputs in a cycle.
#[tactic(auto, using(crate::proofs::TraceSteps::samples))]
fn samples(alloc: Global, trace: &Trace, t: u32) -> Result<Items<Bits>, NoMemory>
    requires cycle { t < trace.now.cycles }
    requires inputs { length trace.now.inputs.items ≡ trace.now.cycles * inputs_in trace.now }
    ensures { IfOk result (λ words. words ≡ samples_in trace.now t) }
{
    let width = trace.inputs.len() / trace.cycles as usize;
    Items::copy_of(alloc, row(&trace.inputs, width, t as usize))
}

impl Work {
    /// Appends the cycles of a trace, from the states of a frame on.
    #[tactic(auto, using(crate::proofs::TraceSteps::cycles))]
    pub(crate) fn trace(
        &mut self,
        circuit: &Circuit,
        frame: &mut Frame,
        trace: &Trace,
    ) -> Result<(), MakeErr>
        requires inputs { length trace.now.inputs.items ≡ trace.now.cycles * inputs_in trace.now }
        requires expected { length trace.now.expected.items ≡ trace.now.cycles * length circuit.now.outputs }
        requires few { length self.old.ends + trace.now.cycles < 2 ^ 32 }
        ensures ok { OnOk result (unrolling_of self.new ≡ cycles_unrolled circuit.now (frame_of frame.old).grouped trace.now (unrolling_of self.old) frame.old.states 0 trace.now.cycles) }
        ensures err { IfErr result (λ e. UnlessNoMemory e (self.old.maker.limit < counted (cycles_unrolled circuit.now (frame_of frame.old).grouped trace.now (unrolling_of self.old) frame.old.states 0 trace.now.cycles).definitions)) }
        ensures limit { self.new.maker.limit ≡ self.old.maker.limit }
        ensures grouped { frame.new.grouped ≡ frame.old.grouped }
    {
        for t in 0..trace.cycles {
            frame.moment = self.ends.len() as u32;
            frame.samples = samples(self.alloc, trace, t)?;
            let expected = row(&trace.expected, circuit.outputs().len(), t as usize);
            frame.states = self.cycle(circuit, frame, expected)?;
        }
        Ok(())
    }
}
