//! Whether traces are of a circuit, for callers that can't know.

ghost use Rattle.std.specs.Prelude.{◌≡◌, ◌*◌, ◌↔◌, IsTrue};
ghost use Rattle.unroller.specs.Unrolls.{AreTraces, IsTraceOf};

use bit_circuit::Circuit;
use design_core::Trace;

/// Whether a list has so many entries in each cycle.
fn has_each(len: usize, cycles: usize, each: usize) -> bool
    ensures { IsTrue result ↔ len ≡ cycles * each }
{
    match cycles.checked_mul(each) {
        Some(product) => product == len,
        None => false,
    }
}

/// Whether a trace has its words, and what is expected of so many outputs, in each cycle.
fn is_trace_of(outputs: usize, trace: &Trace) -> bool
    ensures { IsTrue result ↔ IsTraceOf outputs trace.now }
{
    let cycles = trace.cycles as usize;
    if cycles == 0 {
        return trace.inputs.is_empty() && trace.expected.is_empty();
    }
    let inputs = trace.inputs.len() / cycles;
    has_each(trace.inputs.len(), cycles, inputs) && has_each(trace.expected.len(), cycles, outputs)
}

/// Whether each trace has its entries in each cycle, and the cycles of all traces are fewer than 2^32.
#[tactic(auto, using(crate::proofs::FitSteps::traces))]
pub fn are_traces(circuit: &Circuit, traces: &[Trace]) -> bool
    ensures { IsTrue result ↔ AreTraces circuit.now traces.now 0 }
{
    let mut left = u32::MAX;
    for i in 0..traces.len() {
        let cycles = traces[i].cycles;
        if left < cycles {
            return false;
        }
        if !is_trace_of(circuit.outputs().len(), &traces[i]) {
            return false;
        }
        left -= cycles;
    }
    true
}
