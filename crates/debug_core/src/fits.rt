//! Whether traces are few enough, for callers that can't know.

ghost use Rattle.std.specs.Prelude.{◌<◌, ◌^◌, ◌↔◌, IsTrue};
ghost use Rattle.unroller.specs.Unrolls.{cycles_of};

use design_core::Trace;

/// Whether the cycles of all traces are fewer than 2^32.
#[tactic(auto, using(crate::proofs::FewCycles::few_cycles))]
pub fn have_few_cycles(traces: &[Trace]) -> bool
    ensures { IsTrue result ↔ cycles_of traces.now < 2 ^ 32 }
{
    let mut left = u32::MAX;
    for i in 0..traces.len() {
        let cycles = traces[i].cycles;
        if left < cycles {
            return false;
        }
        left -= cycles;
    }
    true
}
