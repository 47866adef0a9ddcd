//! The lines of traces, one after another.
ghost use Rattle.std.specs.Prelude.{◌≡◌, ◌<◌, IfOk, List, Some, length, slice_get, true};
ghost use Rattle.std.specs.Option.{option_map};
ghost use Rattle.design_core.specs.Run.{IsRun};
ghost use Rattle.design_core.specs.Valuation.{Valuation};
ghost use Rattle.design_core.specs.TraceFits.{IsTraceOf};
ghost use Rattle.cycle_sim.specs.Simulated.{at_start};
ghost use Rattle.cycle_sim.specs.Simulator.{held_by};
ghost use Rattle.io_ports.specs.Sink.{SinkCause};
ghost use Rattle.sim_lines.specs.Lines.{AreLines, AreLinesOf, IsEnd, Line as SomeLine, are_right, cycle_lines, no_place, no_values};
ghost use Rattle.sim_lines.specs.Shows.{Shows};
ghost use Rattle.sim_lines.specs.CanShow.{AreShown, CanShow};
ghost use Rattle.sim_lines.specs.Running.{IsRunner, IsSameRunner, design_of, order_of, place_of};

use crate::lines::{Moment, Wrong};
use crate::runner::Runner;
use design_core::types::Order;
use design_core::{Design, Trace};
use io_ports::{Sink, SinkFault};
use refusal::Notes;
use std::alloc::Global;

/// What is simulated: the traces of a design, with the order of its drivers.
#[derive(Drop)]
pub struct Simulation<'a> {
    pub design: &'a Design,
    pub order: &'a Order,
    pub traces: &'a [Trace],
}

/// Prints the outputs in each cycle of a trace, and answers where it first is not right.
fn show_cycles<O: Sink, N: Notes>(
    runner: &mut Runner,
    trace: &Trace,
    number: u32,
    out: &mut O,
    notes: &mut N,
) -> Result<Option<Wrong>, SinkFault>
    requires runner { IsRunner runner.old }
    requires start { held_by runner.old.sim ≡ at_start (design_of runner.old) (order_of runner.old) }
    requires trace { IsTraceOf (design_of runner.old) trace.now }
    ensures runner { IsRunner runner.new }
    ensures same { IsSameRunner runner.old runner.new }
    ensures tells { O.tells out.new ≡ O.tells out.old }
    ensures text { O.tells out.old ≡ true → (run : List Valuation) → IsRun (design_of runner.old) trace.now no_place no_values run
        → Shows (cycle_lines (design_of runner.old) number 0 run) (O.written out.old) (O.written out.new) result }
    ensures end { IfOk result (λ miss. IsEnd (design_of runner.old) trace.now (option_map place_of miss)) }
    ensures cause { SinkCause (O.faults out.old) (O.faults out.new) result }
{
    let mut miss = None;
    for cycle in 0..trace.cycles {
        let moment = Moment {
            trace: number,
            cycle,
        };
        runner.show_cycle(trace, moment, out)?;
        miss = runner.end_after(miss, trace, moment, notes);
    }
    Ok(miss)
}

/// Prints the lines of a trace: its cycles, and then how it ends. Answers whether it is right.
fn show_trace<O: Sink, N: Notes>(
    runner: &mut Runner,
    trace: &Trace,
    number: u32,
    out: &mut O,
    notes: &mut N,
) -> Result<bool, SinkFault>
    requires runner { IsRunner runner.old }
    requires trace { IsTraceOf (design_of runner.old) trace.now }
    ensures runner { IsRunner runner.new }
    ensures same { IsSameRunner runner.old runner.new }
    ensures tells { O.tells out.new ≡ O.tells out.old }
    ensures text { O.tells out.old ≡ true → (lines : List SomeLine) → AreLinesOf (design_of runner.old) number trace.now lines
        → Shows lines (O.written out.old) (O.written out.new) result }
    ensures right { IfOk result (λ right. (lines : List SomeLine) → AreLinesOf (design_of runner.old) number trace.now lines
        → right ≡ are_right lines) }
    ensures cause { SinkCause (O.faults out.old) (O.faults out.new) result }
{
    runner.reset();
    let miss = show_cycles(runner, trace, number, out, notes)?;
    runner.show_end(number, miss, out)?;
    Ok(miss.is_none())
}

/// The trace of a number.
#[tactic(auto, using(plain_values::proofs::EvaluateWords::slice_get_at))]
fn trace_at(traces: &[Trace], j: usize) -> &Trace
    requires { j < length traces.now }
    ensures { slice_get traces.now j ≡ Some result.now }
{
    &traces[j]
}

/// Prints the lines of traces, which are counted from 1: for each of them a line for each cycle, with the outputs in the
/// order of the ports, and then whether it is right, or where it first is not, which is told too. Each line is put by itself. Answers whether
/// all traces are right.
pub fn show_traces<O: Sink, N: Notes>(
    alloc: Global,
    simulation: &Simulation,
    out: &mut O,
    notes: &mut N,
) -> Result<bool, SinkFault>
    requires can { CanShow simulation.now.design.now simulation.now.order.now }
    requires traces { AreShown simulation.now.design.now simulation.now.traces.now }
    ensures tells { O.tells out.new ≡ O.tells out.old }
    ensures text { O.tells out.old ≡ true → (lines : List SomeLine) → AreLines simulation.now.design.now 1 simulation.now.traces.now lines
        → Shows lines (O.written out.old) (O.written out.new) result }
    ensures right { IfOk result (λ right. (lines : List SomeLine) → AreLines simulation.now.design.now 1 simulation.now.traces.now lines
        → right ≡ are_right lines) }
    ensures cause { SinkCause (O.faults out.old) (O.faults out.new) result }
{
    let traces = simulation.traces;
    let mut runner = Runner::new(alloc, simulation.design, simulation.order)?;
    let mut right = true;
    for j in 0..traces.len() {
        let is_right = show_trace(&mut runner, trace_at(traces, j), j as u32 + 1, out, notes)?;
        right &= is_right;
    }
    Ok(right)
}
